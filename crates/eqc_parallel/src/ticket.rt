//! The ticket word: a table of one word, from which each number is drawn once.
//!
//! A seat stands for a number of members, at first for all. Before anything is drawn it is halved
//! until each member has one of its own, so the members' draws past the last output are counted in
//! advance, and the word can't wrap. When all seats have come back into one, that one has drawn
//! each output once.
ghost use Rattle.std.specs.Prelude.{◌≡◌, ℕ, ◌+◌, ◌-◌, ◌<◌, [], IfOk};
ghost use Rattle.eqc_parallel.specs.Ticket.{IsTicket, opening_view, drew, halved, half, both, spent, IsAbove, IsSeat, strangers, once_below, times};

use atomic_table::{Join, Play, Seat, Shared, Split, Table, TableRule};
use std::alloc::{AllocError, Global};
use std::collections::LinkedList;

/// What a seat knows: how many members it stands for, and the numbers that were drawn. No value of
/// it is made.
pub(crate) struct View {
    pub seats: u64,
    pub drawn: LinkedList<u64>,
}

/// How many outputs there are, and how many members.
#[derive(Clone, Copy)]
pub(crate) struct Key {
    pub outputs: u32,
    pub seats: u32,
}

/// The rule of the table.
pub(crate) struct Tickets;

impl TableRule<u8, View, Key> for Tickets {
    ghost holds = { IsTicket };

    ghost first = { opening_view };
}

/// A number was drawn.
struct Drawing;

impl Play<u8, View> for Drawing {
    ghost then = { λ s me n after. (after ≡ (drew me.0 n, me.1)) × IsAbove n me.0.drawn };
}

/// A seat hands on half of what it stands for.
struct Halving;

impl Split<View> for Halving {
    ghost left = { halved };

    ghost right = { half };
}

/// A seat takes in another.
struct TakingIn;

impl Join<View> for TakingIn {
    ghost both = { both };

    ghost spent = { spent };
}

/// What all members share of the table.
pub(crate) type Words = Shared<u8, View, Key, Tickets>;

pub(crate) type TicketTable = Table<u8, View, Key, Tickets, Global>;

pub(crate) type Drawer = Seat<u8, View>;

/// A table whose word is 0, and the seat that stands for all members.
pub(crate) fn open(alloc: Global, key: Key) -> Result<(TicketTable, Drawer), AllocError>
    ensures { IfOk result (λ t. IsSeat t.0.shared.table_id t.1 × (t.0.shared.key ≡ key) × (t.1.me.0 ≡ opening_view key)) }
{
    TicketTable::of_words(alloc, &[0], &key)
}

/// Draws a number, which is above all that this seat has drawn.
pub(crate) fn draw(words: &Words, seat: &mut Drawer) -> u64
    requires own { IsSeat words.now.table_id seat.old }
    requires room { strangers words.now.key.outputs seat.old.me.0.drawn < seat.old.me.0.seats }
    ensures own { IsSeat words.now.table_id seat.new }
    ensures drawn { seat.new.me.0 ≡ drew seat.old.me.0 result }
    ensures above { IsAbove result seat.old.me.0.drawn }
{
    words.fetch_add::<Drawing>(seat, 0, 1)
}

/// How many numbers have been drawn, as one look at the word tells it: there may be more by now.
pub(crate) fn drawn(words: &Words, seat: &Drawer) -> u64
    requires own { IsSeat words.now.table_id seat.now }
{
    words.peek(0)
}

/// Hands half of what a seat stands for to a new one.
pub(crate) fn halve(words: &Words, seat: &mut Drawer) -> Drawer
    requires own { IsSeat words.now.table_id seat.old }
    requires fresh { seat.old.me.0.drawn ≡ [] }
    ensures kept { IsSeat words.now.table_id seat.new × (seat.new.me.0 ≡ halved seat.old.me.0) }
    ensures given { IsSeat words.now.table_id result × (result.me.0 ≡ half seat.old.me.0) }
{
    words.split_seat::<Halving>(seat)
}

/// Takes in another seat, with what it drew.
pub(crate) fn take_in(words: &Words, seat: &mut Drawer, other: Drawer)
    requires own { IsSeat words.now.table_id seat.old }
    requires other { IsSeat words.now.table_id other }
    ensures { IsSeat words.now.table_id seat.new × (seat.new.me.0 ≡ both seat.old.me.0 other.me.0) }
{
    words.join_seat::<TakingIn>(seat, other);
}

/// Ends the table: a seat that stands for all members has drawn the numbers below the answer, each
/// once.
pub(crate) fn settle(table: TicketTable, seat: Drawer) -> u64
    requires own { IsSeat table.shared.table_id seat }
    requires all { seat.me.0.seats ≡ table.shared.key.seats }
    ensures once { (x : ℕ) → times x seat.me.0.drawn ≡ once_below x result }
    ensures beyond { strangers table.shared.key.outputs seat.me.0.drawn ≡ result - table.shared.key.outputs }
{
    let closed = table.close_with(seat);
    let word = closed.word(0);
    closed.free();
    word
}
