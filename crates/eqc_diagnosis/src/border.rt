//! The words for up to where two netlists are known to be equal: signals with their partners, those
//! of a word together.

use crate::lines::Lines;
use crate::shown::{LISTED, Shown};
use crate::signal::{Designs, signal_of};
use eqc_place::{Border, Meeting};
use std::alloc::{AllocError, Global};

/// What is said where no signal is told.
const NONE_EQUAL: &str =
    "below the outputs that are left no signal was found equal to one of the other netlist";

/// So many words are told apart at most.
const MOST_WORDS: usize = 64;

/// A signal by its instance and its name, with the number in that, if it has an index.
#[derive(Clone, Copy)]
struct Bit<'a> {
    instance: u32,
    before: &'a [u8],
    number: Option<u32>,
    after: &'a [u8],
}

/// Signals of one word that have partners in one other, number by number, or a single one.
#[derive(Clone, Copy)]
struct Group<'a> {
    /// The nearest of them.
    leader: Meeting,
    first: Bit<'a>,
    second: Bit<'a>,
    /// The least and the greatest number of the first netlist's signals, and how many they are.
    low: u32,
    high: u32,
    count: u32,
}

/// Where a name's index begins and ends between its brackets or dashes, of names as `p[3]`, `p<3>`,
/// `p(3)` and `p_3_`.
fn index_in(name: &[u8]) -> Option<(usize, usize)> {
    let (last, front) = name.split_last()?;
    let open = match *last {
        b']' => b'[',
        b'>' => b'<',
        b')' => b'(',
        b'_' => b'_',
        _ => return None,
    };
    let end = front.len();
    let digits = front
        .iter()
        .rev()
        .take_while(|byte| byte.is_ascii_digit())
        .count();
    let start = end.saturating_sub(digits);
    let before = front.get(start.checked_sub(1)?)?;
    if digits == 0 || digits > 9 || *before != open {
        return None;
    }
    Some((start, end))
}

/// The number that at most nine digits are.
fn value(digits: &[u8]) -> u32 {
    let mut value = 0u32;
    for digit in digits {
        value = value.wrapping_mul(10).wrapping_add(u32::from(*digit % 16));
    }
    value
}

/// A step of the pair by its name.
fn bit_of<'a>(designs: &Designs<'a>, step: u32) -> Option<Bit<'a>> {
    let signal = signal_of(designs, step)?;
    let (instance, name) = signal.flat.signal(signal.number);
    match index_in(name) {
        Some((start, end)) if start <= end && end <= name.len() => Some(Bit {
            instance,
            before: &name[..start],
            number: Some(value(&name[start..end])),
            after: &name[end..],
        }),
        _ => Some(Bit {
            instance,
            before: name,
            number: None,
            after: &[],
        }),
    }
}

impl<'a> Bit<'a> {
    /// Whether it and another are of one word.
    fn is_beside(&self, other: &Bit<'_>) -> bool {
        self.instance == other.instance && self.before == other.before && self.after == other.after
    }

    /// How far its number is from that of another, if both have one.
    fn distance_from(&self, other: &Bit<'_>) -> Option<u32> {
        Some(self.number?.wrapping_sub(other.number?))
    }
}

impl<'a> Group<'a> {
    /// Of one meeting.
    fn of(leader: Meeting, first: Bit<'a>, second: Bit<'a>) -> Group<'a> {
        let number = first.number.unwrap_or(0);
        Group {
            leader,
            first,
            second,
            low: number,
            high: number,
            count: 1,
        }
    }

    /// Whether a meeting of these two is of the group.
    fn has(&self, meeting: &Meeting, first: &Bit<'_>, second: &Bit<'_>) -> bool {
        let is_alike = meeting.partner.is_opposite == self.leader.partner.is_opposite;
        let distance = first.distance_from(&self.first);
        is_alike
            && distance.is_some()
            && distance == second.distance_from(&self.second)
            && self.first.is_beside(first)
            && self.second.is_beside(second)
    }

    /// Takes a meeting of the group, by the number of its first signal.
    fn take(&mut self, number: u32) {
        self.low = self.low.min(number);
        self.high = self.high.max(number);
        self.count = self.count.saturating_add(1);
    }
}

/// The group of a meeting among others, by its position.
fn group_among(
    groups: &[Group<'_>],
    meeting: &Meeting,
    first: &Bit<'_>,
    second: &Bit<'_>,
) -> Option<usize> {
    for (k, group) in groups.iter().enumerate() {
        if group.has(meeting, first, second) {
            return Some(k);
        }
    }
    None
}

/// Puts a meeting into its group, or makes one of it, where there are fewer words than are told
/// apart, or fewer single signals than are told. Fails where memory is refused.
fn put_meeting<'a>(
    designs: &Designs<'a>,
    meeting: &Meeting,
    groups: &mut Vec<Group<'a>>,
    single: &mut usize,
) -> Result<(), AllocError> {
    let Some(first) = bit_of(designs, meeting.step) else {
        return Ok(());
    };
    let Some(second) = bit_of(designs, meeting.partner.step) else {
        return Ok(());
    };
    if let Some(k) = group_among(groups, meeting, &first, &second) {
        if k < groups.len() {
            groups[k].take(first.number.unwrap_or(0));
        }
        return Ok(());
    }
    let is_word = first.number.is_some() && second.number.is_some();
    if !is_word {
        *single = single.saturating_add(1);
    }
    if groups.len() < MOST_WORDS && (is_word || *single <= LISTED) {
        groups.push(Group::of(*meeting, first, second))?;
    }
    Ok(())
}

/// The groups that are told: first words of several signals, then single ones, the nearest of each
/// first. Fails where memory is refused.
fn told_groups<'a>(
    alloc: Global,
    designs: &Designs<'a>,
    meetings: &[Meeting],
) -> Result<Vec<Group<'a>>, AllocError> {
    let mut groups = Vec::new(alloc);
    let mut single = 0usize;
    for meeting in meetings {
        put_meeting(designs, meeting, &mut groups, &mut single)?;
    }
    let mut told = Vec::new(alloc);
    for is_word in [true, false] {
        for group in &groups {
            if (group.count > 1) == is_word && told.len() < LISTED {
                told.push(*group)?;
            }
        }
    }
    Ok(told)
}

/// A bit's name, or that of its word between two numbers, the path of its instance, its netlist and
/// the line of its driver. Fails where memory is refused.
fn bit_said(
    alloc: Global,
    designs: &Designs<'_>,
    step: u32,
    bit: &Bit<'_>,
    ends: (u32, u32),
) -> Result<String, AllocError> {
    let Some(signal) = signal_of(designs, step) else {
        return Ok(String::new(alloc));
    };
    let (model, path) = signal.path(alloc)?;
    let (before, after) = (Shown(bit.before), Shown(bit.after));
    let name = match bit.number {
        None => format!(in alloc; "'{before}'"),
        Some(number) if ends.0 == ends.1 => format!(in alloc; "'{before}{number}{after}'"),
        Some(_) => format!(in alloc; "'{before}{}:{}{after}'", ends.1, ends.0),
    }?;
    let side = signal.side();
    match signal.line(model) {
        Some(line) => format!(in alloc; "{name}{path} ({side}, line {line})"),
        None => format!(in alloc; "{name}{path} ({side})"),
    }
}

/// The line on a group: its word, its partner's, and how many of the numbers between have partners.
/// Fails where memory is refused.
fn group_said(
    alloc: Global,
    designs: &Designs<'_>,
    group: &Group<'_>,
) -> Result<String, AllocError> {
    let Group { low, high, .. } = *group;
    let apart = group
        .second
        .number
        .unwrap_or(0)
        .wrapping_sub(group.first.number.unwrap_or(0));
    let others = (low.wrapping_add(apart), high.wrapping_add(apart));
    let leader = group.leader;
    let first = bit_said(alloc, designs, leader.step, &group.first, (low, high))?;
    let second = bit_said(alloc, designs, leader.partner.step, &group.second, others)?;
    let not = if leader.partner.is_opposite {
        "not "
    } else {
        ""
    };
    if group.count == 1 {
        return format!(in alloc; "{first} = {not}{second}");
    }
    let all = high.wrapping_sub(low).saturating_add(1);
    format!(in alloc; "{first} = {not}{second}: {} of {all}", group.count)
}

/// The line before the groups of a border. Fails where memory is refused.
fn border_said(alloc: Global, border: &Border) -> Result<String, AllocError> {
    let inputs = border.inputs;
    match border.meetings.len() {
        0 if inputs == 0 => String::from_str(alloc, NONE_EQUAL),
        0 => format!(in alloc; "{NONE_EQUAL}; inputs that they need: {inputs}"),
        count => format!(in alloc;
            "below the outputs that are left so many signals are proved equal to ones of the other netlist: {count}; inputs that they need beside these: {inputs}"
        ),
    }
}

/// Puts the lines on up to where two netlists are known to be equal, if outputs are left below
/// which that is told. Fails where memory is refused, and then some aren't put.
pub fn say_border(
    alloc: Global,
    designs: &Designs<'_>,
    border: &Border,
    lines: &mut Lines,
) -> Result<(), AllocError> {
    if border.outputs == 0 {
        return Ok(());
    }
    lines.put(border_said(alloc, border))?;
    let groups = told_groups(alloc, designs, &border.meetings)?;
    let mut told = 0usize;
    for group in &groups {
        lines.put(group_said(alloc, designs, group))?;
        told = told.saturating_add(group.count as usize);
    }
    let more = border.meetings.len().saturating_sub(told);
    if more > 0 {
        lines.put(format!(in alloc; "and {more} more"))?;
    }
    Ok(())
}
