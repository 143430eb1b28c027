//! The stripes' tables, each at home or out in a hand.
ghost use Rattle.std.specs.Prelude.{◌≡◌, ◌<◌, IfOk, length, map, get_or, set};
ghost use mathlib.Core.Option.{some, none};
ghost use Rattle.eqc_core.specs.Tables.{entries_of};
ghost use Rattle.eqc_core.specs.Machine.{home_of};

use crate::table::Table;
use std::alloc::{AllocError, Global};
use std::mem;

// The same tables at home, in memory of their own.
pub(crate) fn copy_homes(
    alloc: Global,
    homes: &[Option<Table>],
) -> Result<Vec<Option<Table>>, AllocError>
    ensures { IfOk result (λ v. map home_of v.items ≡ map home_of homes.now) }
{
    let mut copies = Vec::new(alloc);
    for home in homes {
        let copy = copy_home(alloc, home)?;
        copies.push(copy)?;
    }
    Ok(copies)
}

// The same table, where it is at home.
fn copy_home(alloc: Global, home: &Option<Table>) -> Result<Option<Table>, AllocError>
    ensures { IfOk result (λ h. home_of h ≡ home_of home.now) }
{
    match home {
        Some(table) => {
            let copy = table.copy(alloc)?;
            Ok(Some(copy))
        }
        None => Ok(None),
    }
}

// Takes a stripe's table out of its home.
pub(crate) fn take_home(homes: &mut Vec<Option<Table>>, alloc: Global, i: u32) -> Table
    requires { i < length homes.old.items }
    ensures homes { map home_of homes.new.items ≡ set (map home_of homes.old.items) i none }
    ensures table { result.entries.items ≡ entries_of (get_or (map home_of homes.old.items) i none) }
{
    match mem::replace(&mut homes[i as usize], None) {
        Some(table) => table,
        None => Table::empty(alloc),
    }
}

// Puts a stripe's table into its home.
pub(crate) fn put_home(homes: &mut Vec<Option<Table>>, i: u32, table: Table)
    requires { i < length homes.old.items }
    ensures { map home_of homes.new.items ≡ set (map home_of homes.old.items) i (some table.entries.items) }
{
    homes[i as usize] = Some(table);
}
