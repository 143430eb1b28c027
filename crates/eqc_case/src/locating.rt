//! Where the differences of a pair begin: they are grouped by a place that they share, and told of.
ghost use Rattle.std.specs.Prelude.{◌≡◌, ◌<◌, [], All, length, slice_index_or, IfOk, IfSome, OnOk};
ghost use Rattle.eqc_case.specs.Diagnosed.{IsGroup, IsLocated};

use crate::diagnostics::{Compared, Diagnostics, Located};
use eqc_pair::Pair;
use eqc_place::{Lanes, Locator, Places};
use eqc_report::Differences;
use std::alloc::{AllocError, Global};

/// For so many groups of outputs places are looked for at most.
const MOST_GROUPS: usize = 10;

/// The differences of a pair, and within how many conflicts their places are looked for.
#[derive(Drop)]
pub(crate) struct Differing<'x> {
    pub alloc: Global,
    pub compared: Compared<'x>,
    pub differences: &'x Differences,
    pub conflicts: u64,
}

/// Differences that may begin at one place: the first of them, its assignment and its places, the
/// place that most of the others share, and these.
#[derive(Drop)]
pub(crate) struct Group<'x> {
    output: &'x [u8],
    values: &'x [bool],
    places: Places,
    shared: usize,
    others: Vec<usize>,
}

/// The position of an output of this name, from one on, if there is one.
fn position_from(pair: &Pair<'_>, from: usize, name: &[u8]) -> Option<usize>
    ensures within { IfSome result (λ position. position < length pair.now.first.outputs) }
    ensures named { IfSome result (λ position. slice_index_or pair.now.first.outputs position [] ≡ name.now) }
{
    let outputs = pair.first().outputs();
    for k in from..outputs.len() {
        if outputs[k].as_bytes() == name {
            return Some(k);
        }
    }
    None
}

/// For each output that differs its position, none of an output where it isn't found; a report has
/// them in their order. Fails where memory is refused.
fn positions_of(
    alloc: Global,
    pair: &Pair<'_>,
    differences: &Differences,
) -> Result<Vec<usize>, AllocError> {
    let mut positions = Vec::with_capacity(alloc, differences.each.len())?;
    let mut from = 0usize;
    for difference in &differences.each {
        match position_from(pair, from, difference.name.as_bytes()) {
            Some(position) => {
                positions.push(position)?;
                from = position.saturating_add(1);
            }
            None => positions.push(usize::MAX)?,
        }
    }
    Ok(positions)
}

/// Marks the outputs that differ. Fails where memory is refused.
fn marked(alloc: Global, pair: &Pair<'_>, positions: &[usize]) -> Result<Vec<bool>, AllocError>
    ensures { IfOk result (λ marks. length marks.items ≡ length pair.now.first.outputs) }
{
    let mut marks = vec![in alloc; false; pair.first().outputs().len()]?;
    for position in positions {
        if *position < marks.len() {
            marks[*position] = true;
        }
    }
    Ok(marks)
}

/// The values of the inputs under which the first output differs, which are allowed.
fn first_values(differences: &Differences) -> &[bool] {
    match differences.each.first() {
        Some(difference) => &difference.values,
        None => &[],
    }
}

/// The first of the longest of these lists, by its position; 0 where all are empty.
fn longest(lists: &[Vec<usize>]) -> usize {
    let mut found = 0usize;
    let mut most = 0usize;
    for (k, list) in lists.iter().enumerate() {
        if list.len() > most {
            found = k;
            most = list.len();
        }
    }
    found
}

/// The group with the most outputs among those that aren't told yet, the first of them, by its
/// position; how many there are where all are.
fn largest(groups: &[Group<'_>], is_told: &[bool]) -> usize {
    let mut found = groups.len();
    let mut most = 0usize;
    for (k, group) in groups.iter().enumerate() {
        let is_told = is_told.get(k).copied().unwrap_or(true);
        if !is_told && (found == groups.len() || group.others.len() > most) {
            found = k;
            most = group.others.len();
        }
    }
    found
}

/// Marks a difference as left.
fn put_back(is_left: &mut Vec<bool>, difference: usize) {
    if difference < is_left.len() {
        is_left[difference] = true;
    }
}

/// Outputs that are simulated together, by their positions among the differences.
#[derive(Drop)]
struct Batch {
    lanes: Lanes,
    members: Vec<usize>,
}

/// Tells of a group of some differences.
fn tell_group<'g, T: Diagnostics>(
    compared: Compared<'g>,
    differences: &'g Differences,
    group: &'g Group<'g>,
    told: &mut T,
)
    requires { IsGroup compared.pair.now group.now }
{
    told.places(&Located {
        compared,
        output: group.output,
        values: group.values,
        places: &group.places,
        shared: group.shared,
        others: &group.others,
        differences,
    });
}

impl<'x> Differing<'x> {
    /// Adds to the list of each place those of a batch that it mends. Fails where memory is
    /// refused.
    fn list_mended(
        &self,
        locator: &Locator<'_>,
        places: &Places,
        batch: &Batch,
        lists: &mut Vec<Vec<usize>>,
    ) -> Result<(), AllocError> {
        let mended = batch.lanes.mended(self.alloc, locator, places)?;
        for (place, bits) in mended.iter().enumerate() {
            for (lane, member) in batch.members.iter().enumerate() {
                if place < lists.len() && (*bits >> (lane % 64)) & 1 != 0 {
                    lists[place].push(*member)?;
                }
            }
        }
        Ok(())
    }

    /// For each place the differences among those that are left which it mends. Fails where memory
    /// is refused.
    fn lists_of(
        &self,
        locator: &Locator<'_>,
        places: &Places,
        positions: &[usize],
        is_left: &[bool],
    ) -> Result<Vec<Vec<usize>>, AllocError>
        requires { locator.now.pair ≡ self.now.compared.pair.now }
    {
        let alloc = self.alloc;
        let mut lists = Vec::with_capacity(alloc, places.each.len())?;
        for _ in 0..places.each.len() {
            lists.push(Vec::new(alloc))?;
        }
        let mut from = 0usize;
        for _ in 0..positions.len() {
            let (batch, next) = self.batch(locator, positions, is_left, from)?;
            if batch.members.is_empty() {
                break;
            }
            self.list_mended(locator, places, &batch, &mut lists)?;
            from = next;
        }
        Ok(lists)
    }

    /// The next differences that are left, from one on, as many as are simulated together, and
    /// where the next ones begin. Fails where memory is refused.
    fn batch(
        &self,
        locator: &Locator<'_>,
        positions: &[usize],
        is_left: &[bool],
        from: usize,
    ) -> Result<(Batch, usize), AllocError>
        requires { locator.now.pair ≡ self.now.compared.pair.now }
    {
        let mut lanes = Lanes::new(self.alloc);
        let mut members = Vec::new(self.alloc);
        let each = &self.differences.each;
        for k in from..positions.len().min(each.len()) {
            let output = positions[k];
            let is_output = output < self.compared.pair.first().outputs().len();
            if is_output && is_left.get(k).copied().unwrap_or(false) {
                if !lanes.add(locator, output, &each[k].values)? {
                    return Ok((Batch { lanes, members }, k));
                }
                members.push(k)?;
            }
        }
        Ok((Batch { lanes, members }, positions.len()))
    }

    /// The group of a difference and of others that are left. Fails where memory is refused.
    fn group(
        &self,
        locator: &Locator<'_>,
        positions: &[usize],
        leader: usize,
        is_left: &mut Vec<bool>,
    ) -> Result<Option<Group<'x>>, AllocError>
        requires { locator.now.pair ≡ self.now.compared.pair.now }
        ensures { IfOk result (λ found. IfSome found (IsGroup self.now.compared.pair.now)) }
    {
        let differences: &'x Differences = self.differences;
        let Some(difference) = differences.each.get(leader) else {
            return Ok(None);
        };
        let output = positions.get(leader).copied().unwrap_or(usize::MAX);
        if output >= self.compared.pair.first().outputs().len() {
            return Ok(None);
        }
        let places = locator.locate(self.alloc, output, &difference.values)?;
        let mut lists = self.lists_of(locator, &places, positions, is_left)?;
        let shared = longest(&lists);
        let others = if shared < lists.len() {
            lists.swap_remove(shared)
        } else {
            Vec::new(self.alloc)
        };
        for k in &others {
            if *k < is_left.len() {
                is_left[*k] = false;
            }
        }
        Ok(Some(Group {
            output: difference.name.as_bytes(),
            values: &difference.values,
            places,
            shared,
            others,
        }))
    }

    /// Puts the group of a difference behind others, if it is left and has one, and they aren't too
    /// many. Fails where memory is refused.
    fn put_group(
        &self,
        locator: &Locator<'_>,
        positions: &[usize],
        k: usize,
        is_left: &mut Vec<bool>,
        groups: &mut Vec<Group<'x>>,
    ) -> Result<(), AllocError>
        requires { locator.now.pair ≡ self.now.compared.pair.now }
        ensures { OnOk result (All (IsGroup self.now.compared.pair.now) groups.old.items → All (IsGroup self.now.compared.pair.now) groups.new.items) }
    {
        if k >= is_left.len() || groups.len() >= MOST_GROUPS || !is_left[k] {
            return Ok(());
        }
        is_left[k] = false;
        match self.group(locator, positions, k, is_left)? {
            Some(group) => {
                groups.push(group)?;
                Ok(())
            }
            None => {
                put_back(is_left, k);
                Ok(())
            }
        }
    }

    /// The groups of all differences, as many as are looked for; those that are in none stay
    /// marked. Fails where memory is refused.
    fn groups(
        &self,
        locator: &Locator<'_>,
        positions: &[usize],
        is_left: &mut Vec<bool>,
    ) -> Result<Vec<Group<'x>>, AllocError>
        requires { locator.now.pair ≡ self.now.compared.pair.now }
        ensures { IfOk result (λ groups. All (IsGroup self.now.compared.pair.now) groups.items) }
    {
        let mut groups = Vec::new(self.alloc);
        for k in 0..positions.len() {
            self.put_group(locator, positions, k, is_left, &mut groups)?;
        }
        Ok(groups)
    }

    /// Tells of groups, of the largest first. Fails where memory is refused.
    fn tell_groups<T: Diagnostics>(
        &self,
        groups: &[Group<'_>],
        told: &mut T,
    ) -> Result<(), AllocError>
        requires { All (IsGroup self.now.compared.pair.now) groups.now }
    {
        let mut is_told = vec![in self.alloc; false; groups.len()]?;
        for _ in 0..groups.len() {
            let k = largest(groups, &is_told);
            if k < groups.len() {
                tell_group(self.compared, self.differences, &groups[k], told);
                if k < is_told.len() {
                    is_told[k] = true;
                }
            }
        }
        Ok(())
    }

    /// Tells of the places of all differences, those first that most outputs share. Fails where
    /// memory is refused, and then some aren't told of.
    pub(crate) fn tell<T: Diagnostics>(&self, told: &mut T) -> Result<(), AllocError> {
        let pair = self.compared.pair;
        let positions = positions_of(self.alloc, pair, self.differences)?;
        let marks = marked(self.alloc, pair, &positions)?;
        let values = first_values(self.differences);
        let locator = Locator::of(self.alloc, pair, &marks, values, self.conflicts)?;
        let mut is_left = vec![in self.alloc; true; positions.len()]?;
        let groups = self.groups(&locator, &positions, &mut is_left)?;
        self.tell_groups(&groups, told)?;
        let left = is_left.iter().filter(|left| **left).count();
        if left > 0 {
            told.unplaced(left);
        }
        Ok(())
    }
}
