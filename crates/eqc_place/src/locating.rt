//! The call: where the outputs of a pair begin to differ.
ghost use Rattle.std.specs.Prelude.{◌≡◌, ◌<◌, ◌≤◌, All, length, map, IfOk, IfSome, IsSome};
ghost use Rattle.eqc_build.specs.Steps.{steps_in, uses_of};
ghost use Rattle.eqc_pair.specs.PairOf.{input_values};
ghost use Rattle.eqc_place.specs.Places.{AreApart, AreColumns, AreLocated, IsPartner, IsPlace};
ghost use Rattle.eqc_place.specs.Values.{AreValues};

use crate::allowed::literals_where_allowed;
use crate::covers::Covers;
use crate::depths::depths_of;
use crate::known::Known;
use crate::partner::{NONE, Partners, second_steps};
use crate::place::{Column, Partner, Place, Places};
use crate::ranking::Suspect;
use crate::told::values_under;
use crate::trial::Trial;
use crate::users::Users;
use eqc_build::Steps;
use eqc_gates::{literals, needed_within};
use eqc_pair::Pair;
use eqc_sweep::{Effort, Sweep};
use std::alloc::{AllocError, Global};
use std::marker::Model;

/// The most conflicts of a question, and the work of all for each conflict that is allowed, for
/// each node, and for the graph as a whole.
const QUESTION: u64 = 1_000;

const WORK: u64 = 2_000;

const EACH_NODE: u64 = 3_000;

const WHOLE: u64 = 4_000_000;

/// Where more characters of covers would enter than so many, for each instance of a model anew,
/// nothing does, and no place is found.
const CHARACTERS: u64 = 8_000_000;

/// The steps of a pair, with what is proved of them. Contracts see the steps.
#[derive(Drop)]
pub struct Locator<'a> {
    pub(crate) steps: Steps<'a>,
    /// What is proved equal under all values of the inputs, and what is under those that the
    /// assumption allows.
    everywhere: Partners,
    where_allowed: Partners,
    known: Known,
    /// The steps that the chosen outputs need, and who uses each.
    pub(crate) marks: Vec<bool>,
    pub(crate) covers: Covers,
    pub(crate) users: Users,
    pub(crate) depths: Vec<u32>,
    /// The steps of the chosen outputs.
    pub(crate) outputs: Vec<[u32; 2]>,
}

impl<'a> Model for Locator<'a> {
    ghost use Rattle.eqc_build.specs.Steps.{StepsOf};
    ghost use Rattle.eqc_place.specs.Places.{AreProved};

    ghost Value = { StepsOf };

    ghost view = { λ a. a.steps };

    ghost invariant = { λ a. AreProved a.steps.pair a.everywhere × AreProved a.steps.pair a.where_allowed };
}

/// What questions may cost, where so many conflicts are allowed in all.
fn effort_for(conflicts: u64) -> Effort {
    if conflicts == 0 {
        return Effort::none();
    }
    let work = conflicts.saturating_mul(WORK);
    Effort::of(QUESTION.min(conflicts), work).within(EACH_NODE, WHOLE)
}

/// Marks for the outputs that are chosen. Fails where memory is refused.
fn chosen_outputs(alloc: Global, pair: &Pair<'_>) -> Result<Vec<bool>, AllocError>
    ensures { IfOk result (λ marks. length marks.items ≡ length pair.now.first.outputs) }
{
    let outputs = pair.first().outputs().len();
    let mut marks = Vec::with_capacity(alloc, outputs)?;
    for output in 0..outputs {
        marks.push(pair.is_chosen(output))?;
    }
    Ok(marks)
}

/// The steps of the chosen outputs. Fails where memory is refused.
fn roots_of(alloc: Global, steps: &Steps<'_>) -> Result<Vec<[u32; 2]>, AllocError> {
    let pair = steps.pair();
    let mut all = Vec::new(alloc);
    for output in 0..pair.first().outputs().len() {
        if pair.is_chosen(output) {
            all.push(steps.roots(output))?;
        }
    }
    Ok(all)
}

impl<'a> Locator<'a> {
    /// What `of` makes of steps, in a graph that has none yet. It stands apart for its proof's
    /// sake, since the graph is let go in each exit. Fails where memory is refused.
    fn within(
        alloc: Global,
        steps: Steps<'a>,
        outputs: &[bool],
        inputs: &[bool],
        sweep: &mut Sweep,
    ) -> Result<Locator<'a>, AllocError>
        requires { length outputs.now ≤ length steps.pair.first.outputs }
        ensures { IfOk result (λ locator. locator ≡ steps.entry) }
    {
        let asked = needed_within(alloc, &steps, outputs, CHARACTERS)?;
        let ignored = |_step: u32| {};
        let literals = literals(alloc, &steps, &asked, sweep, &ignored)?;
        let (second, end) = second_steps(steps.pair());
        let known = Known::of(alloc, sweep.graph(), &literals, second, end)?;
        let allowed = literals_where_allowed(alloc, &steps, &literals, inputs, sweep)?;
        let nodes = sweep.graph().len();
        let everywhere = Partners::of(alloc, literals, nodes, second, end)?;
        let where_allowed = Partners::of(alloc, allowed, nodes, second, end)?;
        let chosen = chosen_outputs(alloc, steps.pair())?;
        let marks = needed_within(alloc, &steps, &chosen, CHARACTERS)?;
        let covers = Covers::of(alloc, &steps, &marks)?;
        let users = Users::of(alloc, &steps, &marks)?;
        let depths = depths_of(alloc, &steps)?;
        let roots = roots_of(alloc, &steps)?;
        Ok(Locator {
            steps,
            everywhere,
            where_allowed,
            known,
            marks,
            covers,
            users,
            depths,
            outputs: roots,
        })
    }

    /// The steps of a pair, of which those that these outputs need enter a graph in which nodes
    /// that are found equal are one, within so many conflicts. `outputs` marks outputs by their
    /// positions in the first netlist. `inputs` are values of the first netlist's inputs that the
    /// assumption allows; others only mean that fewer steps have a partner. It takes time and
    /// memory in proportion to the rows of the steps' covers, for each instance of a model anew,
    /// and to the conflicts. Fails where memory is refused.
    pub fn of(
        alloc: Global,
        pair: &'a Pair<'a>,
        outputs: &[bool],
        inputs: &[bool],
        conflicts: u64,
    ) -> Result<Locator<'a>, AllocError>
        requires { length outputs.now ≤ length pair.now.first.outputs }
        ensures { IfOk result (λ locator. locator.pair ≡ pair.now) }
    {
        let mut sweep = Sweep::new(alloc, effort_for(conflicts))?;
        Locator::within(alloc, Steps::each(alloc, pair), outputs, inputs, &mut sweep)
    }

    /// Whether a step has a partner where the assumption holds, or its node is one of the other
    /// netlist too, or stands below one.
    pub(crate) fn is_known(&self, step: u32) -> bool {
        let is_second = step >= self.everywhere.second;
        self.where_allowed.has(step) || self.known.has(self.everywhere.literals(), step, is_second)
    }

    /// Whether all that a step uses is known in the other netlist.
    pub(crate) fn begins(&self, step: u32) -> bool {
        let mut begins = true;
        if step < self.steps.len() {
            let uses = self.steps.uses(step);
            for c in 0..uses.len() {
                begins &= self.is_known(uses.get(c));
            }
        }
        begins
    }

    /// Where the steps of the second netlist begin, and where they end.
    pub(crate) fn second_steps(&self) -> (u32, u32) {
        (self.everywhere.second, self.everywhere.end)
    }

    /// Whether a step has a partner, under all values or where the assumption holds.
    pub(crate) fn has_partner(&self, step: u32) -> bool {
        self.everywhere.has(step) || self.where_allowed.has(step)
    }

    /// A step of the other netlist with the same node, or `NONE`.
    pub(crate) fn other(&self, step: u32) -> u32 {
        let other = self.everywhere.other(step);
        if other == NONE {
            self.where_allowed.other(step)
        } else {
            other
        }
    }

    /// The node that a step has where the assumption holds, or without one under all values; `NONE`
    /// where it hasn't entered.
    pub(crate) fn node(&self, step: u32) -> u32 {
        let node = self.where_allowed.node(step);
        if node == NONE {
            self.everywhere.node(step)
        } else {
            node
        }
    }

    /// How many nodes there are.
    pub(crate) fn nodes(&self) -> usize {
        self.everywhere.nodes()
    }

    /// Another step as a partner of one, if it is known to be one.
    pub(crate) fn partner_among(&self, step: u32, other: u32) -> Option<Partner>
        ensures { IfSome result (IsPartner self.now.pair step) }
    {
        let everywhere = self.everywhere.partner_among(step, other);
        if everywhere.is_some() {
            return everywhere;
        }
        self.where_allowed.partner_among(step, other)
    }

    /// The partner of a step, if one is known: one that is equal under all values comes first.
    fn known_partner(&self, step: u32) -> Option<Partner>
        ensures { IfSome result (IsPartner self.now.pair step) }
    {
        let everywhere = self.everywhere.partner(step);
        if everywhere.is_some() {
            return everywhere;
        }
        self.where_allowed.partner(step)
    }

    /// The same, where it is in the other netlist.
    fn partner(&self, step: u32) -> Option<Partner>
        ensures partner { IfSome result (IsPartner self.now.pair step) }
        ensures apart { IfSome result (λ q. AreApart self.now.pair step q.step) }
    {
        let partner = self.known_partner(step)?;
        let (second, _) = second_steps(self.steps.pair());
        let is_first = step < second;
        if is_first == (partner.step < second) {
            return None;
        }
        Some(partner)
    }

    #[tactic(auto, using(crate::proofs::PlaceLaws::listing_begins, crate::proofs::PlaceLaws::listing_more, crate::proofs::PlaceLaws::listing_whole, crate::proofs::PlaceLaws::column_of))]
    /// The columns of a step with their values, where each step has one. Fails where memory is
    /// refused.
    fn columns(
        &self,
        alloc: Global,
        inputs: &[bool],
        values: &[bool],
        step: u32,
    ) -> Result<Vec<Column>, AllocError>
        requires step { step < steps_in self.now.pair }
        requires size { length values.now ≡ steps_in self.now.pair }
        requires values { AreValues self.now.pair (input_values self.now.pair inputs.now) values.now }
        requires uses { All (λ column. column < length values.now) (uses_of self.now step) }
        ensures { IfOk result (λ columns. AreColumns self.now.pair (input_values self.now.pair inputs.now) (uses_of self.now step) columns.items) }
    {
        // They are for the clauses alone, which say whose values these are.
        let _inputs = inputs;
        let uses = self.steps.uses(step);
        let mut columns = Vec::with_capacity(alloc, uses.len())?;
        for c in 0..uses.len() {
            let column = uses.get(c);
            let value = values[column as usize];
            let partner = self.partner(column);
            columns.push(Column {
                step: column,
                value,
                partner,
            })?;
        }
        Ok(columns)
    }

    #[tactic(auto, using(crate::proofs::ToldLaws::columns_there))]
    /// What is told of a step, without what is found by simulation, or none where there is no such
    /// step. Fails where memory is refused.
    fn place(
        &self,
        alloc: Global,
        inputs: &[bool],
        values: &[bool],
        suspect: &Suspect,
    ) -> Result<Option<Place>, AllocError>
        requires size { length values.now ≡ steps_in self.now.pair }
        requires values { AreValues self.now.pair (input_values self.now.pair inputs.now) values.now }
        ensures places { IfOk result (λ found. IfSome found (IsPlace self.now (input_values self.now.pair inputs.now))) }
        ensures told { suspect.now.step < steps_in self.now.pair → IfOk result (λ found. IsSome found) }
    {
        let step = suspect.step;
        if step >= self.steps.len() {
            return Ok(None);
        }
        let value = values[step as usize];
        let columns = self.columns(alloc, inputs, values, step)?;
        Ok(Some(Place {
            step,
            value,
            columns,
            mended: suspect.mended,
            torn: suspect.torn,
        }))
    }

    /// The places of these steps. Fails where memory is refused.
    fn places(
        &self,
        alloc: Global,
        inputs: &[bool],
        suspects: &[Suspect],
    ) -> Result<Vec<Place>, AllocError>
        ensures { IfOk result (λ each. All (IsPlace self.now (input_values self.now.pair inputs.now)) each.items) }
    {
        let values = values_under(alloc, &self.steps, inputs)?;
        let mut each = Vec::with_capacity(alloc, suspects.len())?;
        for suspect in suspects {
            if let Some(place) = self.place(alloc, inputs, &values, suspect)? {
                each.push(place)?;
            }
        }
        Ok(each)
    }

    #[tactic(auto, using(crate::proofs::PlaceLaws::located))]
    /// The places at which an output begins to differ, by its position in the first netlist, where
    /// the first netlist's inputs have these values, one for each; at most five in each netlist,
    /// first those of the second. What is told of a place is so under these values, and what is a
    /// partner is one under all that the assumption allows; that it is a place, and which comes
    /// first, is found by simulation. Fails where memory is refused.
    pub fn locate(
        &self,
        alloc: Global,
        output: usize,
        inputs: &[bool],
    ) -> Result<Places, AllocError>
        requires { output < length self.now.pair.first.outputs }
        ensures places { IfOk result (λ found. All (IsPlace self.now (input_values self.now.pair inputs.now)) found.each.items) }
        ensures mendings { IfOk result (λ found. length found.mendings.items ≡ length found.each.items) }
        ensures located { IfOk result (AreLocated self.now.pair inputs.now) }
    {
        let mut trial = Trial::of(alloc, self, self.steps.roots(output), inputs)?;
        let suspects = trial.ranked()?;
        let each = self.places(alloc, inputs, &suspects)?;
        let mendings = trial.mendings(&each)?;
        Ok(Places {
            each,
            mendings,
            differing: trial.differing(),
        })
    }
}
