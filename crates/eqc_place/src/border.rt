//! Up to where two netlists are known to be equal: the nearest signals below some outputs that have
//! partners.
ghost use Rattle.std.specs.Prelude.{◌≤◌, All, length, IfOk, IfSome, OnOk};
ghost use Rattle.eqc_place.specs.Places.{IsMeeting};

use crate::locating::Locator;
use crate::partner::{NONE, second_steps};
use crate::place::{Border, Meeting};
use eqc_build::{StepDriver, Steps};
use std::alloc::{AllocError, Global};

/// The node of constants.
const CONSTANT: u32 = 0;

/// Steps that were reached from outputs back, the nearest first.
#[derive(Drop)]
struct Reached {
    order: Vec<u32>,
    is_reached: Vec<bool>,
}

impl Reached {
    /// None of so many steps. Fails where memory is refused.
    fn none(alloc: Global, steps: u32) -> Result<Reached, AllocError> {
        Ok(Reached {
            order: Vec::new(alloc),
            is_reached: vec![in alloc; false; steps as usize]?,
        })
    }

    /// Reaches a step, if it wasn't yet. Fails where memory is refused.
    fn reach(&mut self, step: u32) -> Result<(), AllocError> {
        let at = step as usize;
        if at < self.is_reached.len() && !self.is_reached[at] {
            self.is_reached[at] = true;
            self.order.push(step)?;
        }
        Ok(())
    }

    /// Reaches all that a step uses. Fails where memory is refused.
    fn reach_below(&mut self, steps: &Steps<'_>, step: u32) -> Result<(), AllocError> {
        if step >= steps.len() {
            return Ok(());
        }
        let uses = steps.uses(step);
        for c in 0..uses.len() {
            self.reach(uses.get(c))?;
        }
        Ok(())
    }
}

/// For each node the first step of each netlist that was reached and has a literal of it, and these
/// nodes in their order, without those of inputs, which are counted, and of constants.
#[derive(Drop)]
struct Tops {
    first: Vec<u32>,
    second: Vec<u32>,
    order: Vec<u32>,
    /// Which nodes are inputs, and how many of them were reached.
    is_input: Vec<bool>,
    inputs: usize,
}

/// The step of a node, or `NONE`.
fn top_of(tops: &[u32], node: u32) -> u32 {
    tops.get(node as usize).copied().unwrap_or(NONE)
}

/// Notes a step of a node, if there is none yet.
fn note_top(tops: &mut Vec<u32>, node: u32, step: u32) {
    let at = node as usize;
    if at < tops.len() && tops[at] == NONE {
        tops[at] = step;
    }
}

impl Tops {
    /// None yet of the nodes, of which these are inputs. Fails where memory is refused.
    fn none(alloc: Global, is_input: Vec<bool>) -> Result<Tops, AllocError> {
        Ok(Tops {
            first: vec![in alloc; NONE; is_input.len()]?,
            second: vec![in alloc; NONE; is_input.len()]?,
            order: Vec::new(alloc),
            is_input,
            inputs: 0,
        })
    }

    /// Takes a node that wasn't reached before. Fails where memory is refused.
    fn take(&mut self, node: u32) -> Result<(), AllocError> {
        match self.is_input.get(node as usize).copied() {
            Some(true) => {
                self.inputs = self.inputs.saturating_add(1);
                Ok(())
            }
            Some(false) if node != CONSTANT => {
                self.order.push(node)?;
                Ok(())
            }
            _ => Ok(()),
        }
    }

    /// Notes a step of a node, if there is none of its netlist yet. Fails where memory is refused.
    fn note(&mut self, node: u32, step: u32, is_second: bool) -> Result<(), AllocError> {
        if top_of(&self.first, node) == NONE && top_of(&self.second, node) == NONE {
            self.take(node)?;
        }
        if is_second {
            note_top(&mut self.second, node, step);
        } else {
            note_top(&mut self.first, node, step);
        }
        Ok(())
    }
}

impl<'a> Locator<'a> {
    /// Whether the two steps of an output were found equal.
    fn is_equal(&self, roots: [u32; 2]) -> bool {
        match self.partner_among(roots[0], roots[1]) {
            Some(partner) => !partner.is_opposite,
            None => false,
        }
    }

    /// Reaches the two steps of each of these outputs that wasn't found equal, and tells how many
    /// of them there are. Fails where memory is refused.
    fn reach_outputs(&self, outputs: &[bool], reached: &mut Reached) -> Result<usize, AllocError>
        requires { length outputs.now ≤ length self.now.pair.first.outputs }
    {
        let mut count = 0usize;
        for output in 0..outputs.len() {
            if !outputs[output] {
                continue;
            }
            let roots = self.steps.roots(output);
            if !self.is_equal(roots) {
                count = count.saturating_add(1);
                reached.reach(roots[0])?;
                reached.reach(roots[1])?;
            }
        }
        Ok(count)
    }

    /// All that is reached from these outputs, where no way goes on from a step with a partner;
    /// those are noted. Fails where memory is refused.
    fn reach_all(&self, reached: &mut Reached, tops: &mut Tops) -> Result<(), AllocError> {
        let (second, _) = self.second_steps();
        for k in 0..self.steps.len() {
            let Some(step) = reached.order.get(k as usize).copied() else {
                return Ok(());
            };
            if self.has_partner(step) {
                tops.note(self.node(step), step, step >= second)?;
            } else {
                reached.reach_below(&self.steps, step)?;
            }
        }
        Ok(())
    }

    /// The steps of each netlist for a node, of which at least one was reached.
    fn ends(&self, tops: &Tops, node: u32) -> (u32, u32) {
        let first = top_of(&tops.first, node);
        let second = top_of(&tops.second, node);
        if first == NONE {
            (self.other(second), second)
        } else if second == NONE {
            (first, self.other(first))
        } else {
            (first, second)
        }
    }

    /// Two steps as a meeting, if one is a partner of the other.
    fn meeting(&self, ends: (u32, u32)) -> Option<Meeting>
        ensures { IfSome result (IsMeeting self.now.pair) }
    {
        let (step, other) = ends;
        let partner = self.partner_among(step, other)?;
        let (second, _) = second_steps(self.steps.pair());
        if step >= second || partner.step < second {
            return None;
        }
        Some(Meeting { step, partner })
    }

    /// Puts the meeting of a node behind others, if it is one. Fails where memory is refused.
    fn put_meeting(
        &self,
        tops: &Tops,
        node: u32,
        meetings: &mut Vec<Meeting>,
    ) -> Result<(), AllocError>
        ensures { OnOk result (All (IsMeeting self.now.pair) meetings.old.items → All (IsMeeting self.now.pair) meetings.new.items) }
    {
        match self.meeting(self.ends(tops, node)) {
            Some(meeting) => {
                meetings.push(meeting)?;
                Ok(())
            }
            None => Ok(()),
        }
    }

    /// The meetings of the nodes that were reached. Fails where memory is refused.
    fn meetings(&self, alloc: Global, tops: &Tops) -> Result<Vec<Meeting>, AllocError>
        ensures { IfOk result (λ meetings. All (IsMeeting self.now.pair) meetings.items) }
    {
        let mut meetings = Vec::new(alloc);
        for node in &tops.order {
            self.put_meeting(tops, *node, &mut meetings)?;
        }
        Ok(meetings)
    }

    /// Marks the nodes of inputs. Fails where memory is refused.
    fn input_nodes(&self, alloc: Global) -> Result<Vec<bool>, AllocError> {
        let mut marks = vec![in alloc; false; self.nodes()]?;
        for step in 0..self.steps.len() {
            if matches!(self.steps.driver(step), StepDriver::Variable(_)) {
                let node = self.node(step) as usize;
                if node < marks.len() {
                    marks[node] = true;
                }
            }
        }
        Ok(marks)
    }

    /// Up to where the two netlists are known to be equal below these outputs, which are marked by
    /// their positions in the first netlist: signals that have partners, and that are reached from
    /// an output back by signals without one. An output that was itself found equal counts for
    /// none. Which signals are told is found by the sweep alone; that they are equal is proved.
    /// Constants are left out. It takes time in proportion to the steps. Fails where memory is
    /// refused.
    pub fn border(&self, alloc: Global, outputs: &[bool]) -> Result<Border, AllocError>
        requires { length outputs.now ≤ length self.now.pair.first.outputs }
        ensures { IfOk result (λ border. All (IsMeeting self.now.pair) border.meetings.items) }
    {
        let mut reached = Reached::none(alloc, self.steps.len())?;
        let mut tops = Tops::none(alloc, self.input_nodes(alloc)?)?;
        let outputs = self.reach_outputs(outputs, &mut reached)?;
        self.reach_all(&mut reached, &mut tops)?;
        let meetings = self.meetings(alloc, &tops)?;
        Ok(Border {
            meetings,
            inputs: tops.inputs,
            outputs,
        })
    }
}
