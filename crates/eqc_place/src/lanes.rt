//! Outputs that differ under assignments of their own, simulated together: which of them wouldn't
//! if one step had the opposite value.
ghost use Rattle.std.specs.Prelude.{◌≡◌, ◌<◌, length, IfOk};

use crate::locating::Locator;
use crate::place::Places;
use crate::told::variable_value;
use crate::trial::scene;
use crate::turning::Turning;
use crate::words::round_words;
use std::alloc::{AllocError, Global};

/// How many outputs are simulated together.
const LANES: usize = 64;

/// At most 64 outputs, each with an assignment under which it differs. Nothing is believed of them.
#[derive(Drop)]
pub struct Lanes {
    roots: Vec<[u32; 2]>,
    /// The values of each variable, a bit for each output.
    inputs: Vec<u64>,
}

impl Lanes {
    /// None yet.
    pub fn new(alloc: Global) -> Lanes {
        Lanes {
            roots: Vec::new(alloc),
            inputs: Vec::new(alloc),
        }
    }

    /// Adds an output by its position in the first netlist, whose inputs have these values, one for
    /// each. Tells whether it was added: after 64 of them none is. Fails where memory is refused.
    pub fn add(
        &mut self,
        locator: &Locator<'_>,
        output: usize,
        values: &[bool],
    ) -> Result<bool, AllocError>
        requires { output < length locator.now.pair.first.outputs }
    {
        let lane = self.roots.len();
        if lane >= LANES {
            return Ok(false);
        }
        let pair = locator.steps.pair();
        for variable in 0..pair.order().len() {
            if variable >= self.inputs.len() {
                self.inputs.push(0)?;
            }
            if variable < self.inputs.len() && variable_value(pair, values, variable as u16) {
                self.inputs[variable] |= 1 << (lane % 64);
            }
        }
        self.roots.push(locator.steps.roots(output))?;
        Ok(true)
    }

    /// For each of these places which of the outputs wouldn't differ if it had the opposite value,
    /// as the bits of their numbers. This is found by simulation. Fails where memory is refused.
    pub fn mended(
        &self,
        alloc: Global,
        locator: &Locator<'_>,
        places: &Places,
    ) -> Result<Vec<u64>, AllocError>
        ensures { IfOk result (λ each. length each.items ≡ length places.now.each.items) }
    {
        let words = round_words(alloc, &locator.covers, locator.steps.len(), &self.inputs)?;
        let scene = scene(locator, [0, 0]);
        let mut turning = Turning::of(alloc, scene, words)?;
        let mut each = Vec::with_capacity(alloc, places.each.len())?;
        for k in 0..places.each.len() {
            let mended = turning.mended_each(scene, places.each[k].step, &self.roots)?;
            each.push(mended)?;
        }
        Ok(each)
    }
}
