//! How high steps stand.

use eqc_build::Steps;
use std::alloc::{AllocError, Global};

/// For each step how many stand below it, at most, one upon another. Fails where memory is refused.
pub(crate) fn depths_of(alloc: Global, steps: &Steps<'_>) -> Result<Vec<u32>, AllocError> {
    let count = steps.len();
    let mut depths = Vec::with_capacity(alloc, count as usize)?;
    for step in 0..count {
        let uses = steps.uses(step);
        let mut depth = 0u32;
        for c in 0..uses.len() {
            let column = depths.get(uses.get(c) as usize).copied().unwrap_or(0u32);
            depth = depth.max(column.saturating_add(1));
        }
        depths.push(depth)?;
    }
    Ok(depths)
}
