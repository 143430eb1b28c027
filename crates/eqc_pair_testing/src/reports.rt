//! The words of a report.

use eqc_check::{Report, write_report};
use std::alloc::{AllocError, Global};

/// What is written of a report.
pub fn report_word(alloc: Global, report: &Report) -> Result<String, AllocError> {
    let mut out = Vec::new(alloc);
    if write_report(alloc, report, &mut out).is_err() {
        return String::from_str(alloc, "nothing written");
    }
    let mut word = String::new(alloc);
    for byte in &out {
        word.push(if *byte == b'\n' { ';' } else { *byte as char })?;
    }
    Ok(word)
}
