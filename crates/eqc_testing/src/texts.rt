//! Texts that several tests begin with, in which `;` stands for LF, and what they are made of.

use std::alloc::{AllocError, Global};

/// Conjunctions, one by its rows for 1 and one by those for 0.
pub const EQUAL: &str =
    ".model f;.inputs x y;.outputs z;.names x y z;11 1;.end;.model g;.inputs x y;.outputs z;.names x y z;0- 0;-0 0;.end;";

/// A conjunction and a disjunction.
pub const UNEQUAL: &str =
    ".model f;.inputs x y;.outputs z;.names x y z;11 1;.end;.model g;.inputs x y;.outputs z;.names x y z;1- 1;-1 1;.end;";

/// A constant 0 and an exclusive or.
pub const XOR: &str =
    ".model f;.inputs x y;.outputs z;.names z;.end;.model g;.inputs x y;.outputs z;.names x y z;10 1;01 1;.end;";

/// The same inputs in two orders.
pub const PERMUTED: &str = ".model f;.inputs a b;.end;.model g;.inputs b a;.end;";

/// The report on the texts `UNEQUAL` and `XOR`.
pub const DIFFERENCE: &str = "differs at z;x=0;y=1;first=0;second=1;";

/// The bytes of a text.
pub fn lines(alloc: Global, text: &str) -> Result<Vec<u8>, AllocError> {
    let mut bytes = Vec::with_capacity(alloc, text.len())?;
    for byte in text.as_bytes() {
        bytes.push(if *byte == b';' { b'\n' } else { *byte })?;
    }
    Ok(bytes)
}

/// Whether these are the bytes of a text.
pub fn is_text(bytes: &[u8], text: &str) -> bool {
    if bytes.len() != text.len() {
        return false;
    }
    for (byte, shown) in bytes.iter().zip(text.as_bytes()) {
        let meant = if *shown == b';' { b'\n' } else { *shown };
        if *byte != meant {
            return false;
        }
    }
    true
}

/// The names of so many inputs, each behind a blank.
pub fn input_names(alloc: Global, count: u32) -> Result<String, AllocError> {
    let mut names = String::new(alloc);
    for k in 0..count {
        let name = format!(in alloc; " i{k}")?;
        names.push_str(&name)?;
    }
    Ok(names)
}

/// So many models, `m1` and those that follow it, each but the head of the last with two instances
/// of the next one.
pub fn doubling(alloc: Global, models: u32) -> Result<String, AllocError> {
    let mut text = String::new(alloc);
    for k in 1..models {
        let next = k + 1;
        let model = format!(in alloc; ".model m{k};.subckt m{next};.subckt m{next};.end;")?;
        text.push_str(&model)?;
    }
    let last = format!(in alloc; ".model m{models};")?;
    text.push_str(&last)?;
    Ok(text)
}
