//! What `--version` shows: the program, the toolchain that proves and builds it, and what is
//! proved.

/// The program's number; the toolchain's line, as `rt version` prints it (`scripts/dev/toolchain`
/// compares the two); and the headline of what is proved.
pub const VERSION: &str = "\
0.1
proved and built with rattle-kit-13f logic dac8208d650f15bf
proved: a verdict is right for every assignment of the inputs, and a counterexample is the least one";
