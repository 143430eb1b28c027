//! The bytes of a text: its logical lines, and the words of a line.
pub(crate) mod lines;
pub(crate) mod near;
pub(crate) mod words;
