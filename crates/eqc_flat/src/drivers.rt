//! How the drivers of all flat signals are found.

pub(crate) mod driver_table;
pub(crate) mod row_table;
