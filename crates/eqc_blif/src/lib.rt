//! Netlists in the Berkeley Logic Interchange Format (BLIF 1992): from the bytes of a text to its
//! library of models, or to the number of the line and the code of its first fault.
//!
//! What a text means is said in `specs/Lines.antt`, `specs/Words.antt` and `specs/Reading.antt`,
//! and what is at fault in one that is refused in `specs/Finding.antt`. Read the modules in this
//! order:
//!
//! - `reading`, the call; `library`, what it gives; `rule` and `refusal`, why it gives none
//! - in `text`: `lines`, how bytes become logical lines; `words`, their words; `near`, where both
//!   end
//! - `reader`, what was read so far, and one more line; in it `kind`, the statement that a line is,
//!   and `open_model`, a statement in a model
//! - in `model`: `declarations`, what a model declares; `cover` and `rows`, a cover and what its
//!   rows mean; `instance`
//! - `name`, how one name is stored, and `key` and `pieces`, how it is looked up; `names`, several,
//!   with a `list` in it, and `many` where they are looked up; `sparing`, how lists grow
//! - `explanation`, what a refusal is about; `finding`, what is named; in it `refused_line`, the
//!   line of a refusal, and `line_findings` and `bad_byte`, what is looked for there
//! - `laws`, facts about the definitions, as functions without a body
#![tactic(auto)]

mod explanation;
mod finding;
mod laws;
mod library;
mod model;
mod names;
mod reader;
mod reading;
mod sparing;
mod text;

pub use eqc_netlist::text_rule::{RULES, Rule};
pub use eqc_netlist::{
    Key, Name, Refusal, Rows, allows, cover_value, is_on, is_on_set, row_matches, write_pieces,
};
pub use explanation::explain;
pub use finding::Finding;
pub use laws::{
    blank_lines_only_renumber, first_fault_is_one, first_fault_stays, libraries_have_no_name_twice,
    line_numbers_rise, lines_are_cut_again, plain_texts_are_read_back, rows_fit_their_covers,
    what_changes_nothing,
};
pub use library::Library;
pub use model::cover::Cover;
pub use model::instance::Instance;
pub use reading::{DEFAULT_BYTES, read, read_within};
