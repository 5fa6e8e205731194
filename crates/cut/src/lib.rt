// Raw cells: a page's tokens cut into cells.
#![tactic(auto)]

mod blank_line;
mod blanks;
pub mod csv;
pub mod cutter;
pub mod dsv;
pub mod examples;
mod fields;
mod machine;
pub mod notes;
pub mod prefix;
mod reader;
mod scan;
mod separator;
pub mod types;

pub use cutter::Cutter;
pub use notes::NoteKind;
pub use types::{Cut, CutRefusal, CutterRefusal, Note};
