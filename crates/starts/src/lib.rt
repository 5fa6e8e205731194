// Where a cell starts: a separator, or a cell specifier and then a separator.
//
// `read_start` reads the start of a cell at a place of a sheet. A specifier says how often a cell stands (`3*`), how
// many columns and rows it spans (`2.3+`), how its content is aligned (`^.>`) and its style (`s`), in that order.
#![tactic(auto)]

mod cursor;
mod forms;
mod number;
mod parts;
pub mod specifier;
mod start;

pub use specifier::{Horizontal, Specifier, Start, Vertical};
pub use start::read_start;
pub use styles::Style;
