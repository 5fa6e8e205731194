// Sheets: a page cut into tokens, checked once, then read without doubt.
//
// A sheet is a page, a replacement text and a list of tokens, all lent. `Sheet::new` looks at every token once and
// refuses what is not sound, and `Sheet::load` asks it; there is no other way to have one of a text, so whoever holds a
// sheet knows that each of its tokens lies inside its text and is what its kind says. Nothing here allocates, and nothing is copied.
#![tactic(auto)]

pub mod kind;
pub mod limits;
pub mod page;
pub mod records;
pub mod refusal;
pub mod seen;

pub use kind::Kind;
pub use page::Sheet;
pub use records::{Piece, Place, Position, Token};
pub use refusal::SheetRefusal;
pub use seen::Seen;

#[cfg(test)]
mod tests;
