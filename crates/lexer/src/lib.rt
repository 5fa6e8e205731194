// Page text to tokens, for programs that have a text and no lexer of their own.
//
// `lex` cuts a text into tokens whose bytes, joined in order, are the text again; none is replaced, and every one is
// sound on a sheet of that text. It claims nothing about any other lexer: docs/LEXER.md has the table of kinds.
#![tactic(auto)]

mod front;
pub mod lexing;

pub use lexing::{LexRefusal, lex};
