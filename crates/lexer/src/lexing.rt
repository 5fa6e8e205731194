// A whole text, token by token.
ghost use Rattle.std.specs.Prelude.{◌≡◌, ◌-◌, ◌<◌, ◌≤◌, ◌↔◌, length, OnOk, IfOk, IsErrOf};
ghost use Rattle.std.specs.Iterator.{at_most};
ghost use Rattle.sheet.specs.Limits.{max_text};
ghost use Rattle.lexer.specs.Lexed.{Lexed};
ghost use Rattle.lexer.specs.declared.lexing.LexRefusal.TheVariants.{NoMemory};

use crate::front::front_token;
use sheet::Token;
use sheet::limits::MAX_TEXT;
use std::alloc::{AllocError, Global};
use std::error::Error;
use std::fmt;

/// Why a text is not cut.
#[derive(Clone, Copy, Debug, PartialEq, Eq, Hash)]
pub enum LexRefusal {
    /// It has more bytes than a page of a sheet may have; nothing was built.
    TextTooLong,
    /// There is no memory for its tokens.
    NoMemory,
}

impl fmt::Display for LexRefusal {
    fn fmt<W: fmt::Write>(&self, f: &mut fmt::Formatter<W>) -> fmt::Result {
        f.write_str(match self {
            LexRefusal::TextTooLong => "the text has more than 1,048,576 bytes",
            LexRefusal::NoMemory => "there is no memory for the tokens",
        })
    }
}

impl Error for LexRefusal {}

impl From<AllocError> for LexRefusal {
    ghost from_gives = { λ _ why. why ≡ NoMemory };

    fn from(_error: AllocError) -> LexRefusal {
        Self::NoMemory
    }
}

/// The tokens of a text from a place on.
#[derive(Drop)]
struct Tokens<'a> {
    text: &'a [u8],
    at: usize,
    ghost short: { length text.now ≤ max_text },
}

impl<'a> Iterator for Tokens<'a> {
    ghost use Rattle.lexer.specs.Tokens.{TakesToken};

    type Item = Token;

    ghost next_gives = { TakesToken };

    ghost remaining = { λ tokens. at_most (length tokens.text.now - tokens.at) };

    fn next(&mut self) -> Option<Token> {
        if self.at >= self.text.len() {
            return None;
        }
        let token = front_token(self.text, self.at);
        self.at += token.length as usize;
        Some(token)
    }
}

/// The tokens of a text. A text too long for a sheet is refused before anything is built.
pub fn lex(heap: Global, text: &[u8]) -> Result<Vec<Token>, LexRefusal>
    ensures lexed { IfOk result (λ tokens. Lexed text.now tokens.items) }
    ensures short { OnOk result (length text.now ≤ max_text) }
    ensures too_long { IsErrOf result LexRefusal.TextTooLong ↔ (max_text < length text.now) }
    ensures no_memory { IsErrOf result LexRefusal.NoMemory → length text.now ≤ max_text }
{
    if text.len() > MAX_TEXT {
        return Err(LexRefusal::TextTooLong);
    }
    Ok(Tokens { text, at: 0 }.collect(heap)?)
}
