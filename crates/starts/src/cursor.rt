// The whole tokens of a sheet from a number on.
ghost use Rattle.std.specs.Prelude.{◌≡◌, ◌-◌, length, drop};
ghost use Rattle.sheet.specs.View.{view};
ghost use Rattle.starts.specs.Parts.{number_at};
ghost use Rattle.starts.specs.Reads.{here};

use crate::number::small_number;
use sheet::{Place, Sheet, Token};

/// Where reading stands among the whole tokens of a sheet: in front of the one of a number.
#[derive(Clone, Copy)]
pub struct Cursor<'s, 'a> {
    pub sheet: &'s Sheet<'a>,
    pub at: usize,
}

impl<'s, 'a> Cursor<'s, 'a> {
    /// The tokens from here on.
    pub fn tokens(self) -> &'a [Token]
        ensures { result.now ≡ drop self.entry.at (view self.entry.sheet.now).tokens }
    {
        self.sheet.tokens().get(self.at..).unwrap_or(&[])
    }

    /// The number of the token that the last ones of the sheet begin with.
    pub fn number_of(self, rest: &[Token]) -> usize
        ensures { result ≡ length (view self.entry.sheet.now).tokens - length rest.now }
    {
        self.sheet.tokens().len().saturating_sub(rest.len())
    }

    /// The number that the token here writes, or `None` above 255.
    pub fn digits(self) -> Option<u8>
        ensures { result ≡ number_at 0 (here self.entry) }
    {
        let seen = self.sheet.see(Place::front(self.at))?;
        small_number(seen.bytes)
    }
}
