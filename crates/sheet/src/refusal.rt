// Why a sheet is refused. specs/Refusals.antt has the number and the values of each case.
ghost use Rattle.std.specs.Prelude.{◌≡◌};
ghost use Rattle.sheet.specs.Refusals.{told};

use std::error::Error;
use std::fmt;

/// Why a page, a replacement text and tokens make no sheet.
#[derive(Clone, Copy, Debug, PartialEq, Eq, Hash)]
pub enum SheetRefusal {
    /// 10: one of the two texts has more than `MAX_TEXT` bytes.
    TextTooLong,
    /// 11: there are more than `MAX_TOKENS` tokens.
    TooManyTokens,
    /// 12: a token is not sound; this is the number of the first such.
    UnsoundToken { token: usize },
}

impl SheetRefusal {
    /// The refusal's number: 10, 11 or 12.
    pub fn number(self) -> u8
        ensures { result ≡ (told self).number }
    {
        match self {
            SheetRefusal::TextTooLong => 10,
            SheetRefusal::TooManyTokens => 11,
            SheetRefusal::UnsoundToken { token: _ } => 12,
        }
    }
}

impl fmt::Display for SheetRefusal {
    fn fmt<W: fmt::Write>(&self, f: &mut fmt::Formatter<W>) -> fmt::Result {
        match self {
            SheetRefusal::TextTooLong => f.write_str("a text has more than 1,048,576 bytes"),
            SheetRefusal::TooManyTokens => f.write_str("there are more than 262,144 tokens"),
            SheetRefusal::UnsoundToken { token } => write!(
                f,
                "token {token} is not what its kind says"
            ),
        }
    }
}

impl Error for SheetRefusal {}
