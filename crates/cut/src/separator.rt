// What separates the cells of CSV and DSV.
ghost use Rattle.std.specs.Prelude.{◌≡◌, ◌<◌, length, if◌then◌else◌, Some, None, IfSome, ◌==◌};
ghost use Rattle.std.specs.List.{position};
ghost use Rattle.sheet.specs.Left.{seen_at};
ghost use Rattle.cut.specs.Dsv.{split_role};
ghost use Rattle.cut.specs.Separators.{SeparatorFrom, separates, split_at, splits, is_separator, separator_of};

use crate::machine::{Role, State};
use crate::types::{CutterRefusal, Separator};
use sheet::{Kind, Seen};

/// Whether a cutter can have this separator.
fn is_separator_byte(byte: u8) -> bool
    ensures { result ≡ is_separator byte }
{
    byte.is_ascii_graphic() && byte != b'"' && byte != b'\\'
}

/// Where a byte first stands.
// A function of its own: `split_at` with the chain inside was tried, and the check alone did not close the proof.
fn first_at(bytes: &[u8], byte: u8) -> Option<usize>
    ensures { result ≡ position (λ b. b == byte) bytes.now }
{
    bytes.iter().position(|b| *b == byte)
}

impl Separator {
    // No `From`: the `TryFrom` below says which bytes a cutter can have, and a type has one of the two.

    /// The separator of a byte.
    pub(crate) fn of(byte: u8) -> Separator
        ensures { result ≡ separator_of byte }
    {
        match byte {
            b':' => Separator::Kind(Kind::Colon),
            b';' => Separator::Kind(Kind::SemiColon),
            b'|' => Separator::Kind(Kind::Pipe),
            b',' => Separator::Kind(Kind::Comma),
            _ => Separator::Byte(byte),
        }
    }

    /// Whether what is seen is a separator.
    pub(crate) fn separates(self, seen: Seen<'_>) -> bool
        ensures { result ≡ separates self (seen_at seen.entry) }
    {
        match self {
            Separator::Kind(kind) => seen.is(kind),
            Separator::Byte(byte) => !seen.replaced && seen.bytes[0] == byte,
        }
    }

    /// Where what is seen is split: an unreplaced Word, before the first separator byte in it.
    pub(crate) fn split_at(self, seen: Seen<'_>) -> Option<usize>
        ensures at { result ≡ (if splits self (seen_at seen.entry) then Some (split_at self (seen_at seen.entry)) else None) }
        ensures within { IfSome result (λ n. n < length seen.entry.bytes.now) }
    {
        match self {
            Separator::Byte(byte) if seen.is(Kind::Word) => first_at(seen.bytes, byte),
            _ => None,
        }
    }

    /// What a token does in a field where nothing else is said of it: a Word is split before the separator byte, which
    /// is dropped; any other token is taken.
    pub(crate) fn split_role(self, seen: Seen<'_>) -> Role
        ensures { result ≡ split_role self (seen_at seen.entry) }
    {
        match self.split_at(seen) {
            Some(n) => Role::Splits(n, n + 1),
            None => Role::Takes(State::Plain, false),
        }
    }
}

impl TryFrom<u8> for Separator {
    type Error = CutterRefusal;

    ghost try_from_gives = { SeparatorFrom };

    fn try_from(byte: u8) -> Result<Separator, CutterRefusal> {
        if !is_separator_byte(byte) {
            return Err(CutterRefusal::BadSeparator);
        }
        Ok(Separator::of(byte))
    }
}
