// The look at every token by which a sheet is known to be sound.
ghost use Rattle.std.specs.Prelude.{◌≡◌, ◌≤◌};
ghost use Rattle.sheet.specs.Kinds.{number_of, word};
ghost use Rattle.sheet.specs.Sound.{text_of, is_kind, all_digits, one_byte, just_byte, bytes_fit, flag_fits, sound_token, first_unsound};

use crate::kind::Kind;
use crate::records::Token;

// The page and the replacement text go side by side, and not as one struct: that the bytes of a token are a part of one
// of two slices lent to a call is a form that the project asks for.

/// The text that a token's bytes stand in.
pub fn text_of<'a>(page: &'a [u8], replacement: &'a [u8], replaced: bool) -> &'a [u8]
    ensures { result.now ≡ text_of page.now replacement.now replaced }
{
    if replaced { replacement } else { page }
}

/// The kind of a number that has one.
pub fn kind_of(number: u8) -> Kind
    requires { number ≤ word }
    ensures { number_of result ≡ number }
{
    Kind::try_from(number).unwrap()
}

fn is_kind(kind: Kind) -> bool
    ensures { result ≡ is_kind (number_of kind) }
{
    kind != Kind::Discard && kind != Kind::Eof
}

// Crate `document` has this test too, in a line of its own: neither crate rests on the other.
fn all_digits(bytes: &[u8]) -> bool
    ensures { result ≡ all_digits bytes.now }
{
    bytes.iter().all(u8::is_ascii_digit)
}

/// The byte of a kind that is just one byte.
fn one_byte(kind: Kind) -> Option<u8>
    ensures { result ≡ one_byte (number_of kind) }
{
    match kind {
        Kind::Colon => Some(b':'),
        Kind::SemiColon => Some(b';'),
        Kind::Comma => Some(b','),
        Kind::Pipe => Some(b'|'),
        Kind::DoubleQuote => Some(b'"'),
        Kind::Backslash => Some(b'\\'),
        Kind::Newline => Some(b'\n'),
        _ => None,
    }
}

fn just_byte(byte: u8, bytes: &[u8]) -> bool
    ensures { result ≡ just_byte byte bytes.now }
{
    matches!(bytes, [only] if *only == byte)
}

fn bytes_fit(kind: Kind, bytes: &[u8]) -> bool
    ensures { result ≡ bytes_fit (number_of kind) bytes.now }
{
    if kind == Kind::Digits {
        return all_digits(bytes);
    }
    one_byte(kind).is_none_or(|byte| just_byte(byte, bytes))
}

fn flag_fits(kind: Kind, replaced: bool) -> bool
    ensures { result ≡ flag_fits (number_of kind) replaced }
{
    !(kind == Kind::Newline && replaced)
}

fn is_sound(page: &[u8], replacement: &[u8], token: Token) -> bool
    ensures { result ≡ sound_token page.now replacement.now token }
{
    let Ok(kind) = Kind::try_from(token.kind) else {
        return false;
    };
    if !is_kind(kind) || token.length == 0 {
        return false;
    }
    let text = text_of(page, replacement, token.replaced);
    let start = token.start as usize;
    let end = start + token.length as usize;
    if end > text.len() || !flag_fits(kind, token.replaced) {
        return false;
    }
    bytes_fit(kind, &text[start..end])
}

/// The number of the first token that is not sound.
pub fn first_unsound(page: &[u8], replacement: &[u8], tokens: &[Token]) -> Option<usize>
    ensures { result ≡ first_unsound page.now replacement.now tokens.now }
{
    tokens
        .iter()
        .position(|token| !is_sound(page, replacement, *token))
}
