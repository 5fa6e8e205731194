// The token at the front of a text.
ghost use Rattle.std.specs.Prelude.{◌≡◌, ◌+◌, ◌^◌, ◌<◌, ◌≤◌, ◌==◌, false, length, drop};
ghost use Rattle.sheet.specs.Kinds.{number_of};
ghost use Rattle.sheet.specs.Limits.{max_text};
ghost use Rattle.lexer.specs.Kinds.{kind_of, joins};
ghost use Rattle.lexer.specs.Front.{is_at, run, between, callout, front};

use sheet::{Kind, Token};

/// The kind of a token that begins with this byte, but for callouts.
pub fn kind_of(byte: u8) -> Kind
    ensures { number_of result ≡ kind_of byte }
{
    match byte {
        b'\n' => Kind::Newline,
        b' ' | b'\t' | b'\r' => Kind::Whitespace,
        b'0'..=b'9' => Kind::Digits,
        b'A'..=b'Z' | b'a'..=b'z' | 0x80..=0xff => Kind::Word,
        b'&' => Kind::Ampersand,
        b'`' => Kind::Backtick,
        b'\\' => Kind::Backslash,
        b'!' => Kind::Bang,
        b'^' => Kind::Caret,
        b'}' => Kind::CloseBrace,
        b']' => Kind::CloseBracket,
        b')' => Kind::CloseParens,
        b':' => Kind::Colon,
        b',' => Kind::Comma,
        b'-' => Kind::Dashes,
        b'"' => Kind::DoubleQuote,
        b'.' => Kind::Dots,
        b'=' => Kind::EqualSigns,
        b'/' => Kind::ForwardSlashes,
        b'>' => Kind::GreaterThan,
        b'#' => Kind::Hash,
        b'<' => Kind::LessThan,
        b'{' => Kind::OpenBrace,
        b'[' => Kind::OpenBracket,
        b'(' => Kind::OpenParens,
        b'%' => Kind::Percent,
        b'|' => Kind::Pipe,
        b'+' => Kind::Plus,
        b'?' => Kind::QuestionMark,
        b';' => Kind::SemiColon,
        b'\'' => Kind::SingleQuote,
        b'*' => Kind::Star,
        b'~' => Kind::Tilde,
        b'_' => Kind::Underscore,
        _ => Kind::Punctuation,
    }
}

/// Whether a token of this kind is a run of bytes.
fn is_run(kind: Kind) -> bool
    ensures { result ≡ joins (number_of kind) }
{
    matches!(
        kind,
        Kind::Whitespace
            | Kind::Digits
            | Kind::Word
            | Kind::Dots
            | Kind::Dashes
            | Kind::EqualSigns
            | Kind::ForwardSlashes
            | Kind::Plus
            | Kind::OpenParens
            | Kind::CloseParens
    )
}

/// Whether a byte stands at a place.
fn is_at(bytes: &[u8], place: usize, byte: u8) -> bool
    ensures { result ≡ is_at bytes.now place byte }
{
    bytes.get(place) == Some(&byte)
}

/// Whether a byte is of a kind.
fn is_of(byte: u8, kind: Kind) -> bool
    ensures { result ≡ (kind_of byte == number_of kind) }
{
    kind_of(byte) == kind
}

/// How many bytes at the front are of a kind.
fn run_length(kind: Kind, bytes: &[u8]) -> usize
    ensures value { result ≡ run (number_of kind) bytes.now }
    ensures bound { result ≤ length bytes.now }
{
    bytes.iter().take_while(|byte| is_of(**byte, kind)).count()
}

/// How many bytes a callout has behind its opening bracket and before the closing one.
fn between_brackets(bytes: &[u8]) -> usize
    ensures value { result ≡ between bytes.now }
    ensures bound { result ≤ length bytes.now }
{
    if is_at(bytes, 0, b'.') {
        1
    } else {
        run_length(Kind::Digits, bytes)
    }
}

/// How many bytes a callout at the front has, if there is one.
fn callout_length(bytes: &[u8]) -> Option<usize>
    ensures { result ≡ callout bytes.now }
{
    let inside = bytes.strip_prefix(b"<")?;
    let inner = between_brackets(inside);
    (inner > 0 && is_at(inside, inner, b'>')).then_some(inner + 2)
}

/// The token at the front of what is left of a text from a place on.
pub fn front_token(text: &[u8], at: usize) -> Token
    requires inside { at < length text.now }
    requires short { length text.now ≤ max_text }
    ensures value { result ≡ front at (drop at text.now) }
    ensures some { 0 < result.length }
    ensures within { at + result.length ≤ length text.now }
{
    let bytes = &text[at..];
    if let Some(callout) = callout_length(bytes) {
        return token(Kind::CalloutNumber, at, callout);
    }
    let kind = kind_of(bytes[0]);
    let length = if is_run(kind) {
        run_length(kind, bytes)
    } else {
        1
    };
    token(kind, at, length)
}

fn token(kind: Kind, start: usize, length: usize) -> Token
    requires start_fits { start < 2 ^ 32 }
    requires length_fits { length < 2 ^ 32 }
    ensures { result ≡ record { kind = number_of kind; replaced = false; start = start; length = length } }
{
    Token {
        kind: kind.number(),
        replaced: false,
        start: start as u32,
        length: length as u32,
    }
}
