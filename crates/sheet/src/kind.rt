// The kinds of tokens, 0 to 50, in the order of the `TokenKind` of asciidork-parser.
ghost use Rattle.std.specs.Prelude.{◌≡◌};
ghost use Rattle.sheet.specs.Kinds.{number_of, Numbered};

use std::error::Error;
use std::fmt;

/// What a token is. The numbers 0 to 50 stand for the kinds, in this order.
#[derive(Clone, Copy, Debug, PartialEq, Eq, Hash)]
pub enum Kind {
    Ampersand,
    AttrDef,
    AttrPassDbl,
    AttrRef,
    Backtick,
    Backslash,
    Bang,
    CalloutNumber,
    Caret,
    CloseBrace,
    CloseBracket,
    CloseParens,
    Colon,
    Comma,
    Dashes,
    DelimiterLine,
    Digits,
    Directive,
    Discard,
    DoubleQuote,
    Dots,
    Email,
    Entity,
    EqualSigns,
    Eof,
    ForwardSlashes,
    GreaterThan,
    Hash,
    LessThan,
    MacroName,
    MaybeEmail,
    Newline,
    NoBreakSpace,
    OpenBrace,
    OpenBracket,
    OpenParens,
    Percent,
    Pipe,
    Plus,
    PreprocPassthru,
    Punctuation,
    QuestionMark,
    SemiColon,
    SingleQuote,
    Star,
    TermDelimiter,
    Tilde,
    Underscore,
    UriScheme,
    Whitespace,
    Word,
}

/// A number that no kind has.
// An error type of its own, as each enum has whose `TryFrom` takes a number.
#[derive(Clone, Copy, Debug, PartialEq, Eq, Hash)]
pub struct UnknownKind(pub u8);

impl Kind {
    /// The number that stands for the kind.
    pub fn number(self) -> u8
        ensures { result ≡ number_of self }
    {
        self as u8
    }
}

// Each number by itself: no derive makes an enum of a number.
impl TryFrom<u8> for Kind {
    type Error = UnknownKind;

    ghost try_from_gives = { Numbered };

    fn try_from(number: u8) -> Result<Kind, UnknownKind> {
        match number {
            0 => Ok(Kind::Ampersand),
            1 => Ok(Kind::AttrDef),
            2 => Ok(Kind::AttrPassDbl),
            3 => Ok(Kind::AttrRef),
            4 => Ok(Kind::Backtick),
            5 => Ok(Kind::Backslash),
            6 => Ok(Kind::Bang),
            7 => Ok(Kind::CalloutNumber),
            8 => Ok(Kind::Caret),
            9 => Ok(Kind::CloseBrace),
            10 => Ok(Kind::CloseBracket),
            11 => Ok(Kind::CloseParens),
            12 => Ok(Kind::Colon),
            13 => Ok(Kind::Comma),
            14 => Ok(Kind::Dashes),
            15 => Ok(Kind::DelimiterLine),
            16 => Ok(Kind::Digits),
            17 => Ok(Kind::Directive),
            18 => Ok(Kind::Discard),
            19 => Ok(Kind::DoubleQuote),
            20 => Ok(Kind::Dots),
            21 => Ok(Kind::Email),
            22 => Ok(Kind::Entity),
            23 => Ok(Kind::EqualSigns),
            24 => Ok(Kind::Eof),
            25 => Ok(Kind::ForwardSlashes),
            26 => Ok(Kind::GreaterThan),
            27 => Ok(Kind::Hash),
            28 => Ok(Kind::LessThan),
            29 => Ok(Kind::MacroName),
            30 => Ok(Kind::MaybeEmail),
            31 => Ok(Kind::Newline),
            32 => Ok(Kind::NoBreakSpace),
            33 => Ok(Kind::OpenBrace),
            34 => Ok(Kind::OpenBracket),
            35 => Ok(Kind::OpenParens),
            36 => Ok(Kind::Percent),
            37 => Ok(Kind::Pipe),
            38 => Ok(Kind::Plus),
            39 => Ok(Kind::PreprocPassthru),
            40 => Ok(Kind::Punctuation),
            41 => Ok(Kind::QuestionMark),
            42 => Ok(Kind::SemiColon),
            43 => Ok(Kind::SingleQuote),
            44 => Ok(Kind::Star),
            45 => Ok(Kind::TermDelimiter),
            46 => Ok(Kind::Tilde),
            47 => Ok(Kind::Underscore),
            48 => Ok(Kind::UriScheme),
            49 => Ok(Kind::Whitespace),
            50 => Ok(Kind::Word),
            _ => Err(UnknownKind(number)),
        }
    }
}

/// The name of the variant, as `Debug` gives it.
impl fmt::Display for Kind {
    fn fmt<W: fmt::Write>(&self, f: &mut fmt::Formatter<W>) -> fmt::Result {
        fmt::Debug::fmt(self, f)
    }
}

impl fmt::Display for UnknownKind {
    fn fmt<W: fmt::Write>(&self, f: &mut fmt::Formatter<W>) -> fmt::Result {
        write!(f, "no kind has the number {}", self.0)
    }
}

impl Error for UnknownKind {}
