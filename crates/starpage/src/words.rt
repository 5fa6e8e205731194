// The program's words: its help, and how it writes kinds, formats, columns, specifiers, texts, notes and refusals.
ghost use Rattle.std.specs.Iterator.{IsFinite};

use cut::{Note, NoteKind};
use document::{Columns, Format, Options, Place};
use sheet::{Kind, SheetRefusal, Token};
use starts::{Horizontal, Specifier, Vertical};
use std::fmt;
use styles::Style;

pub const HELP: &str = "starpage: an account of the tables of an AsciiDoc document

usage: starpage [FILE]

Reads FILE, or standard input where there is none (or where FILE is -), finds
its table blocks and prints of each where it stands, its format, separator,
columns and options, how many bytes and tokens it has, whether its tokens make
a sheet or why not, and its cells in page order: each with its number, its
specifier, its text, its marks and what an editor should know of it.

  -h, --help    print this and end

A document with no table, a table block that is never closed, a file that
cannot be read and a table that is refused end with status 1.
";

/// The kinds that decide where cells begin and end.
pub const KINDS: [Kind; 17] = [
    Kind::Word,
    Kind::Digits,
    Kind::Whitespace,
    Kind::Newline,
    Kind::Pipe,
    Kind::Comma,
    Kind::Colon,
    Kind::SemiColon,
    Kind::DoubleQuote,
    Kind::Backslash,
    Kind::Star,
    Kind::Plus,
    Kind::Dots,
    Kind::LessThan,
    Kind::GreaterThan,
    Kind::Caret,
    Kind::CalloutNumber,
];

/// A value in the program's words.
// A newtype: a `Display` of another crate's type cannot stand here, and `replay` writes the same types otherwise.
#[derive(Clone, Copy)]
pub struct Said<T>(pub T);

/// Two things with a blank between.
#[derive(Clone, Copy)]
struct Pair<A, B>(A, B);

impl<A: fmt::Display, B: fmt::Display> fmt::Display for Pair<A, B> {
    fn fmt<W: fmt::Write>(&self, f: &mut fmt::Formatter<W>) -> fmt::Result {
        write!(f, "{} {}", self.0, self.1)
    }
}

/// So many things of a name, which has an `s` behind it unless there is one.
#[derive(Clone, Copy)]
pub struct Counted(pub usize, pub &'static str);

impl fmt::Display for Counted {
    fn fmt<W: fmt::Write>(&self, f: &mut fmt::Formatter<W>) -> fmt::Result {
        let Counted(count, name) = *self;
        write!(f, "{count} {name}{}", if count == 1 { "" } else { "s" })
    }
}

/// A separator.
impl fmt::Display for Said<char> {
    fn fmt<W: fmt::Write>(&self, f: &mut fmt::Formatter<W>) -> fmt::Result {
        match self.0 {
            '\t' => f.write_str("tab"),
            separator => write!(f, "{separator}"),
        }
    }
}

impl fmt::Display for Said<Format> {
    fn fmt<W: fmt::Write>(&self, f: &mut fmt::Formatter<W>) -> fmt::Result {
        f.write_str(match self.0 {
            Format::Prefix => "prefix",
            Format::Csv => "CSV",
            Format::Dsv => "DSV",
        })
    }
}

/// How many columns there are, and the styles other than the default of those whose style is kept.
impl fmt::Display for Said<&Columns> {
    fn fmt<W: fmt::Write>(&self, f: &mut fmt::Formatter<W>) -> fmt::Result {
        let Said(columns) = *self;
        if columns.count == 0 {
            return f.write_str("not given");
        }
        write!(f, "{}", columns.count)?;
        let styled = (1usize..=document::MAX_STYLES)
            .zip(columns.kept())
            .map(|(place, number)| Pair(place, Style::try_from(*number).unwrap_or_default()))
            .filter(|column| column.1 != Style::Default);
        write_list(f, styled, " (", ")", "")
    }
}

impl fmt::Display for Said<Options> {
    fn fmt<W: fmt::Write>(&self, f: &mut fmt::Formatter<W>) -> fmt::Result {
        let Options {
            header,
            noheader,
            footer,
        } = self.0;
        let given = [
            header.then_some("header"),
            noheader.then_some("noheader"),
            footer.then_some("footer"),
        ];
        write_list(f, given.iter().flatten(), "", "", "none")
    }
}

/// How many tokens there are, and how many of each of `KINDS`.
impl fmt::Display for Said<&[Token]> {
    fn fmt<W: fmt::Write>(&self, f: &mut fmt::Formatter<W>) -> fmt::Result {
        let Said(tokens) = *self;
        write!(f, "{}", tokens.len())?;
        // Counted by number in one pass over the tokens, and not once for each kind.
        let mut counts = [0usize; 256];
        for token in tokens {
            let kind = usize::from(token.kind);
            counts[kind] = counts[kind].saturating_add(1);
        }
        let counted = KINDS
            .iter()
            .map(|kind| Pair(*kind, counts[usize::from(kind.number())]))
            .filter(|counted| counted.1 > 0);
        write_list(f, counted, ": ", "", "")
    }
}

/// Writes items with commas between, with `before` and `after` around them; `none` where there is no item.
fn write_list<W: fmt::Write, I: Iterator + Drop>(
    f: &mut fmt::Formatter<W>,
    mut items: I,
    before: &str,
    after: &str,
    none: &str,
) -> fmt::Result
where
    I::Item: fmt::Display + Drop,
    requires can { I.can_next items }
    requires ends { IsFinite (I.remaining items) }
{
    let Some(first) = items.next() else {
        return f.write_str(none);
    };
    write!(f, "{before}{first}")?;
    for item in items {
        write!(f, ", {item}")?;
    }
    f.write_str(after)
}

impl fmt::Display for Said<Place> {
    fn fmt<W: fmt::Write>(&self, f: &mut fmt::Formatter<W>) -> fmt::Result {
        let Place { line, column } = self.0;
        write!(f, "{line}:{column}")
    }
}

impl fmt::Display for Said<SheetRefusal> {
    fn fmt<W: fmt::Write>(&self, f: &mut fmt::Formatter<W>) -> fmt::Result {
        f.write_str(match self.0 {
            SheetRefusal::TextTooLong => "the table has more than 1,048,576 bytes",
            SheetRefusal::TooManyTokens => "the table has more than 262,144 tokens",
            SheetRefusal::UnsoundToken { token: _ } => "a token is not what its kind says",
        })
    }
}

/// What a note says.
impl fmt::Display for Said<Note> {
    fn fmt<W: fmt::Write>(&self, f: &mut fmt::Formatter<W>) -> fmt::Result {
        match NoteKind::try_from(self.0.number) {
            Ok(kind) => kind.fmt(f),
            Err(_) => f.write_str("see the list of notes"),
        }
    }
}

/// Bytes as text, a line feed as `\n` and what is no text as `\x` and two digits.
impl fmt::Display for Said<&[u8]> {
    fn fmt<W: fmt::Write>(&self, f: &mut fmt::Formatter<W>) -> fmt::Result {
        let Said(bytes) = *self;
        if bytes == b"\n".as_slice() {
            return f.write_str("\\n");
        }
        if let Ok(text) = std::str::from_utf8(bytes) {
            return f.write_str(text);
        }
        for byte in bytes {
            write!(f, "\\x{byte:02x}")?;
        }
        Ok(())
    }
}

/// What a specifier says, as it is written in front of a cell, and a blank behind it.
impl fmt::Display for Said<Specifier> {
    fn fmt<W: fmt::Write>(&self, f: &mut fmt::Formatter<W>) -> fmt::Result {
        let Specifier {
            factor,
            columns,
            rows,
            horizontal,
            vertical,
            style,
        } = self.0;
        if self.0 == Specifier::NOTHING {
            return Ok(());
        }
        if factor != 1 {
            write!(f, "{factor}*")?;
        }
        if columns != 1 {
            write!(f, "{columns}")?;
        }
        if rows != 1 {
            write!(f, ".{rows}")?;
        }
        if columns != 1 || rows != 1 {
            f.write_str("+")?;
        }
        let style = style.and_then(|number| Style::try_from(number).ok());
        write!(f, "{}{}{} ", Said(horizontal), Said(vertical), Said(style))
    }
}

impl fmt::Display for Said<Horizontal> {
    fn fmt<W: fmt::Write>(&self, f: &mut fmt::Formatter<W>) -> fmt::Result {
        f.write_str(match self.0 {
            Horizontal::Left => "<",
            Horizontal::Right => ">",
            Horizontal::Center => "^",
        })
    }
}

impl fmt::Display for Said<Vertical> {
    fn fmt<W: fmt::Write>(&self, f: &mut fmt::Formatter<W>) -> fmt::Result {
        f.write_str(match self.0 {
            Vertical::Top => ".<",
            Vertical::Bottom => ".>",
            Vertical::Middle => ".^",
        })
    }
}

/// The letter that names a style.
impl fmt::Display for Said<Style> {
    fn fmt<W: fmt::Write>(&self, f: &mut fmt::Formatter<W>) -> fmt::Result {
        f.write_str(match self.0 {
            Style::Default => "d",
            Style::Emphasis => "e",
            Style::Header => "h",
            Style::Monospace => "m",
            Style::Strong => "s",
            Style::Literal => "l",
            Style::AsciiDoc => "a",
        })
    }
}

/// What is there, or nothing.
impl<T: Copy> fmt::Display for Said<Option<T>>
where
    Said<T>: fmt::Display,
{
    fn fmt<W: fmt::Write>(&self, f: &mut fmt::Formatter<W>) -> fmt::Result {
        match self.0 {
            Some(value) => Said(value).fmt(f),
            None => Ok(()),
        }
    }
}
