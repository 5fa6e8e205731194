// The styles that a cell or a column can have.
#![tactic(auto)]

ghost use Rattle.std.specs.Prelude.{◌≡◌};
ghost use Rattle.styles.specs.Styles.{number_of, style_named, Numbered};

use std::error::Error;
use std::fmt;

/// How the content of a cell is written. The numbers 0 to 6 stand for the styles, in this order.
#[derive(Clone, Copy, Debug, Default, PartialEq, Eq, Hash)]
pub enum Style {
    #[default]
    Default,
    Emphasis,
    Header,
    Monospace,
    Strong,
    Literal,
    AsciiDoc,
}

/// A number that no style has.
// An error type of its own, as each enum has whose `TryFrom` takes a number.
#[derive(Clone, Copy, Debug, PartialEq, Eq, Hash)]
pub struct UnknownStyle(pub u8);

impl Style {
    /// The style that a letter names. Case counts.
    pub fn named(letter: char) -> Option<Style>
        ensures { result ≡ style_named letter }
    {
        match letter {
            'd' => Some(Style::Default),
            'e' => Some(Style::Emphasis),
            'h' => Some(Style::Header),
            'm' => Some(Style::Monospace),
            's' => Some(Style::Strong),
            'l' => Some(Style::Literal),
            'a' => Some(Style::AsciiDoc),
            _ => None,
        }
    }

    /// The number that stands for the style.
    pub fn number(self) -> u8
        ensures { result ≡ number_of self }
    {
        self as u8
    }
}

// Each number by itself: no derive makes an enum of a number.
impl TryFrom<u8> for Style {
    type Error = UnknownStyle;

    ghost try_from_gives = { Numbered };

    fn try_from(number: u8) -> Result<Style, UnknownStyle> {
        match number {
            0 => Ok(Style::Default),
            1 => Ok(Style::Emphasis),
            2 => Ok(Style::Header),
            3 => Ok(Style::Monospace),
            4 => Ok(Style::Strong),
            5 => Ok(Style::Literal),
            6 => Ok(Style::AsciiDoc),
            _ => Err(UnknownStyle(number)),
        }
    }
}

impl fmt::Display for Style {
    fn fmt<W: fmt::Write>(&self, f: &mut fmt::Formatter<W>) -> fmt::Result {
        f.write_str(match self {
            Style::Default => "default",
            Style::Emphasis => "emphasis",
            Style::Header => "header",
            Style::Monospace => "monospace",
            Style::Strong => "strong",
            Style::Literal => "literal",
            Style::AsciiDoc => "AsciiDoc",
        })
    }
}

impl fmt::Display for UnknownStyle {
    fn fmt<W: fmt::Write>(&self, f: &mut fmt::Formatter<W>) -> fmt::Result {
        write!(f, "no style has the number {}", self.0)
    }
}

impl Error for UnknownStyle {}
