// The lines of an answer.
use cut::{Cut, CutRefusal, CutterRefusal, Note};
use sheet::{Piece, Position, SheetRefusal};
use starts::{Horizontal, Specifier, Vertical};
use std::error::Error;
use std::{fmt, io};

/// What is refused in a case.
#[derive(Clone, Copy, Debug, PartialEq, Eq, Hash)]
pub enum Refusal {
    Sheet(SheetRefusal),
    Cutter(CutterRefusal),
    Cut(CutRefusal),
}

impl fmt::Display for Refusal {
    fn fmt<W: fmt::Write>(&self, f: &mut fmt::Formatter<W>) -> fmt::Result {
        match self {
            Refusal::Sheet(SheetRefusal::UnsoundToken { token }) => {
                write!(f, "refused 12 {token}")
            }
            Refusal::Sheet(refusal) => write!(f, "refused {}", refusal.number()),
            Refusal::Cutter(refusal) => write!(f, "refused {}", refusal.number()),
            Refusal::Cut(refusal) => write!(f, "refused {}", refusal.number()),
        }
    }
}

impl Error for Refusal {}

/// Prints a cell with the pieces and the notes that its cut appended.
pub fn print_cell(rt: &impl Print, cut: Cut, pieces: &[Piece], notes: &[Note]) -> io::Result<()> {
    println!(rt;
        "cell {} pieces={} notes={}",
        Written(cut),
        Written(pieces),
        Written(notes)
    )
}

/// A value as it stands in an answer.
// A newtype: a `Display` of another crate's type cannot stand here, and `starpage` writes the same types otherwise.
#[derive(Clone, Copy)]
pub struct Written<T>(pub T);

impl fmt::Display for Written<Cut> {
    fn fmt<W: fmt::Write>(&self, f: &mut fmt::Formatter<W>) -> fmt::Result {
        let Written(cut) = self;
        write!(
            f,
            "{} {} {} {} {}",
            cut.first,
            Written(cut.specifier),
            u8::from(cut.line_end),
            u8::from(cut.blank_after),
            u8::from(cut.blank_inside)
        )
    }
}

impl fmt::Display for Written<Specifier> {
    fn fmt<W: fmt::Write>(&self, f: &mut fmt::Formatter<W>) -> fmt::Result {
        let Written(specifier) = self;
        write!(
            f,
            "{} {} {} {} {} {}",
            specifier.factor,
            specifier.columns,
            specifier.rows,
            Written(specifier.horizontal),
            Written(specifier.vertical),
            Written(specifier.style)
        )
    }
}

impl fmt::Display for Written<Horizontal> {
    fn fmt<W: fmt::Write>(&self, f: &mut fmt::Formatter<W>) -> fmt::Result {
        f.write_str(match self.0 {
            Horizontal::Left => "left",
            Horizontal::Right => "right",
            Horizontal::Center => "center",
        })
    }
}

impl fmt::Display for Written<Vertical> {
    fn fmt<W: fmt::Write>(&self, f: &mut fmt::Formatter<W>) -> fmt::Result {
        f.write_str(match self.0 {
            Vertical::Top => "top",
            Vertical::Bottom => "bottom",
            Vertical::Middle => "middle",
        })
    }
}

/// The number of a style.
impl fmt::Display for Written<u8> {
    fn fmt<W: fmt::Write>(&self, f: &mut fmt::Formatter<W>) -> fmt::Result {
        write!(f, "{}", self.0)
    }
}

impl fmt::Display for Written<Piece> {
    fn fmt<W: fmt::Write>(&self, f: &mut fmt::Formatter<W>) -> fmt::Result {
        let Piece {
            token,
            offset,
            length,
        } = self.0;
        write!(f, "{token}.{offset}.{length}")
    }
}

impl fmt::Display for Written<Note> {
    fn fmt<W: fmt::Write>(&self, f: &mut fmt::Formatter<W>) -> fmt::Result {
        let Note { number, token } = self.0;
        write!(f, "{number}@{token}")
    }
}

impl fmt::Display for Written<Position> {
    fn fmt<W: fmt::Write>(&self, f: &mut fmt::Formatter<W>) -> fmt::Result {
        write!(f, "{}.{}", self.0.token, self.0.offset)
    }
}

/// What is there, or `-`.
impl<T: Copy> fmt::Display for Written<Option<T>>
where
    Written<T>: fmt::Display,
{
    fn fmt<W: fmt::Write>(&self, f: &mut fmt::Formatter<W>) -> fmt::Result {
        match self.0 {
            Some(value) => Written(value).fmt(f),
            None => f.write_str("-"),
        }
    }
}

/// The items with commas between, or `-` where there is none.
impl<T: Copy> fmt::Display for Written<&[T]>
where
    Written<T>: fmt::Display,
{
    fn fmt<W: fmt::Write>(&self, f: &mut fmt::Formatter<W>) -> fmt::Result {
        let Some((first, more)) = self.0.split_first() else {
            return f.write_str("-");
        };
        Written(*first).fmt(f)?;
        for item in more {
            write!(f, ",{}", Written(*item))?;
        }
        Ok(())
    }
}
