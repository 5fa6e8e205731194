// Why the account of a table ends early.
use crate::words::Said;
use cut::CutterRefusal;
use document::Place;
use sheet::SheetRefusal;
use std::error::Error;
use std::{fmt, io};

/// Why a table is refused.
#[derive(Clone, Copy, Debug, PartialEq, Eq, Hash)]
pub enum Refusal {
    /// its content is no part of the document, which no document that was searched gives; the account says nothing of it
    Content,
    /// its tokens make no sheet; the content, or the token that was refused, begins here
    Sheet(SheetRefusal, Place),
    /// its separator cannot part cells
    Cutter(CutterRefusal),
}

impl fmt::Display for Refusal {
    fn fmt<W: fmt::Write>(&self, f: &mut fmt::Formatter<W>) -> fmt::Result {
        match self {
            Refusal::Content => f.write_str("the content is no part of the document"),
            Refusal::Sheet(refusal, place) => {
                write!(
                    f,
                    "{} at {}: {}",
                    refusal.number(),
                    Said(*place),
                    Said(*refusal)
                )
            }
            Refusal::Cutter(refusal) => write!(f, "{}: {refusal}", refusal.number()),
        }
    }
}

impl Error for Refusal {}

/// Why the account of a table ends early.
#[derive(Drop)]
pub enum Unfinished {
    Refused(Refusal),
    Output(io::Error),
}

impl From<Refusal> for Unfinished {
    fn from(refusal: Refusal) -> Unfinished {
        Unfinished::Refused(refusal)
    }
}

impl From<CutterRefusal> for Unfinished {
    fn from(refusal: CutterRefusal) -> Unfinished {
        Unfinished::Refused(Refusal::Cutter(refusal))
    }
}

impl From<io::Error> for Unfinished {
    fn from(error: io::Error) -> Unfinished {
        Unfinished::Output(error)
    }
}
