// What the program says on standard error.
use std::error::Error;
use std::{fmt, io};

/// What the program complains of, where it does not account for a whole document.
#[derive(Debug, Drop)]
pub enum Complaint<'a> {
    Arguments,
    UnknownOption(&'a str),
    TooMany,
    /// the document of this name cannot be read
    Unreadable(&'a str, io::Error),
    Memory,
    /// in the document of this name, the table block that this line opens is never closed
    Unclosed(&'a str, usize),
    /// the document of this name has no table
    NoTable(&'a str),
}

impl fmt::Display for Complaint<'_> {
    fn fmt<W: fmt::Write>(&self, f: &mut fmt::Formatter<W>) -> fmt::Result {
        match self {
            Complaint::Arguments => write!(f, "the arguments cannot be read"),
            Complaint::UnknownOption(option) => {
                write!(f, "there is no option {option}; --help lists what there is")
            }
            Complaint::TooMany => write!(f, "one document at a time; --help says more"),
            Complaint::Unreadable(name, error) => write!(f, "{name} cannot be read: {error}"),
            Complaint::Memory => write!(f, "there is not enough memory"),
            Complaint::Unclosed(name, line) => {
                write!(
                    f,
                    "{name}: the table block that line {line} opens is never closed"
                )
            }
            Complaint::NoTable(name) => write!(f, "{name}: there is no table in this document"),
        }
    }
}

impl Error for Complaint<'_> {}
