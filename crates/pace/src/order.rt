// What the command line asks for.
use anyhow::{Context, Result};
use std::env;
use std::rt::Env;
use std::str::FromStr;

/// How the cells of the page are written.
// Not the format of `document` or of `replay`: a `FromStr` has to stand beside its type, and no program rests on another.
#[derive(Clone, Copy, Debug, PartialEq, Eq)]
pub enum Format {
    Prefix,
    Csv,
    Dsv,
}

impl FromStr for Format {
    type Err = anyhow::Error;

    fn from_str(name: &str) -> Result<Format> {
        match name {
            "prefix" => Ok(Format::Prefix),
            "csv" => Ok(Format::Csv),
            "dsv" => Ok(Format::Dsv),
            _ => Err(anyhow::anyhow!("the format is prefix, csv or dsv")),
        }
    }
}

/// A page and how often it is cut.
#[derive(Clone, Copy, Debug, PartialEq, Eq)]
pub struct Order {
    pub format: Format,
    pub cells: usize,
    pub rounds: usize,
}

impl Order {
    /// The order that the words of the command line make.
    pub fn read<R: Env + AllocGlobal>(rt: &R) -> Result<Order> {
        let words: Vec<String> = env::args(rt)?.skip(1).collect(rt.alloc())?;
        // No `?`: a list of another length is no error that a call hands on.
        let [format, cells, rounds] = words.as_slice() else {
            return Err(anyhow::anyhow!("usage: pace FORMAT CELLS ROUNDS"));
        };
        Ok(Order {
            format: format.as_str().parse()?,
            cells: cells.as_str().parse().context("CELLS")?,
            rounds: rounds.as_str().parse().context("ROUNDS")?,
        })
    }
}
