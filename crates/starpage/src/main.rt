// Prints an account of the tables of an AsciiDoc document: where each stands, how it is written, and its cells.
#![tactic(auto)]

mod account;
mod cells;
mod command;
mod complaint;
mod refusal;
mod words;

use command::Command;
use complaint::Complaint;
use std::io::Read;
use std::process::ExitCode;
use std::rt::Files;
use std::{fs, io};

/// Why the program ends with status 1.
// Not `anyhow::Error`: it keeps 120 bytes of a message, and the name of a file can be longer.
#[derive(Drop)]
enum Stopped<'a> {
    Complaint(Complaint<'a>),
    /// a table is refused, as its account says
    Refused,
    /// the account cannot be printed
    Output(io::Error),
}

impl<'a> From<Complaint<'a>> for Stopped<'a> {
    fn from(complaint: Complaint<'a>) -> Stopped<'a> {
        Stopped::Complaint(complaint)
    }
}

impl From<io::Error> for Stopped<'_> {
    fn from(error: io::Error) -> Self {
        Stopped::Output(error)
    }
}

/// The bytes of a document: of the file of this name, or of standard input where there is none.
fn read_document<R: Input + Files + AllocGlobal>(
    rt: &R,
    name: Option<&str>,
) -> io::Result<Vec<u8>> {
    if let Some(path) = name {
        return fs::read(rt, path);
    }
    let mut text = Vec::new(rt.alloc());
    rt.reader().read_to_end(&mut text)?;
    Ok(text)
}

/// Prints the account of a document.
// Never inlined: the help and the complaints of the command line need not have the stack that this needs.
#[inline(never)]
fn give_account<'a, R: Print + Input + Files + AllocGlobal>(
    rt: &R,
    name: Option<&'a str>,
) -> Result<(), Stopped<'a>> {
    let shown = name.unwrap_or("standard input");
    let text = read_document(rt, name).map_err(|error| Complaint::Unreadable(shown, error))?;
    let outline = document::find_tables(rt.alloc(), text.as_slice()).map_err(
        |_| Complaint::Memory,
    )?;
    let refused = account::print_tables(rt, text.as_slice(), outline.tables.as_slice())?;
    if let Some(line) = outline.unclosed {
        return Err(Stopped::Complaint(Complaint::Unclosed(shown, line)));
    }
    if outline.tables.is_empty() {
        return Err(Stopped::Complaint(Complaint::NoTable(shown)));
    }
    if refused > 0 {
        return Err(Stopped::Refused);
    }
    Ok(())
}

fn run<'a, R: Print + Input + Files + AllocGlobal>(
    rt: &R,
    words: &'a [String],
) -> Result<(), Stopped<'a>> {
    match command::read(words)? {
        Command::Help => Ok(rt.print(words::HELP)?),
        Command::Account(name) => give_account(rt, name),
    }
}

/// The status to end with. A complaint is printed first; where that fails there is nobody left to tell.
fn end(rt: &impl Eprint, done: Result<(), Stopped<'_>>) -> ExitCode {
    match done {
        Ok(()) => return ExitCode::SUCCESS,
        Err(Stopped::Complaint(complaint)) => {
            let _ = eprintln!(rt; "starpage: {complaint}");
        }
        Err(Stopped::Refused | Stopped::Output(_)) => {}
    }
    ExitCode::FAILURE
}

fn main(rt: HostRuntime) -> ExitCode {
    match command::arguments(&rt) {
        Ok(words) => end(&rt, run(&rt, words.as_slice())),
        Err(_) => end(&rt, Err(Stopped::Complaint(Complaint::Arguments))),
    }
}
