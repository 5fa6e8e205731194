// What the command line asks for.
use crate::complaint::Complaint;
use std::rt::Env;
use std::{env, io};

/// What is to be done.
#[derive(Clone, Copy, Debug, PartialEq, Eq)]
pub enum Command<'a> {
    Help,
    /// an account of this file, or of standard input
    Account(Option<&'a str>),
}

/// The words of the command line behind the program's own name.
pub fn arguments<R: Env + AllocGlobal>(rt: &R) -> io::Result<Vec<String>> {
    Ok(env::args(rt)?.skip(1).collect(rt.alloc())?)
}

/// The command that the words make; the first option among them decides.
pub fn read(words: &[String]) -> Result<Command<'_>, Complaint<'_>> {
    let option = words
        .iter()
        .map(|word| word.as_str())
        .find(|word| is_option(word));
    match (option, words) {
        (Some("--help" | "-h"), _) => Ok(Command::Help),
        (Some(option), _) => Err(Complaint::UnknownOption(option)),
        (None, []) => Ok(Command::Account(None)),
        (None, [name]) => Ok(Command::Account(Some(name.as_str()).filter(|name| *name != "-"))),
        (None, _) => Err(Complaint::TooMany),
    }
}

fn is_option(word: &str) -> bool {
    word.len() > 1 && word.starts_with('-')
}
