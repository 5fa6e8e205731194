// The input line by line: each case is read and answered.
use crate::case::{Case, field};
use crate::cells;
use crate::numbers::Fault;
use std::io;

/// Answers each line of the input.
pub fn replay_all<R: Print + AllocGlobal>(rt: &R, input: &[u8]) -> io::Result<()> {
    input
        .split(|byte| *byte == b'\n')
        .try_for_each(|line| replay_line(rt, line))
}

/// Answers a line; one that is blank or begins with `#` has no answer.
fn replay_line<R: Print + AllocGlobal>(rt: &R, line: &[u8]) -> io::Result<()> {
    match std::str::from_utf8(line) {
        Ok(text) if text.trim().is_empty() || text.starts_with('#') => Ok(()),
        Ok(text) => replay_text(rt, text),
        Err(_) => print_fault(rt, "", Fault::NotText),
    }
}

/// Answers the case that a line writes, or says what is wrong with the line.
fn replay_text<R: Print + AllocGlobal>(rt: &R, text: &str) -> io::Result<()> {
    let id = field(text, "id=").unwrap_or("");
    match Case::read(rt.alloc(), text) {
        Ok(case) => {
            println!(rt; "case {id}")?;
            cells::replay(rt, &case)
        }
        Err(fault) => print_fault(rt, id, fault),
    }
}

// A whole line, of a case and its fault.
fn print_fault(rt: &impl Print, id: &str, fault: Fault) -> io::Result<()> {
    println!(rt; "case {id} bad: {fault}")
}
