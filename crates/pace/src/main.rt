// Measures how long cutting takes: makes a page of cells and cuts it as often as is asked for.
//
// `pace FORMAT CELLS ROUNDS`: the page has so many cells of one letter, ten a line, and is cut so many times. Two runs that
// differ in the rounds alone differ by cutting alone.
#![tactic(auto)]

mod order;
mod page;

use cut::csv::Csv;
use cut::dsv::Dsv;
use cut::prefix::Prefix;
use cut::{Cutter, Note};
use order::{Format, Order};
use sheet::{Piece, Position, Sheet};
use std::io;
use store::Store;

/// Cuts a sheet, and tells how many cells it has.
// A loop and no iterator: a cell lies in lists that the next cut writes.
fn count_cells<K: Cutter>(
    sheet: &Sheet<'_>,
    cutter: &K,
    pieces: &mut Store<'_, Piece>,
    notes: &mut Store<'_, Note>,
) -> usize {
    let mut at = Position::START;
    let mut cells: usize = 0;
    'cells: while let Ok(Some(cell)) = cutter.cut(sheet, at, pieces, notes) {
        pieces.truncate(0);
        notes.truncate(0);
        cells = cells.saturating_add(1);
        at = cell.rest;
    }
    cells
}

/// Cuts a sheet as often as is asked for, and prints how many cells were cut in all.
fn cut_all<R: Print + AllocGlobal, K: Cutter>(
    rt: &R,
    sheet: &Sheet<'_>,
    cutter: &K,
    rounds: usize,
) -> io::Result<()> {
    let room = sheet.tokens().len().saturating_add(1);
    let mut pieces = vec![in rt.alloc(); Piece::default(); room]?;
    let mut notes = vec![in rt.alloc(); Note::default(); room]?;
    let mut pieces = Store::new(pieces.as_mut_slice());
    let mut notes = Store::new(notes.as_mut_slice());
    let cells = (0..rounds).fold(0, |cells: usize, _| {
        cells.saturating_add(count_cells(sheet, cutter, &mut pieces, &mut notes))
    });
    println!(rt;
        "{} tokens, {cells} cells in {rounds} rounds",
        sheet.tokens().len()
    )
}

fn main(rt: HostRuntime) -> anyhow::Result<()> {
    let Order {
        format,
        cells,
        rounds,
    } = Order::read(&rt)?;
    let text = page::text(rt.alloc(), format, cells)?;
    let tokens = lexer::lex(rt.alloc(), text.as_slice())?;
    let sheet = Sheet::new(text.as_slice(), &[], tokens.as_slice())?;
    // An arm for each format: each has a cutter of a type of its own.
    match format {
        Format::Prefix => cut_all(&rt, &sheet, &Prefix::new(b'|')?, rounds)?,
        Format::Csv => cut_all(&rt, &sheet, &Csv::new(b',')?, rounds)?,
        Format::Dsv => cut_all(&rt, &sheet, &Dsv::new(b':')?, rounds)?,
    }
    Ok(())
}
