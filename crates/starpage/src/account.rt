// The account of a table.
use crate::cells::{Cells, Page};
use crate::refusal::{Refusal, Unfinished};
use crate::words::{Counted, Said};
use document::Table;
use lexer::LexRefusal;
use sheet::{Sheet, SheetRefusal, Token};
use std::io;

/// Prints the account of each table and a line on all of them; tells how many were refused.
// The refused are counted by hand: each turn prints and can stop, and a fold of such turns is no plainer.
pub fn print_tables<R: Print + AllocGlobal>(
    rt: &R,
    text: &[u8],
    tables: &[Table],
) -> io::Result<usize> {
    let mut refused: usize = 0;
    for (i, table) in tables.iter().enumerate() {
        print_heading(rt, i + 1, table)?;
        match print_content(rt, Page { text, table }) {
            Ok(()) => {}
            Err(Unfinished::Refused(refusal)) => {
                refused = refused.saturating_add(1);
                print_refusal(rt, refusal)?;
            }
            Err(Unfinished::Output(error)) => return Err(error),
        }
        rt.println("")?;
    }
    if !tables.is_empty() {
        println!(rt; "{}, {refused} refused", Counted(tables.len(), "table"))?;
    }
    Ok(refused)
}

fn print_heading(rt: &impl Print, number: usize, table: &Table) -> io::Result<()> {
    println!(rt;
        "Table {number}: lines {} to {}",
        table.open_line, table.close_line
    )?;
    println!(rt; "  format     {}", Said(table.format))?;
    println!(rt; "  separator  {}", Said(char::from(table.separator)))?;
    println!(rt; "  columns    {}", Said(&table.columns))?;
    println!(rt; "  options    {}", Said(table.options))
}

/// Prints why a table is refused; nothing where its content is no part of the document.
fn print_refusal(rt: &impl Print, refusal: Refusal) -> io::Result<()> {
    match refusal {
        Refusal::Content => Ok(()),
        _ => println!(rt; "  refused    {refusal}"),
    }
}

/// Prints what a table's content is made of.
fn print_content<R: Print + AllocGlobal>(rt: &R, page: Page<'_>) -> Result<(), Unfinished> {
    let content = page.content().ok_or(Refusal::Content)?;
    println!(rt; "  content    {} bytes", content.len())?;
    let tokens = lexer::lex(rt.alloc(), content).map_err(|refusal| match refusal {
        LexRefusal::TextTooLong => page.refused(SheetRefusal::TextTooLong, &[]),
        LexRefusal::NoMemory => Unfinished::from(io::Error::from(io::ErrorKind::OutOfMemory)),
    })?;
    print_sheet(rt, page, content, tokens.as_slice())
}

/// Makes the sheet of a content and its tokens, and prints its cells.
fn print_sheet<R: Print + AllocGlobal>(
    rt: &R,
    page: Page<'_>,
    content: &[u8],
    tokens: &[Token],
) -> Result<(), Unfinished> {
    println!(rt; "  tokens     {}", Said(tokens))?;
    let sheet = Sheet::new(content, &[], tokens).map_err(|refusal| page.refused(refusal, tokens))?;
    rt.println("  sheet      sound")?;
    Cells {
        page,
        sheet: &sheet,
    }
    .print(rt)
}
