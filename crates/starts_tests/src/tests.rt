// Starts at the front of a text, and starts that are none.
use lexer::lex;
use sheet::{Kind, Place, Sheet, Token};
use starts::{Horizontal, Start, Vertical, read_start};
use std::alloc::Global;
use std::process::Abort;
use std::test::Fail;

/// A specifier as six bytes, where `-` stands for what is missing: factor, columns, rows, `<` `>` or `^` for the
/// horizontal and for the vertical alignment, style.
fn said(start: Start) -> [u8; 6] {
    let horizontal = match start.specifier.horizontal {
        Some(Horizontal::Left) => b'<',
        Some(Horizontal::Right) => b'>',
        Some(Horizontal::Center) => b'^',
        None => b'-',
    };
    let vertical = match start.specifier.vertical {
        Some(Vertical::Top) => b'<',
        Some(Vertical::Bottom) => b'>',
        Some(Vertical::Middle) => b'^',
        None => b'-',
    };
    let style = start.specifier.style.unwrap_or(b'-');
    [
        start.specifier.factor,
        start.specifier.columns,
        start.specifier.rows,
        horizontal,
        vertical,
        style,
    ]
}

/// A token of one byte.
fn one_byte(kind: Kind, replaced: bool, start: u32) -> Token {
    Token {
        kind: kind.number(),
        replaced,
        start,
        length: 1,
    }
}

/// The start at the front of a sheet.
fn front<'a>(
    page: &'a [u8],
    replacement: &'a [u8],
    tokens: &'a [Token],
    separator: u8,
) -> Result<Option<Start>, Fail> {
    let sheet = Sheet::new(page, replacement, tokens)?;
    Ok(read_start(&sheet, separator, Place::front(0)))
}

/// The start at the front of a text.
fn front_of(heap: Global, text: &[u8], separator: u8) -> Result<Option<Start>, Fail> {
    let tokens = lex(heap, text)?;
    front(text, b"", &tokens, separator)
}

/// The start at the front of a text has this specifier, and the cell goes on at this token and offset.
fn expect(
    rt: &impl Abort,
    heap: Global,
    text: &[u8],
    separator: u8,
    specifier: [u8; 6],
    token: usize,
    offset: usize,
) -> Result<(), Fail> {
    let start = front_of(heap, text, separator)?.ok_or_else(|| Fail::new("no start"))?;
    assert_eq!(rt; said(start), specifier);
    assert_eq!(rt; start.rest, Place { token, offset });
    Ok(())
}

/// No cell starts at the front of a text.
fn none(rt: &impl Abort, heap: Global, text: &[u8], separator: u8) -> Result<(), Fail> {
    assert!(rt; front_of(heap, text, separator)?.is_none());
    Ok(())
}

#[test]
fn one_part(rt: HostRuntime) -> Result<(), Fail> {
    let heap = rt.alloc();
    expect(&rt, heap, b"|x", b'|', [1, 1, 1, b'-', b'-', b'-'], 1, 0)?;
    expect(&rt, heap, b"bx", b'b', [1, 1, 1, b'-', b'-', b'-'], 0, 1)?;
    expect(&rt, heap, b"4*|", b'|', [4, 1, 1, b'-', b'-', b'-'], 3, 0)?;
    expect(&rt, heap, b"0*|", b'|', [0, 1, 1, b'-', b'-', b'-'], 3, 0)?;
    expect(
        &rt,
        heap,
        b"0255*|",
        b'|',
        [255, 1, 1, b'-', b'-', b'-'],
        3,
        0,
    )?;
    expect(&rt, heap, b"0+|", b'|', [1, 1, 1, b'-', b'-', b'-'], 3, 0)?;
    expect(&rt, heap, b"2.3+|", b'|', [1, 2, 3, b'-', b'-', b'-'], 5, 0)?;
    expect(&rt, heap, b"<.>|", b'|', [1, 1, 1, b'<', b'>', b'-'], 2, 0)?;
    expect(&rt, heap, b"a|", b'|', [1, 1, 1, b'-', b'-', 6], 2, 0)
}

#[test]
fn more_parts(rt: HostRuntime) -> Result<(), Fail> {
    let heap = rt.alloc();
    expect(&rt, heap, b".2+^.>s|", b'|', [1, 1, 2, b'^', b'>', 4], 8, 0)?;
    expect(&rt, heap, b"3*2+>m|", b'|', [3, 2, 1, b'>', b'-', 3], 7, 0)?;
    expect(
        &rt,
        heap,
        b"<.>.^|",
        b'|',
        [1, 1, 1, b'<', b'^', b'-'],
        4,
        0,
    )?;
    expect(&rt, heap, b"2*ab", b'b', [2, 1, 1, b'-', b'-', 6], 3, 0)?;
    expect(&rt, heap, b"2*abc", b'b', [2, 1, 1, b'-', b'-', 6], 2, 2)
}

#[test]
fn no_start(rt: HostRuntime) -> Result<(), Fail> {
    let heap = rt.alloc();
    none(&rt, heap, b"256*|", b'|')?;
    none(&rt, heap, b"2.256+|", b'|')?;
    none(&rt, heap, b"..2+|", b'|')?;
    none(&rt, heap, b"<1>|", b'|')?;
    none(&rt, heap, b"ab|", b'|')?;
    none(&rt, heap, b"A|", b'|')?;
    none(&rt, heap, b"ab", b'b')?;
    none(&rt, heap, b"2*", b'|')?;
    none(&rt, heap, b"x|", b'|')
}

#[test]
fn replaced(rt: HostRuntime) -> Result<(), Fail> {
    let digits = one_byte(Kind::Digits, false, 0);
    let star = one_byte(Kind::Star, false, 1);
    let pipe = one_byte(Kind::Pipe, false, 2);
    let other_star = one_byte(Kind::Star, true, 1);
    let other_pipe = one_byte(Kind::Pipe, true, 2);
    assert!(rt; front(b"4*|", b"4*|", &[digits, star, pipe], b'|')?.is_some());
    assert!(rt; front(b"4*|", b"4*|", &[digits, star, other_pipe], b'|')?.is_none());
    assert!(rt; front(b"4*|", b"4*|", &[digits, other_star, pipe], b'|')?.is_none());
    assert!(rt; front(b"4*|", b"4*|", &[pipe], b'|')?.is_some());
    assert!(rt; front(b"4*|", b"4*|", &[other_pipe], b'|')?.is_none());
    Ok(())
}
