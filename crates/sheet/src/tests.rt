// Refusals at their limits and one past them, each unsound token alone, several at once; pieces.
use crate::limits::{MAX_TEXT, MAX_TOKENS};
use crate::{Kind, Piece, Sheet, SheetRefusal, Token};
use std::process::Abort;
use std::test::Fail;

const PAGE: &[u8] = b"12:;,|\"\\\n x";

const REPLACEMENT: &[u8] = b"34\n|";

const fn raw(kind: u8, replaced: bool, start: u32, length: u32) -> Token {
    Token {
        kind,
        replaced,
        start,
        length,
    }
}

const fn token(kind: Kind, replaced: bool, start: u32, length: u32) -> Token {
    raw(kind as u8, replaced, start, length)
}

// The refusal's number and, of 12, the token; 0 and the number of tokens where there is a sheet.
fn told(made: Result<Sheet<'_>, SheetRefusal>) -> (u8, usize) {
    match made {
        Ok(sheet) => (0, sheet.tokens().len()),
        Err(SheetRefusal::UnsoundToken { token }) => (12, token),
        Err(refusal) => (refusal.number(), 0),
    }
}

fn loaded<'a>(
    page: &'a [u8],
    replacement: &'a [u8],
    tokens: &'a [Token],
) -> Result<Sheet<'a>, SheetRefusal> {
    let mut sheet = Sheet::empty();
    sheet.load(page, replacement, tokens)?;
    Ok(sheet)
}

fn expect(
    rt: &impl Abort,
    page: &[u8],
    replacement: &[u8],
    tokens: &[Token],
    number: u8,
    value: usize,
) {
    assert_eq!(rt;
        told(Sheet::new(page, replacement, tokens)),
        (number, value)
    );
    assert_eq!(rt; told(loaded(page, replacement, tokens)), (number, value));
}

#[test]
fn sound_tokens(rt: HostRuntime) {
    let sound = [
        token(Kind::Digits, false, 0, 2),
        token(Kind::Colon, false, 2, 1),
        token(Kind::SemiColon, false, 3, 1),
        token(Kind::Comma, false, 4, 1),
        token(Kind::Pipe, false, 5, 1),
        token(Kind::DoubleQuote, false, 6, 1),
        token(Kind::Backslash, false, 7, 1),
        token(Kind::Newline, false, 8, 1),
        token(Kind::Whitespace, false, 9, 1),
        token(Kind::Word, false, 10, 1),
        token(Kind::Digits, true, 0, 2),
        token(Kind::Pipe, true, 3, 1),
        token(Kind::Word, false, 0, 11),
        token(Kind::Star, false, 8, 1),
        raw(0, true, 0, 4),
        raw(0, false, 0, 1),
    ];
    expect(&rt, PAGE, REPLACEMENT, &sound, 0, 16);
}

#[test]
fn each_unsound_alone(rt: HostRuntime) {
    let unsound = [
        raw(51, false, 0, 1),
        raw(255, false, 0, 1),
        token(Kind::Discard, false, 0, 1),
        token(Kind::Eof, false, 0, 1),
        token(Kind::Word, false, 0, 0),
        token(Kind::Word, false, 0, 12),
        token(Kind::Word, false, 11, 1),
        token(Kind::Word, true, 0, 5),
        token(Kind::Word, false, 4_294_967_295, 4_294_967_295),
        token(Kind::Digits, false, 1, 2),
        token(Kind::Digits, true, 0, 3),
        token(Kind::Colon, false, 2, 2),
        token(Kind::Colon, false, 3, 1),
        token(Kind::SemiColon, false, 2, 1),
        token(Kind::Comma, false, 5, 1),
        token(Kind::Pipe, false, 4, 1),
        token(Kind::DoubleQuote, false, 7, 1),
        token(Kind::Backslash, false, 6, 1),
        token(Kind::Newline, false, 9, 1),
        token(Kind::Newline, true, 2, 1),
    ];
    for t in unsound {
        expect(&rt, PAGE, REPLACEMENT, &[t], 12, 0);
    }
}

#[test]
fn first_of_several(rt: HostRuntime) {
    let good = token(Kind::Word, false, 10, 1);
    let bad = token(Kind::Eof, false, 0, 1);
    expect(&rt, PAGE, REPLACEMENT, &[good, bad, bad], 12, 1);
    expect(&rt, PAGE, REPLACEMENT, &[bad, good], 12, 0);
    expect(&rt, PAGE, REPLACEMENT, &[good, good, bad], 12, 2);
    expect(&rt, b"", b"", &[], 0, 0);
}

#[test]
fn limits_and_their_order(rt: HostRuntime) -> Result<(), Fail> {
    let heap = rt.alloc();
    let text = vec![in heap; b'x'; MAX_TEXT + 1]?;
    let bad = token(Kind::Eof, false, 0, 1);
    let many = vec![in heap; bad; MAX_TOKENS + 1]?;
    let good = vec![in heap; token(Kind::Word, false, 0, 1); MAX_TOKENS + 1]?;
    assert!(rt;
        text.len() == MAX_TEXT + 1 && many.len() == MAX_TOKENS + 1 && good.len() == MAX_TOKENS + 1
    );
    let long = text.as_slice();
    let full = &long[0..MAX_TEXT];
    let (most, over) = (&good.as_slice()[0..MAX_TOKENS], good.as_slice());
    expect(
        &rt,
        full,
        full,
        &[token(Kind::Word, true, 0, 1_048_576)],
        0,
        1,
    );
    expect(&rt, long, b"", &[], 10, 0);
    expect(&rt, b"", long, &[], 10, 0);
    expect(&rt, full, b"", most, 0, MAX_TOKENS);
    expect(&rt, full, b"", over, 11, 0);
    expect(&rt, b"", long, over, 10, 0);
    expect(&rt, full, b"", &many.as_slice()[0..MAX_TOKENS], 12, 0);
    expect(&rt, full, b"", many.as_slice(), 11, 0);
    expect(&rt, long, long, many.as_slice(), 10, 0);
    Ok(())
}

fn piece(token: u32, offset: u32, length: u32) -> Piece {
    Piece {
        token,
        offset,
        length,
    }
}

#[test]
fn pieces(rt: HostRuntime) -> Result<(), Fail> {
    let tokens = [
        token(Kind::Digits, false, 0, 2),
        token(Kind::Digits, true, 0, 2),
        token(Kind::Pipe, true, 3, 1),
    ];
    let mut sheet = Sheet::empty();
    assert!(rt; sheet.load(PAGE, REPLACEMENT, &tokens).is_ok());
    assert_eq!(rt;
        sheet.bytes(piece(0, 0, 2)).ok_or("none")?,
        b"12".as_slice()
    );
    assert_eq!(rt; sheet.bytes(piece(1, 1, 1)).ok_or("none")?, b"4".as_slice());
    assert_eq!(rt; sheet.bytes(piece(1, 2, 0)).ok_or("none")?, b"".as_slice());
    assert!(rt; sheet.bytes(piece(1, 1, 2)).is_none() && sheet.kind(piece(1, 1, 2)).is_none());
    assert!(rt; sheet.bytes(piece(3, 0, 0)).is_none() && sheet.kind(piece(3, 0, 0)).is_none());
    assert_eq!(rt; sheet.kind(piece(2, 0, 1)).ok_or("none")?, Kind::Pipe);
    assert_eq!(rt; sheet.kind(piece(0, 1, 1)).ok_or("none")?, Kind::Word);
    Ok(())
}
