// The lines of a text, one after the other, and the place of a byte by its line and its column.
ghost use Rattle.std.specs.Prelude.{◌≡◌, ◌+◌, ◌<◌, ◌≤◌, true, length, take};
ghost use Rattle.document.specs.Lines.{is_line_start, feeds, behind_feed};

use crate::bytes::{find, trim_end};

/// A line of a text.
#[derive(Clone, Copy, Debug)]
pub struct Line<'a> {
    /// its bytes, without its line feed and without the blanks at its end
    pub bytes: &'a [u8],
    /// where it begins
    pub start: usize,
    /// where the next line begins, or the text's end
    pub next: usize,
    /// how many lines stand before it
    pub before: usize,
    ghost few: { before ≤ start },
}

/// The lines of a text that are left: those from an offset on, at which one begins, or none at the text's end.
#[derive(Clone, Copy, Debug)]
pub struct Lines<'a> {
    pub text: &'a [u8],
    pub at: usize,
    /// how many lines stand before them
    pub before: usize,
    ghost within: { at ≤ length text.now },
    ghost few: { before ≤ at },
    ghost begins: { at < length text.now → is_line_start text.now at ≡ true },
    ghost counted: { at < length text.now → before ≡ feeds (take at text.now) },
}

/// Where a byte stands: the number of its line and its number in that line, both from 1 on.
#[derive(Clone, Copy, Debug, PartialEq, Eq, Hash)]
pub struct Place {
    pub line: usize,
    pub column: usize,
}

impl<'a> Lines<'a> {
    /// All lines of a text.
    pub fn new(text: &'a [u8]) -> Lines<'a>
        ensures text { result.text.now ≡ text.now }
        ensures at { result.at ≡ 0 }
        ensures before { result.before ≡ 0 }
    {
        Lines {
            text,
            at: 0,
            before: 0,
        }
    }
}

impl<'a> Iterator for Lines<'a> {
    ghost use Rattle.document.specs.Walks.{Advances, bytes_left};

    type Item = Line<'a>;

    ghost next_gives = { Advances };

    ghost remaining = { bytes_left };

    fn next(&mut self) -> Option<Line<'a>> {
        let start = self.at;
        if start == self.text.len() {
            return None;
        }
        let rest = &self.text[start..];
        let size = find(rest, b'\n');
        // Counted from this line's front: from the text's, the search for a closing line took a tenth more instructions.
        let next = start + rest.len().min(size + 1);
        let before = self.before;
        self.at = next;
        self.before = before + 1;
        Some(Line {
            bytes: trim_end(&rest[..size]),
            start,
            next,
            before,
        })
    }
}

/// The place of the byte at an offset; an offset at or past the end has the place behind the last byte.
pub fn place_of(text: &[u8], offset: usize) -> Place
    ensures line { result.line ≡ 1 + feeds (take offset text.now) }
    ensures column { result.column ≡ 1 + behind_feed (take offset text.now) }
{
    let head = &text[..offset.min(text.len())];
    let feeds = head.iter().filter(|byte| **byte == b'\n').count();
    let behind = head.iter().rev().take_while(|byte| **byte != b'\n').count();
    Place {
        line: 1 + feeds,
        column: 1 + behind,
    }
}
