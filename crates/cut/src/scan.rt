// Reading one cell in any format: where it ends, its pieces, its notes.
ghost use Rattle.std.specs.Prelude.{◌≡◌, ◌+◌, ◌<◌, ◌≤◌, map, length, take, OnOk, OnErr};
ghost use Rattle.store.specs.Changes.{Same, Added};
ghost use Rattle.store.specs.Entries.{entries, room};
ghost use Rattle.sheet.specs.Kinds.{number_of};
ghost use Rattle.sheet.specs.View.{view};
ghost use Rattle.sheet.specs.Left.{piece_of};
ghost use Rattle.cut.specs.Fitting.{AddedAsFit};
ghost use Rattle.cut.specs.Notes.{number_of as note_number};
ghost use Rattle.cut.specs.Readers.{reading};
ghost use Rattle.cut.specs.Scanned.{Scanned, note_at, tail_with};

use crate::blanks::is_blank;
use crate::machine::{Close, Format, Tail};
use crate::notes::NoteKind;
use crate::reader::{Reader, Step};
use crate::types::{CutRefusal, Note};
use sheet::{Kind, Piece, Place};
use store::Store;

/// What a scan finds of a cell.
#[derive(Clone, Copy, Debug, PartialEq, Eq, Hash)]
pub struct Found {
    /// how many pieces it has once trimmed
    pub finished: usize,
    pub close: Close,
    pub rest: Place,
    pub line: bool,
    /// whether the first two pieces that trimming removes are Newlines
    pub blank: bool,
    pub notes: usize,
    /// the first token that is dropped with a note
    pub noted: Option<u32>,
    pub unclosed: bool,
}

impl Tail {
    /// The tail once a piece of a kind has passed.
    fn with(self, kind: Kind) -> Tail
        ensures { result ≡ tail_with self (number_of kind) }
    {
        match (self, kind) {
            // Asked first, as the loop over the pieces asks it: most of them are no blanks.
            (_, kind) if !is_blank(kind) => Tail::Nothing,
            (Tail::Nothing, Kind::Newline) => Tail::Newline,
            (Tail::Newline, Kind::Newline) => Tail::Blank,
            (Tail::Nothing | Tail::Newline, Kind::Whitespace) => Tail::Other,
            (tail, _) => tail,
        }
    }
}

impl<'r, 's, F: Format> Reader<'r, 's, F> {
    /// Finds where the cell is closed, and what it holds once trimmed.
    pub fn scan(mut self) -> Found
        ensures { Scanned (view self.entry.sheet.now) result (reading F.Format.role self.entry) }
    {
        // A loop that counts as it goes: one fold over the six counts would be no plainer.
        let mut passed: usize = 0;
        let mut finished: usize = 0;
        let mut line = false;
        let mut tail = Tail::Nothing;
        let mut notes: usize = 0;
        let mut noted: Option<u32> = None;
        // `while let`, and not `for`: what the reader knows of the closed cell is read behind the loop.
        'steps: while let Some(step) = self.next() {
            match step {
                Step::Takes {
                    kind,
                    line: marks,
                    ..
                } => {
                    passed += 1;
                    if !is_blank(kind) {
                        finished = passed;
                    }
                    tail = tail.with(kind);
                    line = line || marks;
                }
                Step::Drops => {}
                Step::Notes { token } => {
                    notes += 1;
                    noted = noted.or(Some(token));
                }
            }
        }
        Found {
            finished,
            close: self.closed.unwrap(),
            rest: self.place,
            line,
            blank: tail == Tail::Blank,
            notes,
            noted,
            unclosed: self.state.is_inside(),
        }
    }

    /// Writes the first `count` pieces of the cell behind the entries in use; refused 33, and nothing written, where
    /// they do not fit.
    pub fn fill(self, count: usize, pieces: &mut Store<'_, Piece>) -> Result<(), CutRefusal>
        ensures written { OnOk result (Added pieces.old pieces.new (map piece_of (take count (reading F.Format.role self.entry).texts))) }
        ensures stays { OnErr result (Same pieces.old pieces.new) }
        ensures full { OnErr result (room pieces.old < length (entries pieces.old) + count) }
    {
        // No token is read behind the last piece, since its role may be the start of the next cell.
        if count == 0 {
            return Ok(());
        }
        let used = pieces.len();
        // Counted by hand, since `take` on the steps would count what is dropped too. Tried as
        // `for piece in self.filter_map(..).take(count)`: the check could not state what the loop goes over.
        let mut wanted = count;
        'pieces: for step in self {
            if let Step::Takes { piece, .. } = step {
                let Ok(_) = pieces.push(piece) else {
                    pieces.truncate(used);
                    return Err(CutRefusal::NoRoom);
                };
                wanted -= 1;
                if wanted == 0 {
                    break;
                }
            }
        }
        Ok(())
    }

    /// Writes the notes of the tokens that are dropped with one behind those in use, as many as fit.
    pub fn fill_notes(self, kind: NoteKind, notes: &mut Store<'_, Note>)
        ensures { AddedAsFit notes.old notes.new (map (note_at (note_number kind)) (reading F.Format.role self.entry).notes) }
    {
        'notes: for step in self {
            if let Step::Notes { token } = step {
                let Ok(_) = notes.push(kind.at(token)) else {
                    return;
                };
            }
        }
    }
}
