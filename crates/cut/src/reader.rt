// A cell read token by token, in any format.
ghost use Rattle.std.specs.Prelude.{◌≡◌, ◌-◌, ◌<◌, ◌+◌, ◌≤◌, None, Some, length};
ghost use Rattle.std.specs.Iterator.{at_most};
ghost use Rattle.sheet.specs.Left.{left_at};
ghost use Rattle.sheet.specs.Limits.{max_tokens};
ghost use Rattle.sheet.specs.View.{view};
ghost use Rattle.cut.specs.Field.{field};
ghost use Rattle.cut.specs.declared.machine.State.TheVariants.{Plain};
ghost use Rattle.cut.specs.Readers.{StepIs, reach, reading};

use crate::machine::{Close, Format, Role, State};
use sheet::{Kind, Piece, Place, Sheet};

/// What a token that does not close a cell does in it.
#[derive(Clone, Copy, Debug, PartialEq, Eq, Hash)]
pub enum Step {
    /// becomes a piece, of a kind, and marks a line end or not
    Takes {
        piece: Piece,
        kind: Kind,
        line: bool,
    },
    /// is dropped
    Drops,
    /// is dropped with a note
    Notes {
        token: u32,
    },
}

/// A cell that is being read: it steps from token to token until one closes the cell, or the end does.
#[derive(Clone, Copy)]
pub struct Reader<'r, 's, F> {
    pub sheet: &'r Sheet<'s>,
    pub format: &'r F,
    /// how the cell is read on
    pub state: State,
    /// where it is read on; where the rest of the page begins, once the cell is closed
    pub place: Place,
    /// what closed it
    // No enum of an open and a closed cell: each would hold the place and the state, which are read before and after.
    pub closed: Option<Close>,
}

impl<'r, 's, F: Format> Reader<'r, 's, F> {
    /// A reader of the cell whose text begins at a place, in a state.
    pub fn new(sheet: &'r Sheet<'s>, format: &'r F, state: State, place: Place) -> Self
        ensures sheet { result.sheet ≡ sheet.entry }
        ensures reading { reading F.Format.role result ≡ field (F.Format.role format.now) state (left_at (view sheet.now) place) }
    {
        Reader {
            sheet,
            format,
            state,
            place,
            closed: None,
        }
    }

    /// The reader further on, in a state.
    fn further(self, state: State, place: Place) -> Self
        ensures { result ≡ record { sheet = self.entry.sheet; format = self.entry.format; state = state; place = place; closed = self.entry.closed } }
    {
        Reader {
            state,
            place,
            ..self
        }
    }

    /// The reader once the cell is closed and the rest of the page begins at a place.
    fn shut(self, close: Close, rest: Place) -> Self
        ensures { result ≡ record { sheet = self.entry.sheet; format = self.entry.format; state = Plain; place = rest; closed = Some close } }
    {
        Reader {
            state: State::Plain,
            place: rest,
            closed: Some(close),
            ..self
        }
    }

    /// What the token in front does, and the reader behind it.
    // Always inlined, as is `next`: a step that is a function of its own copies the reader in and out, and so takes as long
    // again as all else that is done with a token.
    #[inline(always)]
    fn step(self) -> (Option<Step>, Self)
        ensures { StepIs F.Format.role self.entry result.0 result.1 }
    {
        if self.closed.is_some() {
            return (None, self);
        }
        let Some(seen) = self.sheet.see(self.place) else {
            return (
                None,
                Reader {
                    closed: Some(Close::End),
                    ..self
                },
            );
        };
        let place = seen.place;
        match self.format.role(self.sheet, self.state, seen) {
            Role::EndsLine => (None, self.shut(Close::Line, seen.behind())),
            Role::Separates => (
                None,
                self.shut(Close::Mark, self.sheet.behind_bytes(place, 1)),
            ),
            Role::Starts => (None, self.shut(Close::Mark, place)),
            Role::Splits(size, past) => (
                Some(Step::Takes {
                    piece: Piece {
                        length: size as u32,
                        ..seen.piece()
                    },
                    kind: Kind::Word,
                    line: false,
                }),
                self.shut(Close::Mark, self.sheet.behind_bytes(place, past)),
            ),
            Role::Drops(state) => (Some(Step::Drops), self.further(state, seen.behind())),
            Role::Takes(state, line) => (
                Some(Step::Takes {
                    piece: seen.piece(),
                    kind: seen.kind,
                    line,
                }),
                self.further(state, seen.behind()),
            ),
            Role::Notes => (
                Some(Step::Notes {
                    token: place.token as u32,
                }),
                self.further(State::Plain, seen.behind()),
            ),
        }
    }
}

impl<'r, 's, F: Format> Iterator for Reader<'r, 's, F> {
    type Item = Step;

    ghost next_gives = { StepIs F.Format.role };

    ghost remaining = { λ r. at_most (max_tokens - reach F.Format.role r) };

    #[inline(always)]
    fn next(&mut self) -> Option<Step> {
        let (step, behind) = self.step();
        *self = behind;
        step
    }
}
