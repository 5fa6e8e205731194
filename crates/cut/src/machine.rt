// One cell read token by token: what a token can do in a cell, and the interface by which a format says it.
ghost use Rattle.std.specs.Prelude.{◌≡◌, ◌+◌, ◌<◌, ◌≤◌, List, ◌∷◌, length};
ghost use Rattle.sheet.specs.Limits.{max_tokens};
ghost use Rattle.std.specs.List.{AllByRecursion};
ghost use Rattle.sheet.specs.View.{SheetView, view};
ghost use Rattle.sheet.specs.Left.{Left as LeftToken, left, left_at, seen_at};
ghost use Rattle.cut.specs.declared.machine.Role.{Role as RoleOf};
ghost use Rattle.cut.specs.declared.machine.State.{State as StateOf};
ghost use Rattle.cut.specs.Field.{is_inside};
ghost use Rattle.cut.specs.Fields.{Begin, OpeningIs};
ghost use Rattle.cut.specs.Insides.{InsideLeft};
ghost use Rattle.cut.specs.Moves.{AllMove};
ghost use Rattle.starts.specs.Weight.{weight};
ghost use Rattle.cut.specs.Within.{Within};

use sheet::{Place, Seen, Sheet};

/// How a cell is read on.
#[derive(Clone, Copy, Debug, PartialEq, Eq, Hash)]
pub enum State {
    /// as it stands
    Plain,
    /// the next token is taken whole
    Escaped,
    /// inside quotes
    Inside,
    /// inside quotes, and the next token is a quote that is taken
    Doubled,
}

impl State {
    /// Whether quotes are open.
    pub fn is_inside(self) -> bool
        ensures { result ≡ is_inside self }
    {
        matches!(self, State::Inside | State::Doubled)
    }
}

/// What closed a cell.
#[derive(Clone, Copy, Debug, PartialEq, Eq, Hash)]
pub enum Close {
    End,
    Line,
    Mark,
}

/// What a token does in a cell.
#[derive(Clone, Copy, Debug, PartialEq, Eq, Hash)]
pub enum Role {
    /// closes it, as a line end
    EndsLine,
    /// closes it, as a separator, whose one byte is dropped
    Separates,
    /// closes it, as the start of the next
    Starts,
    /// gives its first bytes as a piece and closes it; what is left begins behind so many bytes
    Splits(usize, usize),
    /// is dropped
    Drops(State),
    /// becomes a piece, and marks a line end or not
    Takes(State, bool),
    /// is dropped with a note
    Notes,
}

/// A format: what each token does in a cell.
pub trait Format: Copy {
    ghost role: { Self → StateOf → List LeftToken → RoleOf };

    /// What a token does that is seen on a sheet.
    fn role(&self, sheet: &Sheet<'_>, state: State, seen: Seen<'_>) -> Role
        requires { left_at (view sheet.now) seen.place ≡ seen_at seen ∷ left (view sheet.now) (seen.place.token + 1) 0 }
        ensures value { result ≡ role self.now state (left_at (view sheet.now) seen.entry.place) }
        ensures within { Within result (length seen.entry.bytes.now) };
}

/// What stands behind the last piece that is kept so far: nothing, one Newline, two Newlines first, or other blanks.
// Four cases, and no `Option` of three: `Nothing` goes on to `Newline`, as `Newline` does to `Blank`.
#[derive(Clone, Copy, Debug, PartialEq, Eq, Hash)]
pub enum Tail {
    Nothing,
    Newline,
    Blank,
    Other,
}

/// How a field begins behind what is skipped: its state, where it is read on, and the token of its opening quote.
#[derive(Clone, Copy, Debug, PartialEq, Eq, Hash)]
pub struct Opening {
    pub state: State,
    pub place: Place,
    pub quote: Option<u32>,
}

/// A format of fields: how one begins.
pub trait Opens: Format {
    ghost begin: { Self → List LeftToken → Begin };

    /// How the field at a place begins.
    fn open_field(&self, sheet: &Sheet<'_>, place: Place) -> Opening
        ensures { OpeningIs (view sheet.now) result (begin self.now (left_at (view sheet.now) place)) };

    ghost moves: { (k : Self) → AllMove (Self.role k) };

    ghost less: { (k : Self) (ts : List LeftToken) → weight (begin k ts).left ≤ weight ts };

    ghost inside: { (k : Self) (v : SheetView) (ts : List LeftToken) → AllByRecursion (InsideLeft v) ts → AllByRecursion (InsideLeft v) (begin k ts).left };
}
