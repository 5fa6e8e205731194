// CSV cells.
ghost use Rattle.std.specs.Prelude.{◌≡◌, ◌+◌, ◌<◌, true, false, ◌&&◌, IfOk, IfErr, MatchResult};
ghost use Rattle.sheet.specs.Left.{left, left_at, seen_at};
ghost use Rattle.sheet.specs.Limits.{max_tokens};
ghost use Rattle.sheet.specs.View.{view};
ghost use Rattle.cut.specs.Answer.{cutter_told};
ghost use Rattle.cut.specs.Csv.{csv_plain, csv_at, csv_role, csv_begin, quote_next};
ghost use Rattle.cut.specs.Separators.{is_separator, quotes, separator_of};
ghost use Rattle.cut.specs.Skips.{csv_less, csv_all};
ghost use Rattle.cut.specs.Insides.{InsideLeft};
ghost use Rattle.cut.specs.Formats.{csv_moves};

use crate::blanks::skip_blanks;
use crate::machine::{Format, Opening, Opens, Role, State};
use crate::types::{CutterRefusal, Separator};
use sheet::{Kind, Place, Seen, Sheet};

/// The cutter of comma-separated values: a field may stand in double quotes.
#[derive(Clone, Copy, Debug, PartialEq, Eq, Hash)]
pub struct Csv {
    separator: Separator,
}

impl Csv {
    // CSV, DSV and Prefix each have a `new` of one line: one for all would need a type parameter in their names.

    /// A cutter with this separator; refused 2 unless it is a printable byte from `!` to `~` other than `"` and `\`.
    pub fn new(separator: u8) -> Result<Csv, CutterRefusal>
        ensures allowed { MatchResult result (λ _. is_separator separator ≡ true) (λ _. is_separator separator ≡ false) }
        ensures separator { IfOk result (λ k. k.separator ≡ separator_of separator) }
        ensures refused { IfErr result (λ e. (cutter_told e).number ≡ 2) }
    {
        Ok(Csv {
            separator: Separator::try_from(separator)?,
        })
    }
}

// A sheet beside a place, and beside what is seen: blanks.rt says why no struct holds the two.

/// Whether a quote stands at a place.
fn quote_at(sheet: &Sheet<'_>, place: Place) -> bool
    ensures { result ≡ quote_next (left_at (view sheet.now) place) }
{
    sheet
        .see(place)
        .is_some_and(|seen| seen.is(Kind::DoubleQuote))
}

/// Whether a quote inside quotes is followed by another.
fn is_pair(sheet: &Sheet<'_>, inside: bool, seen: Seen<'_>) -> bool
    ensures { result ≡ (inside && (quotes (seen_at seen.entry) && quote_next (left (view sheet.now) (seen.entry.place.token + 1) 0))) }
{
    inside && seen.is(Kind::DoubleQuote) && quote_at(sheet, seen.behind())
}

impl Csv {
    /// What a token does outside quotes, if it is no quote.
    fn plain_role(&self, seen: Seen<'_>) -> Role
        ensures { result ≡ csv_plain self.now.separator (seen_at seen.entry) }
    {
        if seen.kind == Kind::Newline {
            return Role::EndsLine;
        }
        if self.separator.separates(seen) {
            return Role::Separates;
        }
        self.separator.split_role(seen)
    }

    /// What a token does, inside quotes or not, by whether a quote follows it.
    fn role_at(&self, inside: bool, next: bool, seen: Seen<'_>) -> Role
        ensures { result ≡ csv_at self.now.separator inside next (seen_at seen.entry) }
    {
        // A `match` with guards, and no chain of `if`: the project asks for this form here.
        match seen.kind {
            Kind::DoubleQuote if !seen.replaced && inside && next => Role::Drops(State::Doubled),
            Kind::DoubleQuote if !seen.replaced && inside => Role::Drops(State::Plain),
            Kind::DoubleQuote if !seen.replaced => Role::Notes,
            kind if inside => Role::Takes(State::Inside, kind == Kind::Newline),
            _ => self.plain_role(seen),
        }
    }
}

impl Format for Csv {
    ghost role = { λ k. csv_role k.separator };

    fn role(&self, sheet: &Sheet<'_>, state: State, seen: Seen<'_>) -> Role {
        if state == State::Doubled {
            return Role::Takes(State::Inside, false);
        }
        let inside = state.is_inside();
        let next = is_pair(sheet, inside, seen);
        self.role_at(inside, next, seen)
    }
}

impl Opens for Csv {
    ghost begin = { λ _. csv_begin };

    ghost moves = { λ k. csv_moves k.separator };

    ghost less = { λ k ts. csv_less ts };

    ghost inside = { λ k v ts h. csv_all (InsideLeft v) ts h };

    fn open_field(&self, sheet: &Sheet<'_>, place: Place) -> Opening {
        match sheet.see(place) {
            Some(seen) if seen.is(Kind::DoubleQuote) => Opening {
                state: State::Inside,
                place: skip_blanks(sheet, seen.behind(), false).place,
                quote: Some(seen.place.token as u32),
            },
            _ => Opening {
                state: State::Plain,
                place,
                quote: None,
            },
        }
    }
}
