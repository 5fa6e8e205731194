// DSV cells.
ghost use Rattle.std.specs.Prelude.{◌≡◌, ◌<◌, true, false, IfOk, IfErr, MatchResult};
ghost use Rattle.sheet.specs.Left.{seen_at};
ghost use Rattle.cut.specs.Answer.{cutter_told};
ghost use Rattle.cut.specs.Dsv.{dsv_plain, dsv_role, dsv_begin};
ghost use Rattle.cut.specs.Separators.{is_separator, separator_of};
ghost use Rattle.cut.specs.Skips.{dsv_less, dsv_all};
ghost use Rattle.cut.specs.Insides.{InsideLeft};
ghost use Rattle.cut.specs.Formats.{dsv_moves};

use crate::machine::{Format, Opening, Opens, Role, State};
use crate::types::{CutterRefusal, Separator};
use sheet::{Kind, Place, Seen, Sheet};

/// The cutter of delimiter-separated values: a Backslash escapes the next token.
#[derive(Clone, Copy, Debug, PartialEq, Eq, Hash)]
pub struct Dsv {
    separator: Separator,
}

impl Dsv {
    /// A cutter with this separator; refused 2 unless it is a printable byte from `!` to `~` other than `"` and `\`.
    pub fn new(separator: u8) -> Result<Dsv, CutterRefusal>
        ensures allowed { MatchResult result (λ _. is_separator separator ≡ true) (λ _. is_separator separator ≡ false) }
        ensures separator { IfOk result (λ k. k.separator ≡ separator_of separator) }
        ensures refused { IfErr result (λ e. (cutter_told e).number ≡ 2) }
    {
        Ok(Dsv {
            separator: Separator::try_from(separator)?,
        })
    }
}

impl Dsv {
    // CSV's begins alike: what the two share is two tests of one line each.

    /// What a token does that is not escaped.
    fn plain_role(&self, seen: Seen<'_>) -> Role
        ensures { result ≡ dsv_plain self.now.separator (seen_at seen.entry) }
    {
        if seen.kind == Kind::Newline {
            return Role::EndsLine;
        }
        if self.separator.separates(seen) {
            return Role::Separates;
        }
        if seen.is(Kind::Backslash) {
            return Role::Drops(State::Escaped);
        }
        self.separator.split_role(seen)
    }
}

impl Format for Dsv {
    ghost role = { λ k. dsv_role k.separator };

    fn role(&self, _sheet: &Sheet<'_>, state: State, seen: Seen<'_>) -> Role {
        if state == State::Escaped {
            return Role::Takes(State::Plain, false);
        }
        self.plain_role(seen)
    }
}

impl Opens for Dsv {
    ghost begin = { λ _. dsv_begin };

    ghost moves = { λ k. dsv_moves k.separator };

    ghost less = { λ k ts. dsv_less ts };

    ghost inside = { λ k v ts h. dsv_all (InsideLeft v) ts h };

    fn open_field(&self, _sheet: &Sheet<'_>, place: Place) -> Opening {
        Opening {
            state: State::Plain,
            place,
            quote: None,
        }
    }
}
