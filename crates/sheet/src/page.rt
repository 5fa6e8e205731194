// The record of a sheet, with what is always true of one.
ghost use Rattle.std.specs.Prelude.{◌≡◌, ◌≤◌, true, length};
ghost use Rattle.sheet.specs.Limits.{max_text, max_tokens};
ghost use Rattle.sheet.specs.Sound.{all_sound};

pub mod calls;
mod check;
pub mod see;

use crate::records::Token;

/// A page, a replacement text and tokens, within the limits and with every token sound. `Sheet::new`,
/// `Sheet::empty` and `Sheet::load` make one, and nothing else does.
#[derive(Clone, Copy, Debug, PartialEq, Eq, Hash)]
pub struct Sheet<'a> {
    page: &'a [u8],
    replacement: &'a [u8],
    tokens: &'a [Token],
    ghost short_page: { length page.now ≤ max_text },
    ghost short_replacement: { length replacement.now ≤ max_text },
    ghost few_tokens: { length tokens.now ≤ max_tokens },
    ghost sound: { all_sound page.now replacement.now tokens.now ≡ true },
}
