// What stands at a place of a sheet.
ghost use Rattle.std.specs.Prelude.{◌+◌, ◌<◌, ◌≤◌, length};
ghost use Rattle.sheet.specs.Limits.{max_text, max_tokens};

pub mod calls;

use crate::kind::Kind;
use crate::records::Place;

/// What stands at a place: a token, or what is left of one. What is left behind dropped bytes is a Word. It has a byte
/// at least, and its numbers are within a sheet's limits.
#[derive(Clone, Copy, Debug, PartialEq, Eq, Hash)]
pub struct Seen<'a> {
    pub place: Place,
    pub kind: Kind,
    pub replaced: bool,
    pub bytes: &'a [u8],
    pub ghost some: { 0 < length bytes.now },
    pub ghost few: { place.token < max_tokens },
    pub ghost short: { place.offset + length bytes.now ≤ max_text },
}
