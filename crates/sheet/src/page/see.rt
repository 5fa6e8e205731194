// What stands at a place of a sheet.
ghost use Rattle.std.specs.Prelude.{◌≡◌, ◌+◌, ◌<◌, ◌≤◌, [], ◌∷◌, length, drop, IfSome, MatchOption};
ghost use Rattle.std.specs.List.{slice_get};
ghost use Rattle.sheet.specs.Kinds.{word};
ghost use Rattle.sheet.specs.Limits.{max_text, max_tokens};
ghost use Rattle.sheet.specs.Sound.{text_of};
ghost use Rattle.sheet.specs.View.{view};
ghost use Rattle.sheet.specs.Left.{left_at, left, seen_at, behind_bytes, behind_token, front_number};

use super::Sheet;
use super::calls::kind_from;
use super::check::{kind_of, text_of};
use crate::records::{Place, Position, Token};
use crate::seen::Seen;

impl<'a> Sheet<'a> {
    /// The token of a number, with what is known of it on a sheet.
    pub(super) fn token(&self, number: usize) -> Option<Token>
        ensures value { result ≡ slice_get self.now.tokens.now number }
        ensures found { MatchOption result (drop number self.now.tokens.now ≡ [])
            (λ t. drop number self.now.tokens.now ≡ t ∷ drop (number + 1) self.now.tokens.now) }
        ensures few { IfSome result (λ _. number < max_tokens) }
        ensures kind { IfSome result (λ t. t.kind ≤ word) }
        ensures some { IfSome result (λ t. 0 < t.length) }
        ensures short { IfSome result (λ t. t.start + t.length ≤ max_text) }
        ensures within { IfSome result (λ t. t.start + t.length
            ≤ length (text_of self.now.page.now self.now.replacement.now t.replaced)) }
    {
        let token = self.tokens.get(number)?;
        Some(*token)
    }

    /// What stands at a place, or `None` where nothing is left.
    pub fn see(&self, place: Place) -> Option<Seen<'a>>
        ensures seen { MatchOption result (left_at (view self.now) place ≡ [])
            (λ s. left_at (view self.now) place ≡ seen_at s ∷ left (view self.now) (place.token + 1) 0) }
        ensures here { IfSome result (λ s. s.place ≡ place) }
    {
        let token = self.token(place.token)?;
        let length = token.length as usize;
        if place.offset >= length {
            return None;
        }
        let text = text_of(self.page, self.replacement, token.replaced);
        let start = token.start as usize;
        let bytes = &text[start + place.offset..start + length];
        let kind = kind_of(kind_from(place.offset, token.kind));
        Some(Seen {
            place,
            kind,
            replaced: token.replaced,
            bytes,
        })
    }

    /// The place behind the first `count` bytes of what stands at a place.
    pub fn behind_bytes(&self, place: Place, count: usize) -> Place
        ensures { left_at (view self.now) result ≡ behind_bytes count (left_at (view self.now) place) }
    {
        let Some(token) = self.token(place.token) else {
            return place;
        };
        let length = token.length as usize;
        if place.offset >= length {
            return place;
        }
        if count < length - place.offset {
            Place {
                token: place.token,
                offset: place.offset + count,
            }
        } else {
            Place::front(place.token + 1)
        }
    }

    /// The place behind what stands at a place.
    pub fn behind_token(&self, place: Place) -> Place
        ensures { left_at (view self.now) result ≡ behind_token (left_at (view self.now) place) }
    {
        match self.see(place) {
            Some(seen) => seen.behind(),
            None => place,
        }
    }

    /// The place of a position; off the sheet it is the sheet's end.
    pub fn place_of(&self, at: Position) -> Place
        ensures same { left_at (view self.now) result ≡ left (view self.now) at.token at.offset }
        ensures first { result.token ≡ front_number (length (view self.now).tokens) (left (view self.now) at.token at.offset) }
    {
        match self.see(Place::from(at)) {
            Some(seen) => seen.place,
            None => Place::front(self.tokens.len()),
        }
    }
}
