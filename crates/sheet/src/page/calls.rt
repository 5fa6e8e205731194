// Making a sheet, and reading it.
ghost use Rattle.std.specs.Prelude.{◌≡◌, ◌+◌, ◌≤◌, [], length, Some, None, IfOk, IfSome, MatchResult, OnErr, OnOk};
ghost use Rattle.std.specs.Option.{option_map};
ghost use Rattle.sheet.specs.Kinds.{number_of, word};
ghost use Rattle.sheet.specs.Refusals.{told, refusal_of};
ghost use Rattle.sheet.specs.Sound.{text_of};
ghost use Rattle.sheet.specs.View.{view, around, part_of, kind_from, piece_bytes, piece_kind, is_newline_piece};

use super::Sheet;
use super::check::{first_unsound, kind_of, text_of};
use crate::kind::Kind;
use crate::limits::{MAX_TEXT, MAX_TOKENS};
use crate::records::{Piece, Token};
use crate::refusal::SheetRefusal;

/// The bytes of a token from an offset on: a part of the one text or of the other, by the token's flag.
fn part<'a>(page: &'a [u8], replacement: &'a [u8], token: Token, piece: Piece) -> &'a [u8]
    requires { token.start + (piece.offset + piece.length) ≤ length (text_of page.now replacement.now token.replaced) }
    ensures { result.now ≡ part_of page.now replacement.now token piece }
{
    let text = text_of(page, replacement, token.replaced);
    let start = token.start as usize + piece.offset as usize;
    let end = start + piece.length as usize;
    &text[start..end]
}

/// The kind of what a token has from an offset on.
// By numbers, as in a token: this is asked with any.
pub fn kind_from(offset: usize, kind: u8) -> u8
    ensures { result ≡ kind_from offset kind }
{
    if offset == 0 {
        kind
    } else {
        Kind::Word.number()
    }
}

impl<'a> Sheet<'a> {
    /// The sheet of nothing: no page, no replacement text, no tokens.
    pub fn empty() -> Sheet<'a>
        ensures { view result ≡ record { page = []; replacement = []; tokens = [] } }
    {
        Sheet {
            page: &[],
            replacement: &[],
            tokens: &[],
        }
    }

    /// The sheet of a page, a replacement text and tokens. Refused, in this order: 10 where a text is too long, 11 where
    /// there are too many tokens, 12 with the number of the first token that is not sound.
    pub fn new(
        page: &'a [u8],
        replacement: &'a [u8],
        tokens: &'a [Token],
    ) -> Result<Sheet<'a>, SheetRefusal>
        ensures refusal { MatchResult result
            (λ _. refusal_of page.now replacement.now tokens.now ≡ None)
            (λ e. refusal_of page.now replacement.now tokens.now ≡ Some (told e)) }
        ensures holds { IfOk result (λ s. view s ≡ record { page = page.now; replacement = replacement.now; tokens = tokens.now }) }
    {
        if page.len() > MAX_TEXT || replacement.len() > MAX_TEXT {
            return Err(SheetRefusal::TextTooLong);
        }
        if tokens.len() > MAX_TOKENS {
            return Err(SheetRefusal::TooManyTokens);
        }
        if let Some(token) = first_unsound(page, replacement, tokens) {
            return Err(SheetRefusal::UnsoundToken { token });
        }
        Ok(Sheet {
            page,
            replacement,
            tokens,
        })
    }

    /// Makes this the sheet of a page, a replacement text and tokens, as `new` does. A refusal leaves the sheet as it
    /// was.
    pub fn load(
        &mut self,
        page: &'a [u8],
        replacement: &'a [u8],
        tokens: &'a [Token],
    ) -> Result<(), SheetRefusal>
        ensures refusal { MatchResult result
            (λ _. refusal_of page.now replacement.now tokens.now ≡ None)
            (λ e. refusal_of page.now replacement.now tokens.now ≡ Some (told e)) }
        ensures holds { OnOk result (view self.new ≡ record { page = page.now; replacement = replacement.now; tokens = tokens.now }) }
        ensures stays { OnErr result (view self.new ≡ view self.old) }
    {
        *self = Sheet::new(page, replacement, tokens)?;
        Ok(())
    }

    /// The page.
    pub fn page(&self) -> &'a [u8]
        ensures { result.now ≡ (view self.now).page }
    {
        self.page
    }

    /// The replacement text.
    pub fn replacement(&self) -> &'a [u8]
        ensures { result.now ≡ (view self.now).replacement }
    {
        self.replacement
    }

    /// The tokens, in page order.
    pub fn tokens(&self) -> &'a [Token]
        ensures { result.now ≡ (view self.now).tokens }
    {
        self.tokens
    }

    /// The token that a piece lies inside, with what is known of it on a sheet.
    fn around(&self, piece: Piece) -> Option<Token>
        ensures value { result ≡ around (view self.now) piece }
        ensures kind { IfSome result (λ t. t.kind ≤ word) }
        ensures within { IfSome result (λ t. t.start + (piece.offset + piece.length)
            ≤ length (text_of self.now.page.now self.now.replacement.now t.replaced)) }
    {
        let token = self.token(piece.token as usize)?;
        let end = piece.offset as usize + piece.length as usize;
        if end > token.length as usize {
            return None;
        }
        Some(token)
    }

    /// The bytes of a piece, or `None` where it lies inside no token.
    pub fn bytes(&self, piece: Piece) -> Option<&'a [u8]>
        ensures { option_map (λ x. x.now) result ≡ piece_bytes (view self.now) piece }
    {
        let token = self.around(piece)?;
        Some(part(self.page, self.replacement, token, piece))
    }

    /// The kind of a piece: its token's where it begins at the token's front, else Word; `None` where it lies
    /// inside no token.
    pub fn kind(&self, piece: Piece) -> Option<Kind>
        ensures { option_map number_of result ≡ piece_kind (view self.now) piece }
    {
        let token = self.around(piece)?;
        Some(kind_of(kind_from(piece.offset as usize, token.kind)))
    }

    /// Whether a piece is a Newline.
    pub fn is_newline(&self, piece: Piece) -> bool
        ensures { result ≡ is_newline_piece (view self.now) piece }
    {
        self.kind(piece) == Some(Kind::Newline)
    }
}
