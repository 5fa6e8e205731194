// Where a cell starts.
ghost use Rattle.std.specs.Prelude.{◌≡◌, [], ◌∷◌};
ghost use Rattle.sheet.specs.Kinds.{number_of};
ghost use Rattle.sheet.specs.Left.{left_at};
ghost use Rattle.sheet.specs.View.{view};
ghost use Rattle.starts.specs.Fronts.{begins, in_front, has_byte, single, just};
ghost use Rattle.starts.specs.Parts.{written};
ghost use Rattle.starts.specs.Reads.{said_by};
ghost use Rattle.starts.specs.Start.{style_in, horizontal_of, vertical_over, specified, plain_start, short_start, long_start, start_behind, start_of, may_start, StartIs};

use crate::parts::{Parts, Span, read_parts};
use crate::specifier::{Horizontal, Specifier, Start, Vertical};
use sheet::{Kind, Place, Sheet};
use styles::Style;

// A sheet and a place go side by side, and not as a cursor: the place is another one at nearly every call, and a struct of
// the two would be made for each.

/// The style that the token at a place names: a Word, by its first letter.
fn style_at(sheet: &Sheet<'_>, place: Place) -> Option<Style>
    ensures { result ≡ in_front style_in (left_at (view sheet.now) place) }
{
    let seen = sheet.see(place)?;
    if !seen.is(Kind::Word) {
        return None;
    }
    Style::named(char::from(seen.bytes[0]))
}

/// Whether the token at a place has a byte at an offset into it.
fn has_byte(sheet: &Sheet<'_>, place: Place, byte: u8, offset: usize) -> bool
    ensures { result ≡ begins (has_byte byte offset ∷ []) (left_at (view sheet.now) place) }
{
    sheet.see(place).is_some_and(|seen| !seen.replaced && seen.bytes.get(offset) == Some(&byte))
}

/// Whether the token at a place has one byte.
fn is_single(sheet: &Sheet<'_>, place: Place) -> bool
    ensures { result ≡ begins (single ∷ []) (left_at (view sheet.now) place) }
{
    sheet.see(place).is_some_and(|seen| seen.bytes.len() == 1)
}

/// Whether the token at a place is just a byte.
fn is_just(sheet: &Sheet<'_>, place: Place, byte: u8) -> bool
    ensures { result ≡ begins (just byte ∷ []) (left_at (view sheet.now) place) }
{
    is_single(sheet, place) && has_byte(sheet, place, byte, 0)
}

impl Parts {
    /// Whether a part is there.
    fn is_written(&self) -> bool
        ensures { result ≡ written self.now }
    {
        self.factor.is_some()
            || self.span.is_some()
            || self.alignment.is_some()
            || self.vertical.is_some()
    }

    /// The vertical alignment that the parts name: a sign behind a dot goes over `<.>`.
    fn vertical(&self) -> Option<Vertical>
        ensures { result ≡ vertical_over self.now.vertical self.now.alignment }
    {
        self.vertical.or(self.alignment.and_then(|a| a.vertical))
    }

    /// The horizontal alignment that the parts name.
    fn horizontal(&self) -> Option<Horizontal>
        ensures { result ≡ horizontal_of self.now.alignment }
    {
        self.alignment.map(|a| a.horizontal)
    }

    /// The specifier that the parts and a style make.
    fn specifier(&self, style: Option<Style>) -> Specifier
        ensures { result ≡ specified self.now style }
    {
        let span = self.span.unwrap_or(Span {
            columns: 1,
            rows: 1,
        });
        Specifier {
            factor: self.factor.unwrap_or(1),
            columns: span.columns,
            rows: span.rows,
            horizontal: self.horizontal(),
            vertical: self.vertical(),
            style: style.map(Style::number),
        }
    }
}

/// What stands before a separator: the parts, and the place behind them.
#[derive(Clone, Copy)]
struct Front<'s, 'a> {
    sheet: &'s Sheet<'a>,
    separator: u8,
    parts: Parts,
    rest: Place,
}

impl<'s, 'a> Front<'s, 'a> {
    /// A start with no style.
    fn plain(&self) -> Option<Start>
        ensures { StartIs (view self.now.sheet.now) result (plain_start self.now.separator (said_by self.now)) }
    {
        if !self.parts.is_written() || !is_just(self.sheet, self.rest, self.separator) {
            return None;
        }
        Some(Start {
            specifier: self.parts.specifier(None),
            rest: self.sheet.behind_token(self.rest),
        })
    }

    /// A start with a style Word of one letter.
    fn short(&self, style: Style) -> Option<Start>
        ensures { StartIs (view self.now.sheet.now) result (short_start self.now.separator (said_by self.now) style) }
    {
        let next = self.sheet.behind_token(self.rest);
        if !is_just(self.sheet, next, self.separator) {
            return None;
        }
        Some(Start {
            specifier: self.parts.specifier(Some(style)),
            rest: self.sheet.behind_token(next),
        })
    }

    /// A start with a longer style Word, whose second byte is the separator.
    fn long(&self, style: Style) -> Option<Start>
        ensures { StartIs (view self.now.sheet.now) result (long_start self.now.separator (said_by self.now) style) }
    {
        if !self.parts.is_written() || !has_byte(self.sheet, self.rest, self.separator, 1) {
            return None;
        }
        Some(Start {
            specifier: self.parts.specifier(Some(style)),
            rest: self.sheet.behind_bytes(self.rest, 2),
        })
    }

    /// A start behind the parts.
    fn start(&self) -> Option<Start>
        ensures { StartIs (view self.now.sheet.now) result (start_behind self.now.separator (said_by self.now)) }
    {
        match style_at(self.sheet, self.rest) {
            None => self.plain(),
            Some(style) if is_single(self.sheet, self.rest) => self.short(style),
            Some(style) => self.long(style),
        }
    }
}

/// Whether a specifier can begin with an unreplaced token of a kind and a first byte.
fn may_start(kind: Kind, first: u8) -> bool
    ensures { result ≡ may_start (number_of kind) first }
{
    match kind {
        Kind::Digits
        | Kind::Dots
        | Kind::LessThan
        | Kind::GreaterThan
        | Kind::Caret
        | Kind::CalloutNumber => true,
        Kind::Word => Style::named(char::from(first)).is_some(),
        _ => false,
    }
}

/// The start of a cell at a place, for a separator byte: a token that begins with that byte, which is dropped, or a
/// specifier with a separator behind it. `None` where no cell starts; most places are told by one look at the token.
pub fn read_start(sheet: &Sheet<'_>, separator: u8, place: Place) -> Option<Start>
    ensures { StartIs (view sheet.now) result (start_of separator (left_at (view sheet.now) place)) }
{
    let seen = sheet.see(place)?;
    if seen.replaced {
        return None;
    }
    let first = seen.bytes[0];
    if first == separator {
        return Some(Start {
            specifier: Specifier::NOTHING,
            rest: sheet.behind_bytes(place, 1),
        });
    }
    if !may_start(seen.kind, first) {
        return None;
    }
    let (parts, rest) = read_parts(sheet, place);
    let front = Front {
        sheet,
        separator,
        parts,
        rest,
    };
    front.start()
}
