// The parts of a specifier before its style: factor, span, alignment, vertical alignment.
ghost use Rattle.std.specs.Prelude.{◌≡◌, max, drop, IfSome};
ghost use Rattle.std.specs.Option.{option_map};
ghost use Rattle.sheet.specs.Left.{left, left_at, seen_at};
ghost use Rattle.sheet.specs.View.{view};
ghost use Rattle.starts.specs.Fronts.{dot, left_bottom};
ghost use Rattle.starts.specs.Reads.{here};
ghost use Rattle.starts.specs.Parts.{found_at, said_at, parts_of, factor_part, column_span, row_span, both_span, span_part, alignment_of, alignment_part, vertical_of, vertical_part};

use crate::cursor::Cursor;
use crate::forms::{after_both, after_digits, after_row};
use crate::specifier::{Horizontal, Vertical};
use sheet::{Kind, Place, Seen, Sheet};

/// A span of columns and rows, each at least 1.
#[derive(Clone, Copy, Debug, PartialEq, Eq, Hash)]
pub struct Span {
    pub columns: u8,
    pub rows: u8,
}

/// What a sign says of alignment.
#[derive(Clone, Copy, Debug, PartialEq, Eq, Hash)]
pub struct Alignment {
    pub horizontal: Horizontal,
    pub vertical: Option<Vertical>,
}

/// What the parts say, each perhaps missing.
#[derive(Clone, Copy, Debug, Default, PartialEq, Eq, Hash)]
pub struct Parts {
    pub factor: Option<u8>,
    pub span: Option<Span>,
    pub alignment: Option<Alignment>,
    pub vertical: Option<Vertical>,
}

/// A span as it is written: a 0 counts as 1.
fn span_of(columns: u8, rows: u8) -> Span
    ensures { result ≡ record { columns = max 1 columns; rows = max 1 rows } }
{
    Span {
        columns: columns.max(1),
        rows: rows.max(1),
    }
}

/// The bytes `<.>`.
fn is_left_bottom(bytes: &[u8]) -> bool
    ensures { result ≡ left_bottom bytes.now }
{
    bytes == b"<.>".as_slice()
}

/// What a token says of alignment.
fn alignment_of(seen: Seen<'_>) -> Option<Alignment>
    ensures { result ≡ alignment_of (seen_at seen.entry) }
{
    if seen.replaced {
        return None;
    }
    match seen.kind {
        Kind::LessThan => Some(Alignment {
            horizontal: Horizontal::Left,
            vertical: None,
        }),
        Kind::GreaterThan => Some(Alignment {
            horizontal: Horizontal::Right,
            vertical: None,
        }),
        Kind::Caret => Some(Alignment {
            horizontal: Horizontal::Center,
            vertical: None,
        }),
        Kind::CalloutNumber if is_left_bottom(seen.bytes) => {
            Some(Alignment {
                horizontal: Horizontal::Left,
                vertical: Some(Vertical::Bottom),
            })
        }
        _ => None,
    }
}

/// Dots of length 1.
fn is_dot(seen: Seen<'_>) -> bool
    ensures { result ≡ dot (seen_at seen.entry) }
{
    seen.is(Kind::Dots) && seen.bytes.len() == 1
}

/// What a token says of vertical alignment, behind a dot.
fn vertical_of(seen: Seen<'_>) -> Option<Vertical>
    ensures { result ≡ vertical_of (seen_at seen.entry) }
{
    if seen.replaced {
        return None;
    }
    match seen.kind {
        Kind::LessThan => Some(Vertical::Top),
        Kind::GreaterThan => Some(Vertical::Bottom),
        Kind::Caret => Some(Vertical::Middle),
        _ => None,
    }
}

impl<'s, 'a> Cursor<'s, 'a> {
    // The number of a factor or of a span is taken by `let .. else`, and not by `?`, a form that the project asks for: it
    // shows the part that a number above 255 leaves absent. Each form of a span is taken apart in a function of its own,
    // as the project asks too.

    /// The factor here, and the number of the token behind it.
    fn factor(self) -> (Option<u8>, usize)
        ensures { found_at (view self.entry.sheet.now) result.0 result.1 ≡ factor_part (here self.entry) }
    {
        let Some(rest) = after_digits(self.tokens(), Kind::Star) else {
            return (None, self.at);
        };
        let Some(count) = self.digits() else {
            return (None, self.at);
        };
        (Some(count), self.number_of(rest))
    }

    /// A span of columns here.
    fn column_span(self) -> Option<(Span, usize)>
        ensures span { column_span (here self.entry) ≡ option_map (λ x. x.0) result }
        ensures behind { IfSome result (λ x. left (view self.entry.sheet.now) x.1 0 ≡ drop 2 (here self.entry)) }
    {
        let rest = after_digits(self.tokens(), Kind::Plus)?;
        let Some(columns) = self.digits() else {
            return None;
        };
        Some((span_of(columns, 1), self.number_of(rest)))
    }

    /// A span of rows here.
    fn row_span(self) -> Option<(Span, usize)>
        ensures span { row_span (here self.entry) ≡ option_map (λ x. x.0) result }
        ensures behind { IfSome result (λ x. left (view self.entry.sheet.now) x.1 0 ≡ drop 3 (here self.entry)) }
    {
        let rest = after_row(self.tokens())?;
        let ahead = Cursor {
            at: self.at + 1,
            ..self
        };
        let Some(rows) = ahead.digits() else {
            return None;
        };
        Some((span_of(1, rows), self.number_of(rest)))
    }

    /// A span of columns and rows here.
    fn both_span(self) -> Option<(Span, usize)>
        ensures span { both_span (here self.entry) ≡ option_map (λ x. x.0) result }
        ensures behind { IfSome result (λ x. left (view self.entry.sheet.now) x.1 0 ≡ drop 4 (here self.entry)) }
    {
        let rest = after_both(self.tokens())?;
        let Some(columns) = self.digits() else {
            return None;
        };
        let ahead = Cursor {
            at: self.at + 2,
            ..self
        };
        let Some(rows) = ahead.digits() else {
            return None;
        };
        Some((span_of(columns, rows), self.number_of(rest)))
    }

    /// The span here, and the number of the token behind it.
    fn span(self) -> (Option<Span>, usize)
        ensures { found_at (view self.entry.sheet.now) result.0 result.1 ≡ span_part (here self.entry) }
    {
        // Tried as a chain of `or_else`: the proof did not close.
        if let Some((span, next)) = self.column_span() {
            return (Some(span), next);
        }
        if let Some((span, next)) = self.row_span() {
            return (Some(span), next);
        }
        if let Some((span, next)) = self.both_span() {
            return (Some(span), next);
        }
        (None, self.at)
    }

    /// The alignment here, and the number of the token behind it.
    fn alignment(self) -> (Option<Alignment>, usize)
        ensures { found_at (view self.entry.sheet.now) result.0 result.1 ≡ alignment_part (here self.entry) }
    {
        match self.sheet.see(Place::front(self.at)).and_then(alignment_of) {
            Some(alignment) => (Some(alignment), self.at + 1),
            None => (None, self.at),
        }
    }

    /// The vertical alignment here, and the number of the token behind it.
    fn vertical(self) -> (Option<Vertical>, usize)
        ensures { found_at (view self.entry.sheet.now) result.0 result.1 ≡ vertical_part (here self.entry) }
    {
        let Some(dots) = self.sheet.see(Place::front(self.at)) else {
            return (None, self.at);
        };
        if !is_dot(dots) {
            return (None, self.at);
        }
        let Some(sign) = self.sheet.see(Place::front(self.at + 1)) else {
            return (None, self.at);
        };
        let Some(vertical) = vertical_of(sign) else {
            return (None, self.at);
        };
        (Some(vertical), self.at + 2)
    }
}

/// The parts at a place, and the place behind them. What is left of a token behind dropped bytes is a Word, which
/// begins no part.
pub fn read_parts(sheet: &Sheet<'_>, place: Place) -> (Parts, Place)
    ensures { said_at (view sheet.now) result.0 result.1 ≡ parts_of (left_at (view sheet.now) place) }
{
    if place.offset > 0 {
        return (Parts::default(), place);
    }
    let at = place.token;
    let (factor, at) = Cursor { sheet, at }.factor();
    let (span, at) = Cursor { sheet, at }.span();
    let (alignment, at) = Cursor { sheet, at }.alignment();
    let (vertical, at) = Cursor { sheet, at }.vertical();
    (
        Parts {
            factor,
            span,
            alignment,
            vertical,
        },
        Place::front(at),
    )
}
