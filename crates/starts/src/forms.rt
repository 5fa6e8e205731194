// The forms of a factor and of the spans, taken apart token by token.
ghost use Rattle.std.specs.Prelude.{◌≡◌, drop, is_some, IfSome};
ghost use Rattle.sheet.specs.Kinds.{number_of};
ghost use Rattle.starts.specs.Forms.{plain_token, dot_token, digits_form, rows_form, spans_form};
ghost use Rattle.starts.specs.Fronts.{begins};

use sheet::{Kind, Token};

// `is_plain` and `is_dot` ask of a record what `Seen::is` and the `is_dot` of parts.rt ask of what is seen. A trait over
// both would be longer than the four lines.

/// An unreplaced token of a kind.
fn is_plain(token: &Token, kind: Kind) -> bool
    ensures { result ≡ plain_token (number_of kind) token.now }
{
    !token.replaced && token.kind == kind.number()
}

/// Dots of length 1.
fn is_dot(token: &Token) -> bool
    ensures { result ≡ dot_token token.now }
{
    is_plain(token, Kind::Dots) && token.length == 1
}

/// Digits and a sign of a kind, Star of a factor or Plus of a column span: the tokens behind.
pub fn after_digits<'a>(tokens: &'a [Token], sign: Kind) -> Option<&'a [Token]>
    ensures form { begins (digits_form (number_of sign)) tokens.now ≡ is_some result }
    ensures rest { IfSome result (λ rest. rest.now ≡ drop 2 tokens.now) }
{
    match tokens {
        [digits, last, rest @ ..] if is_plain(digits, Kind::Digits) && is_plain(last, sign) => {
            Some(rest)
        }
        _ => None,
    }
}

/// Dots Digits Plus, a row span: the tokens behind.
pub fn after_row<'a>(tokens: &'a [Token]) -> Option<&'a [Token]>
    ensures form { begins rows_form tokens.now ≡ is_some result }
    ensures rest { IfSome result (λ rest. rest.now ≡ drop 3 tokens.now) }
{
    match tokens {
        [dots, digits, plus, rest @ ..]
            if is_dot(dots) && is_plain(digits, Kind::Digits) && is_plain(plus, Kind::Plus) => {
            Some(rest)
        }
        _ => None,
    }
}

/// Digits Dots Digits Plus, a span of columns and rows: the tokens behind.
pub fn after_both<'a>(tokens: &'a [Token]) -> Option<&'a [Token]>
    ensures form { begins spans_form tokens.now ≡ is_some result }
    ensures rest { IfSome result (λ rest. rest.now ≡ drop 4 tokens.now) }
{
    match tokens {
        [columns, row @ ..] if is_plain(columns, Kind::Digits) => after_row(row),
        _ => None,
    }
}
