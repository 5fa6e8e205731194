// Tests of a few bytes and searches among them, which the rules of lines and of attributes share.
ghost use Rattle.std.specs.Prelude.{◌≡◌, ◌≤◌, length};
ghost use Rattle.document.specs.Bytes.{is_blank, all_of, all_digits, before, leading_digits, trim_start, trim_end, trim, with_digit, value_of};

/// Whether a byte is a space, a tab or a carriage return.
pub fn is_blank(byte: u8) -> bool
    ensures { result ≡ is_blank byte }
{
    matches!(byte, b' ' | b'\t' | b'\r')
}

/// Whether every byte is this one.
pub fn all_of(bytes: &[u8], byte: u8) -> bool
    ensures { result ≡ all_of byte bytes.now }
{
    bytes.iter().all(|x| *x == byte)
}

/// Whether every byte is a digit.
// Crate `sheet` has this test too, in a line of its own: neither crate rests on the other.
pub fn all_digits(bytes: &[u8]) -> bool
    ensures { result ≡ all_digits bytes.now }
{
    bytes.iter().all(|byte| byte.is_ascii_digit())
}

/// How many bytes stand before the first one that is `byte`: all of them where there is none.
// The length says "none" and no `Option` does: all who call this cut the text there in either case.
pub fn find(bytes: &[u8], byte: u8) -> usize
    ensures value { result ≡ before byte bytes.now }
    ensures within { result ≤ length bytes.now }
{
    bytes.iter().take_while(|x| **x != byte).count()
}

/// How many digits stand at the front.
pub fn leading_digits(bytes: &[u8]) -> usize
    ensures value { result ≡ leading_digits bytes.now }
    ensures within { result ≤ length bytes.now }
{
    bytes
        .iter()
        .take_while(|byte| byte.is_ascii_digit())
        .count()
}

/// A number with one more digit behind its others, or the largest `usize` where that is less.
fn with_digit(number: usize, digit: u8) -> usize
    ensures { result ≡ with_digit number digit }
{
    number
        .saturating_mul(10)
        .saturating_add(usize::from(digit.saturating_sub(b'0')))
}

/// The number that digits write, or the largest `usize` where that is less.
pub fn value_of(digits: &[u8]) -> usize
    ensures { result ≡ value_of digits.now }
{
    digits
        .iter()
        .fold(0, |number, digit| with_digit(number, *digit))
}

/// The bytes without the blanks at their front.
pub fn trim_start(bytes: &[u8]) -> &[u8]
    ensures { result.now ≡ trim_start bytes.now }
{
    let blanks = bytes.iter().take_while(|byte| is_blank(**byte)).count();
    &bytes[blanks..]
}

/// The bytes without the blanks at their end.
pub fn trim_end(bytes: &[u8]) -> &[u8]
    ensures { result.now ≡ trim_end bytes.now }
{
    // A search, where `trim_start` counts: every line is trimmed here, and counting its blanks took more instructions.
    match bytes.iter().rposition(|byte| !is_blank(*byte)) {
        Some(last) => &bytes[..=last],
        None => &[],
    }
}

/// The bytes without the blanks around them.
pub fn trim(bytes: &[u8]) -> &[u8]
    ensures { result.now ≡ trim bytes.now }
{
    trim_start(trim_end(bytes))
}
