// The columns that a table is given: how many, and in what style their cells are written.
ghost use Rattle.std.specs.Prelude.{◌≡◌, replicate};
ghost use Rattle.document.specs.Columns.{kept_of, HasStyles, AddsStyles, style_of, times_of, entry_mark, entry_styles, styles_between, all_styles};
ghost use Rattle.styles.specs.Styles.{number_of};

use crate::bytes::{all_digits, leading_digits, trim, value_of};
use styles::Style;

/// How many columns have their style kept.
pub const MAX_STYLES: usize = 64;

/// The columns of a table; none are given where there are 0 of them.
// An array beside a count and not a `Vec`: there can be more columns than kept styles, and columns use no heap. Not
// `PartialEq` by a derive: what stands past the last column would count. The count 0 says "none" and no `Option` does:
// `cols=0` gives none too.
#[derive(Clone, Copy, Debug)]
pub struct Columns {
    /// how many there are, or the largest `usize` where that is less
    pub count: usize,
    /// the styles of the first ones, by their numbers; what stands past the last column means nothing
    // Numbers and not `Style`: columns can be built by hand, and every number in them is kept as it is.
    pub styles: [u8; MAX_STYLES],
}

impl Columns {
    /// No columns.
    pub const NONE: Columns = Columns {
        count: 0,
        styles: [Style::Default as u8; MAX_STYLES],
    };

    /// The styles of the columns by their numbers, but of the first 64 alone where there are more.
    pub fn kept(&self) -> &[u8]
        ensures { result.now ≡ kept_of self.now }
    {
        &self.styles[..self.count.min(MAX_STYLES)]
    }

    /// With so many more columns of one style behind these.
    fn with(self, times: usize, style: Style) -> Columns
        ensures { AddsStyles self result (replicate times (number_of style)) }
    {
        let from = self.count.min(MAX_STYLES);
        let count = self.count.saturating_add(times);
        let mut styles = self.styles;
        styles[from..count.min(MAX_STYLES)].fill(style.number());
        Columns { count, styles }
    }

    /// With the columns that an entry stands for behind these.
    fn with_entry(self, entry: &[u8]) -> Columns
        ensures { AddsStyles self result (entry_styles entry.now) }
    {
        let bytes = trim(entry);
        self.with(times_of(bytes), style_of(bytes))
    }
}

/// The style of an entry, by its last byte: the default one where that names none.
fn style_of(entry: &[u8]) -> Style
    ensures { result ≡ style_of entry.now }
{
    entry
        .last()
        .and_then(|letter| Style::named(char::from(*letter)))
        .unwrap_or_default()
}

/// How many columns an entry stands for: what the digits before a `*` at its front say, but at least 1.
fn times_of(entry: &[u8]) -> usize
    ensures { result ≡ times_of entry.now }
{
    match entry.split_at(leading_digits(entry)) {
        (digits, [b'*', ..]) => value_of(digits).max(1),
        _ => 1,
    }
}

/// The byte that parts entries: a `;` where there is one and no `,`, else a `,`.
fn entry_mark(value: &[u8]) -> u8
    ensures { result ≡ entry_mark value.now }
{
    if value.contains(&b';') && !value.contains(&b',') {
        b';'
    } else {
        b','
    }
}

/// The columns of entries between marks.
fn columns_between(value: &[u8], mark: u8) -> Columns
    ensures { HasStyles result (styles_between mark value.now) }
{
    value
        .split(|byte| *byte == mark)
        .fold(Columns::NONE, |columns, entry| columns.with_entry(entry))
}

/// The columns that the value of `cols` gives: digits alone say how many of them have the default style, a list has
/// an entry for each column or for several, and a blank value gives none.
pub fn columns_of(value: &[u8]) -> Columns
    ensures { HasStyles result (all_styles value.now) }
{
    let list = trim(value);
    if all_digits(list) {
        return Columns::NONE.with(value_of(list), Style::Default);
    }
    columns_between(list, entry_mark(list))
}
