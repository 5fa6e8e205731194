// The attributes of a table, read from lines in brackets such as `[%header,cols="1,2*m",format=csv]`.
ghost use Rattle.std.specs.Prelude.{◌≡◌, ◌≤◌, length};
ghost use Rattle.std.specs.Iterator.{YieldsFirstRef, item_count};
ghost use Rattle.document.specs.Attributes.{after, ends_item, item_size, items_left, option_in, name_of, format_named, separator_of, unquoted, with_option, with_options, with_shorthand, said, with_value, with_item, with_list, with_line};

use crate::bytes::{find, trim, trim_end};
use crate::columns::{Columns, columns_of};
use crate::marks::is_attribute_line;

/// The options of a table that are named; what is not named is `false`.
#[derive(Clone, Copy, Debug, Default, PartialEq, Eq, Hash)]
pub struct Options {
    pub header: bool,
    pub noheader: bool,
    pub footer: bool,
}

/// The value of a `format` attribute.
#[derive(Clone, Copy, Debug, PartialEq, Eq, Hash)]
pub enum FormatName {
    Psv,
    Csv,
    Tsv,
    Dsv,
}

/// What attribute lines say of the table below them.
#[derive(Clone, Copy, Debug)]
pub struct Attributes {
    pub columns: Columns,
    pub options: Options,
    pub format: Option<FormatName>,
    pub separator: Option<u8>,
}

/// The attributes that have a meaning here, by their names.
#[derive(Clone, Copy, Debug, PartialEq, Eq, Hash)]
pub enum Name {
    Cols,
    Options,
    Format,
    Separator,
}

/// Where reading stands in an item: in front of the item or of its value, in quotes, or past where quotes can open.
#[derive(Clone, Copy, Debug, PartialEq, Eq, Hash)]
pub enum Spot {
    Front,
    Quoted(u8),
    Inside,
}

/// The items of a list between commas that stand in no quotes; `None` behind the last one.
#[derive(Debug, Drop)]
pub struct Items<'a>(pub Option<&'a [u8]>);

impl Attributes {
    /// No attributes.
    pub const NONE: Attributes = Attributes {
        columns: Columns::NONE,
        options: Options {
            header: false,
            noheader: false,
            footer: false,
        },
        format: None,
        separator: None,
    };
}

impl Spot {
    /// Where reading stands behind a byte.
    fn after(self, byte: u8) -> Spot
        ensures { result ≡ after self byte }
    {
        match (self, byte) {
            (Spot::Quoted(quote), _) if byte == quote => Spot::Inside,
            (Spot::Quoted(_), _) => self,
            (Spot::Front, b'"' | b'\'') => Spot::Quoted(byte),
            (Spot::Front, b' ' | b'\t' | b'=') | (Spot::Inside, b'=') => Spot::Front,
            (Spot::Front | Spot::Inside, _) => Spot::Inside,
        }
    }

    /// Whether a comma ends the item here: it does outside of quotes.
    fn ends_item(self, byte: u8) -> bool
        ensures { result ≡ ends_item self byte }
    {
        byte == b',' && !matches!(self, Spot::Quoted(_))
    }
}

/// How many bytes the first item of a list has: those before the first comma that stands in no quotes.
fn item_size(list: &[u8]) -> usize
    ensures value { result ≡ item_size Spot.Front list.now }
    ensures within { result ≤ length list.now }
{
    // A loop and not a chain: each byte moves the spot, by which the next one is read.
    let mut spot = Spot::Front;
    for (i, byte) in list.iter().enumerate() {
        if spot.ends_item(*byte) {
            return i;
        }
        spot = spot.after(*byte);
    }
    list.len()
}

impl<'a> Iterator for Items<'a> {
    type Item = &'a [u8];

    ghost next_gives = { YieldsFirstRef items_left };

    ghost remaining = { item_count items_left };

    fn next(&mut self) -> Option<&'a [u8]> {
        let list = self.0?;
        let (item, more) = list.split_at(item_size(list));
        self.0 = more.get(1..);
        Some(item)
    }
}

/// The option that a part of a shorthand behind a `%` names: a `#` or a `.` behind it begins an id or a role.
fn option_in(part: &[u8]) -> &[u8]
    ensures { result.now ≡ option_in part.now }
{
    let size = part
        .iter()
        .take_while(|byte| !matches!(**byte, b'#' | b'.'))
        .count();
    trim(&part[..size])
}

/// What attribute a name is of, if it is one of those.
// This and the next two are no `TryFrom`: that a text names nothing is no error, and an `Option` says it.
fn name_of(name: &[u8]) -> Option<Name>
    ensures { result ≡ name_of name.now }
{
    match name {
        b"cols" => Some(Name::Cols),
        b"options" | b"opts" => Some(Name::Options),
        b"format" => Some(Name::Format),
        b"separator" => Some(Name::Separator),
        _ => None,
    }
}

/// The format that a value names, if it names one.
fn format_named(value: &[u8]) -> Option<FormatName>
    ensures { result ≡ format_named value.now }
{
    match value {
        b"psv" => Some(FormatName::Psv),
        b"csv" => Some(FormatName::Csv),
        b"tsv" => Some(FormatName::Tsv),
        b"dsv" => Some(FormatName::Dsv),
        _ => None,
    }
}

/// The separator that a value is: its byte where it is one byte, and a tab where it is `\t`.
fn separator_of(value: &[u8]) -> Option<u8>
    ensures { result ≡ separator_of value.now }
{
    match value {
        [only] => Some(*only),
        b"\\t" => Some(b'\t'),
        _ => None,
    }
}

/// A value without the quotes around it.
fn unquoted(value: &[u8]) -> &[u8]
    ensures { result.now ≡ unquoted value.now }
{
    match value {
        [b'"', inner @ .., b'"'] | [b'\'', inner @ .., b'\''] => inner,
        _ => value,
    }
}

impl Options {
    /// With an option that is named; one of another name changes nothing.
    fn with(self, name: &[u8]) -> Options
        ensures { result ≡ with_option self name.now }
    {
        Options {
            header: self.header || name == b"header".as_slice(),
            noheader: self.noheader || name == b"noheader".as_slice(),
            footer: self.footer || name == b"footer".as_slice(),
        }
    }

    /// With the options of a list between commas.
    fn with_list(self, list: &[u8]) -> Options
        ensures { result ≡ with_options self list.now }
    {
        list.split(|byte| *byte == b',')
            .fold(self, |options, name| options.with(trim(name)))
    }

    /// With the options of a shorthand such as `%header%footer`; what stands before the first `%` is passed over.
    fn with_shorthand(self, item: &[u8]) -> Options
        ensures { result ≡ with_shorthand self item.now }
    {
        item.split(|byte| *byte == b'%')
            .skip(1)
            .fold(self, |options, part| options.with(option_in(part)))
    }
}

impl Attributes {
    /// With a named value.
    fn with_value(self, name: Name, value: &[u8]) -> Attributes
        ensures { said result ≡ with_value (said self) name value.now }
    {
        match name {
            Name::Cols => Attributes {
                columns: columns_of(value),
                ..self
            },
            Name::Options => Attributes {
                options: self.options.with_list(value),
                ..self
            },
            Name::Format => Attributes {
                format: format_named(value).or(self.format),
                ..self
            },
            Name::Separator => Attributes {
                separator: separator_of(value).or(self.separator),
                ..self
            },
        }
    }

    /// Takes in an item of a list, which is the list's first or a later one.
    // In place, and the loop below is no fold: to move the attributes at each item took three times as long on a list of
    // items that say nothing.
    fn add_item(&mut self, item: &[u8], first: bool)
        ensures { said self.new ≡ with_item (said self.old) item.now first }
    {
        match item.split_at(find(item, b'=')) {
            (name, [_, value @ ..]) => if let Some(name) = name_of(trim(name)) {
                *self = self.with_value(name, unquoted(trim(value)));
            },
            (_, []) if first => self.options = self.options.with_shorthand(item),
            (_, []) => {}
        }
    }

    /// With the items of a list between commas.
    fn with_list(self, list: &[u8]) -> Attributes
        ensures { said result ≡ with_list (said self) list.now }
    {
        let mut attributes = self;
        let mut first = true;
        for item in Items(Some(list)) {
            attributes.add_item(trim(item), first);
            first = false;
        }
        attributes
    }

    /// With what an attribute line says: one that begins with `[`, but not with `[[`, and ends with `]`, blanks at its
    /// end aside. Another line says nothing.
    pub fn with_line(self, line: &[u8]) -> Attributes
        ensures { said result ≡ with_line (said self) line.now }
    {
        let bytes = trim_end(line);
        match bytes {
            [_, list @ .., _] if is_attribute_line(bytes) => self.with_list(list),
            _ => self,
        }
    }
}
