// What a cell specifier says, and where a cell starts.
use sheet::Place;

/// Where a cell's content stands from side to side.
#[derive(Clone, Copy, Debug, PartialEq, Eq, Hash)]
pub enum Horizontal {
    Left,
    Right,
    Center,
}

/// Where a cell's content stands from top to bottom.
#[derive(Clone, Copy, Debug, PartialEq, Eq, Hash)]
pub enum Vertical {
    Top,
    Bottom,
    Middle,
}

/// What is written before a separator: how often the cell stands, how many columns and rows it spans, each 1 where
/// nothing is written, and the alignments and the style that are named.
#[derive(Clone, Copy, Debug, PartialEq, Eq, Hash)]
pub struct Specifier {
    /// 0 to 255
    pub factor: u8,
    /// 1 to 255
    pub columns: u8,
    /// 1 to 255
    pub rows: u8,
    pub horizontal: Option<Horizontal>,
    pub vertical: Option<Vertical>,
    /// the number of a `Style`
    // A number and not the enum: another's cutter gives specifiers of its own, and the enum would ask more of whoever
    // writes one.
    pub style: Option<u8>,
}

impl Specifier {
    /// The specifier where nothing is written.
    pub const NOTHING: Specifier = Specifier {
        factor: 1,
        columns: 1,
        rows: 1,
        horizontal: None,
        vertical: None,
        style: None,
    };
}

/// The start of a cell: its specifier, and the place behind its separator.
#[derive(Clone, Copy, Debug, PartialEq, Eq, Hash)]
pub struct Start {
    pub specifier: Specifier,
    pub rest: Place,
}
