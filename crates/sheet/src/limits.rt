// How large a sheet can be.

/// The most bytes that a page or a replacement text may have.
pub const MAX_TEXT: usize = 1_048_576;

/// The most tokens that a sheet may have.
pub const MAX_TOKENS: usize = 262_144;
