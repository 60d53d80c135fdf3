//! Tokens of a text.

/// A token: the line on which it begins, counted from 1, and the place of its first byte and the
/// place past its last one.
#[derive(Clone, Copy, Debug, PartialEq, Eq)]
pub struct Token {
    pub line: u32,
    pub first: u32,
    pub past: u32,
}
