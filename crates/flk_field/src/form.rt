//! The form of the data file.

/// The form of the data file.
#[derive(Clone, Copy, Debug, PartialEq, Eq)]
pub enum Form {
    /// Lines of text.
    Ascii,
    /// Records of binary numbers.
    Binary,
}
