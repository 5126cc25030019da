//! The first fault of a configuration, as it is told.

use thiserror::Error;

/// The first fault of a configuration: its line and its field, both counted from 1, and the number of its kind
/// ([`crate::Kind::number`]). The field is 0 where the line as a whole is at fault.
#[derive(Clone, Copy, Debug, PartialEq, Eq, Error)]
#[error("configuration fault")]
pub struct CfgFault {
    pub line: u32,
    pub field: u32,
    pub kind: u8,
}
