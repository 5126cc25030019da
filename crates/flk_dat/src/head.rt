//! The front of a record.

/// A record's number and its time stamp, which an ASCII record may lack.
#[derive(Clone, Copy, Debug, PartialEq, Eq)]
pub struct Head {
    pub number: u32,
    pub stamp: Option<u64>,
}
