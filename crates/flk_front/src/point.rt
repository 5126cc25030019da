//! Points: numbers that are known up to a radius.

/// Every number from `mid - radius` to `mid + radius`, all in units of 2^-48.
#[derive(Clone, Copy, Debug, PartialEq, Eq)]
pub struct Point {
    pub mid: i128,
    pub radius: i128,
}
