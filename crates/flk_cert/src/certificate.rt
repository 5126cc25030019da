//! Certificates: rows of whole numbers from which a bound on a section's error can be checked.

use flk_num::List;

/// A row of a certificate. It stands for the form `x * s1 + y * s2` of the errors of a section's two states: `c` and
/// `d` say how the form after a sample comes from the forms before it, and `g` and `h` bound it by the input's error
/// and by rounding.
#[derive(Clone, Copy, Debug, PartialEq, Eq)]
pub struct CertRow {
    pub x: i64,
    pub y: i64,
    pub c: i128,
    pub d: i128,
    pub g: i128,
    pub h: i128,
}

/// A certificate of a section: its rows, from row 0 on.
#[derive(Drop)]
pub struct Cert {
    pub rows: List<CertRow>,
}
