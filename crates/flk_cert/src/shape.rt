//! Shape and contraction: what is asked of a certificate before its rows are judged one by one.

ghost use Rattle.std.specs.Prelude.{◌≡◌, ◌↔◌, ℕ, ◌+◌, ◌^◌, ◌<◌, ◌≤◌, length, sum_by, IsTrue, IfSome, IfNone, neg_ℤ};
ghost use Rattle.std.specs.Int.RustNames.{unsigned_abs};
ghost use Rattle.flk_cert.specs.Certificate.{row_at as row_of, IsBound, HasRanges, HasCount, HasForm, HasShape, Contracts};

use crate::certificate::CertRow;
use crate::coefs::Coefs;

const NO_ROW: CertRow = CertRow {
    x: 0,
    y: 0,
    c: 0,
    d: 0,
    g: 0,
    h: 0,
};

// Row i, or a row of zeros past the last one.
pub(crate) fn row_at(rows: &[CertRow], i: usize) -> CertRow
    ensures { result ≡ row_of rows.now i }
{
    if i < rows.len() { rows[i] } else { NO_ROW }
}

const TWO_TO_44: u64 = 17_592_186_044_416;

const TWO_TO_60: i128 = 1_152_921_504_606_846_976;

fn is_bound(g: i128) -> bool
    ensures { IsTrue result ↔ IsBound g }
{
    g >= 0 && g < TWO_TO_60
}

fn is_in_range(row: CertRow) -> bool
    ensures { IsTrue result ↔ HasRanges row }
{
    if row.x.unsigned_abs() >= TWO_TO_44 || row.y.unsigned_abs() >= TWO_TO_44 {
        return false;
    }
    is_bound(row.g) && is_bound(row.h)
}

fn has_count(k: &Coefs, rows: &[CertRow]) -> bool
    ensures { IsTrue result ↔ HasCount k.now rows.now }
{
    match rows.len() {
        0 => false,
        1 => k.b2 == 0 && k.a2 == 0,
        count => count <= 4096,
    }
}

const TWO_TO_32: i64 = 4_294_967_296;

fn has_form(row: CertRow, x: i64, y: i64) -> bool
    ensures { IsTrue result ↔ HasForm x y row }
{
    row.x == x && row.y == y
}

// The number x of row 1.
fn second_form(k: &Coefs) -> i64
    ensures { result ≡ neg_ℤ k.now.a1 }
{
    -k.a1
}

fn has_first_shape(k: &Coefs, rows: &[CertRow]) -> bool
    ensures { IsTrue result ↔ HasShape k.now rows.now 0 }
{
    let row = row_at(rows, 0);
    if !is_in_range(row) || !has_count(k, rows) {
        return false;
    }
    has_form(row, TWO_TO_32, 0)
}

fn has_later_shape(k: &Coefs, rows: &[CertRow], i: usize) -> bool
    requires later { 0 < i }
    requires within { i < length rows.now }
    ensures { IsTrue result ↔ HasShape k.now rows.now i }
{
    let row = row_at(rows, i);
    if !is_in_range(row) {
        return false;
    }
    i > 1 || has_form(row, second_form(k), TWO_TO_32)
}

// The first row whose shape is another one.
pub(crate) fn first_misshaped(k: &Coefs, rows: &[CertRow]) -> Option<usize>
    ensures none { IfNone result ((i : ℕ) → HasShape k.now rows.now i) }
    ensures fails { IfSome result (λ i. ¬ HasShape k.now rows.now i) }
    ensures first { IfSome result (λ i. (j : ℕ) → j < i → HasShape k.now rows.now j) }
    ensures small { IfSome result (λ i. i < 4096) }
{
    if !has_first_shape(k, rows) {
        return Some(0);
    }
    for i in 1..rows.len() {
        if !has_later_shape(k, rows, i) {
            return Some(i);
        }
    }
    None
}

const QUARTER: u128 = 4_611_686_018_427_387_904;

// Whether all rows together take up at most a quarter of the first two forms. A sum that is above it is not formed: a
// number of a row can have 128 bits.
fn take_up_a_quarter(rows: &[CertRow]) -> bool
    ensures { IsTrue result ↔ (sum_by (λ r. unsigned_abs r.c + unsigned_abs r.d) rows.now ≤ 2 ^ 62) }
{
    let mut sum = 0;
    for row in rows {
        let taken = row.c.unsigned_abs().saturating_add(row.d.unsigned_abs());
        if taken > QUARTER - sum {
            return false;
        }
        sum += taken;
    }
    true
}

const TWO_TO_64: u128 = 18_446_744_073_709_551_616;

pub(crate) fn contracts(rows: &[CertRow]) -> bool
    requires { 0 < length rows.now }
    ensures { IsTrue result ↔ Contracts rows.now }
{
    if rows.len() == 1 {
        row_at(rows, 0).c.unsigned_abs() < TWO_TO_64
    } else {
        take_up_a_quarter(rows)
    }
}
