//! The check of a certificate.

ghost use Rattle.std.specs.Prelude.{◌≡◌, ◌↔◌, ℕ, ◌^◌, ◌<◌, ◌≤◌, length, IsTrue, IfSome, IfNone, IfOk, IsOk, IsErrOf, pos, neg_ℤ, ◌+ℤ◌, ◌-ℤ◌, ◌*ℤ◌};
ghost use Rattle.std.specs.Int.RustNames.{unsigned_abs};
ghost use Rattle.flk_cert.specs.Cause.{cause_number};
ghost use Rattle.flk_cert.specs.Certificate.{row_at as row_of, IsBound, HasRanges, HasShape, Contracts, IsCombined, HasIdentity, Covers, CoversInput, CoversRounding, FitsSection, IsFirstUnmet};
ghost use Rattle.flk_cert.specs.Row.{IsUpTo, fed_back, input_share, rounding_share};
ghost use Rattle.flk_cert.specs.Judged.{IsJudged, AllAreMet, IsFirstOnRow};
ghost use Rattle.flk_cert.specs.Bound.{Bounds};
ghost use Rattle.flk_cert.specs.Gain.{coefs_of, input_of, rounding_of, IsGainOf};
ghost use Rattle.flk_cert.specs.declared.fault.Cause.{Cause as CauseView};

use crate::certificate::{Cert, CertRow};
use crate::coefs::Coefs;
use crate::fault::{Cause, CertFault, Fault};
use crate::gain::Gain;
use crate::row::{
    COEFFICIENT_UNIT, Form, ROW_UNIT, first_state_part, input_share_of, rounding_share_of,
};
use crate::shape::{contracts, first_misshaped, row_at};

// A coefficient times a number d.
fn times_wide(a: i64, d: i128) -> i128
    requires coefficient { unsigned_abs a ≤ 2 ^ 33 }
    requires number { unsigned_abs d ≤ 2 ^ 62 }
    ensures value { result ≡ a *ℤ d }
    ensures small { unsigned_abs result ≤ 2 ^ 95 }
{
    i128::from(a) * d
}

// `2^64*number + 2^32*factor`: a number of the next row, and a factor of the first two forms.
fn combined(number: i64, factor: i128) -> i128
    requires number { unsigned_abs number < 2 ^ 44 }
    requires factor { unsigned_abs factor ≤ 2 ^ 62 }
    ensures value { result ≡ pos (2 ^ 64) *ℤ number +ℤ pos (2 ^ 32) *ℤ factor }
    ensures small { unsigned_abs result ≤ 2 ^ 109 }
{
    ROW_UNIT * i128::from(number) + COEFFICIENT_UNIT * factor
}

fn is_first_combined(k: &Coefs, row: CertRow, next: CertRow) -> bool
    requires row { HasRanges row }
    requires next { HasRanges next }
    requires c { unsigned_abs row.c ≤ 2 ^ 62 }
    requires d { unsigned_abs row.d ≤ 2 ^ 62 }
    ensures { IsTrue result
        ↔ (pos (2 ^ 32) *ℤ fed_back k.now row.x row.y ≡ pos (2 ^ 64) *ℤ next.x +ℤ pos (2 ^ 32) *ℤ row.c
        -ℤ k.now.a1 *ℤ row.d) }
{
    let form = Form { x: row.x, y: row.y };
    let fed_back = COEFFICIENT_UNIT * first_state_part(k, form);
    let combined = combined(next.x, row.c);
    let second = times_wide(k.a1, row.d);
    fed_back == combined - second
}

fn is_second_combined(row: CertRow, next: CertRow) -> bool
    requires row { HasRanges row }
    requires next { HasRanges next }
    requires d { unsigned_abs row.d ≤ 2 ^ 62 }
    ensures { IsTrue result ↔ (pos (2 ^ 64) *ℤ row.x ≡ pos (2 ^ 64) *ℤ next.y +ℤ pos (2 ^ 32) *ℤ row.d) }
{
    ROW_UNIT * i128::from(row.x) == combined(next.y, row.d)
}

fn is_combined(k: &Coefs, row: CertRow, next: CertRow) -> bool
    requires row { HasRanges row }
    requires next { HasRanges next }
    requires c { unsigned_abs row.c ≤ 2 ^ 62 }
    requires d { unsigned_abs row.d ≤ 2 ^ 62 }
    ensures { IsTrue result ↔ IsCombined k.now row next }
{
    is_first_combined(k, row, next) && is_second_combined(row, next)
}

// The factor c of a certificate of one row.
fn single_factor(k: &Coefs) -> i128
    ensures { result ≡ neg_ℤ (pos (2 ^ 32) *ℤ k.now.a1) }
{
    -(COEFFICIENT_UNIT * i128::from(k.a1))
}

fn is_single(k: &Coefs, row: CertRow) -> bool
    ensures { IsTrue result ↔ ((row.c ≡ neg_ℤ (pos (2 ^ 32) *ℤ k.now.a1)) × (row.d ≡ pos 0)) }
{
    row.c == single_factor(k) && row.d == 0
}

fn has_identity(k: &Coefs, rows: &[CertRow], i: usize) -> bool
    requires judged { IsJudged k.now rows.now }
    requires within { i < length rows.now }
    ensures { IsTrue result ↔ HasIdentity k.now rows.now i }
{
    let row = row_at(rows, i);
    if rows.len() == 1 {
        is_single(k, row)
    } else {
        is_combined(k, row, row_at(rows, i + 1))
    }
}

// 2^64: a whole bound.
const WHOLE: u128 = 18_446_744_073_709_551_616;

// What a row takes up of a bound, with a factor over 2^64.
fn part_of(factor: u128, bound: i128) -> u128
    requires factor { factor ≤ 2 ^ 64 }
    requires bound { IsBound bound }
    ensures value { pos result ≡ pos factor *ℤ bound }
    ensures small { result ≤ 2 ^ 124 }
{
    factor * bound.unsigned_abs()
}

// Whether a row's own bound covers what the row takes up.
fn covers(row: CertRow, first: i128, second: i128, next: i128, share: i128, own: i128) -> bool
    requires c { unsigned_abs row.c ≤ 2 ^ 64 }
    requires d { unsigned_abs row.d ≤ 2 ^ 64 }
    requires first { IsBound first }
    requires second { IsBound second }
    requires next { IsBound next }
    requires share { IsUpTo (2 ^ 112) share }
    requires own { IsBound own }
    ensures { IsTrue result ↔ Covers row first second next (unsigned_abs share) own }
{
    let first = part_of(row.c.unsigned_abs(), first);
    let second = part_of(row.d.unsigned_abs(), second);
    let next = part_of(WHOLE, next);
    let share = share.unsigned_abs();
    first + second + next + share <= part_of(WHOLE, own)
}

fn covers_input(k: &Coefs, row: CertRow, first: CertRow, second: CertRow, next: CertRow) -> bool
    requires row { HasRanges row }
    requires first { HasRanges first }
    requires second { HasRanges second }
    requires next { HasRanges next }
    requires c { unsigned_abs row.c ≤ 2 ^ 64 }
    requires d { unsigned_abs row.d ≤ 2 ^ 64 }
    ensures { IsTrue result ↔ Covers row first.g second.g next.g (input_share k.now row.x row.y) row.g }
{
    let share = input_share_of(k, row);
    covers(row, first.g, second.g, next.g, share, row.g)
}

fn covers_rounding(k: &Coefs, row: CertRow, first: CertRow, second: CertRow, next: CertRow) -> bool
    requires row { HasRanges row }
    requires first { HasRanges first }
    requires second { HasRanges second }
    requires next { HasRanges next }
    requires c { unsigned_abs row.c ≤ 2 ^ 64 }
    requires d { unsigned_abs row.d ≤ 2 ^ 64 }
    ensures { IsTrue result ↔ Covers row first.h second.h next.h (rounding_share k.now row.x row.y) row.h }
{
    let share = rounding_share_of(k, row);
    covers(row, first.h, second.h, next.h, share, row.h)
}

// The first of the two bounds of row i that doesn't cover its share.
fn uncovered_on_row(k: &Coefs, rows: &[CertRow], i: usize) -> Option<Cause>
    requires judged { IsJudged k.now rows.now }
    requires within { i < length rows.now }
    requires identity { HasIdentity k.now rows.now i }
    ensures none { IfNone result (AllAreMet k.now rows.now i) }
    ensures some { IfSome result (λ cause. IsFirstOnRow k.now rows.now cause i) }
{
    let row = row_at(rows, i);
    let first = row_at(rows, 0);
    let second = row_at(rows, 1);
    let next = row_at(rows, i + 1);
    if !covers_input(k, row, first, second, next) {
        Some(Cause::Input)
    } else if !covers_rounding(k, row, first, second, next) {
        Some(Cause::Rounding)
    } else {
        None
    }
}

// The first condition that fails on row i, of those that are asked row by row.
fn cause_on_row(k: &Coefs, rows: &[CertRow], i: usize) -> Option<Cause>
    requires judged { IsJudged k.now rows.now }
    requires within { i < length rows.now }
    ensures none { IfNone result (AllAreMet k.now rows.now i) }
    ensures some { IfSome result (λ cause. IsFirstOnRow k.now rows.now cause i) }
{
    if has_identity(k, rows, i) {
        uncovered_on_row(k, rows, i)
    } else {
        Some(Cause::Identity)
    }
}

// The first condition that fails, of those that are asked row by row.
fn first_row_fault(k: &Coefs, rows: &[CertRow]) -> Option<Fault>
    requires judged { IsJudged k.now rows.now }
    ensures none { IfNone result (FitsSection k.now rows.now) }
    ensures some { IfSome result (λ f. IsFirstUnmet k.now rows.now f.cause f.row) }
    ensures small { IfSome result (λ f. f.row < 4096) }
{
    for row in 0..rows.len() {
        if let Some(cause) = cause_on_row(k, rows, row) {
            return Some(Fault { row, cause });
        }
    }
    None
}

// The first condition that fails.
fn first_fault(k: &Coefs, rows: &[CertRow]) -> Option<Fault>
    ensures none { IfNone result (FitsSection k.now rows.now) }
    ensures some { IfSome result (λ f. IsFirstUnmet k.now rows.now f.cause f.row) }
    ensures small { IfSome result (λ f. f.row < 4096) }
{
    if let Some(row) = first_misshaped(k, rows) {
        return Some(Fault {
            row,
            cause: Cause::Shape,
        });
    }
    if !contracts(rows) {
        return Some(Fault {
            row: rows.len() - 1,
            cause: Cause::Contraction,
        });
    }
    first_row_fault(k, rows)
}

/// The gain that a certificate shows for a section with these coefficients. It takes no memory.
///
/// The fault is the first condition that fails, and comes exactly where one does: first the shape of each row is asked,
/// then the contraction of all rows, then row by row identity, input and rounding ([`CertFault`] has the numbers). The
/// gain bounds the error of the section whose products are rounded, for inputs of any number.
pub fn check(k: &Coefs, cert: &Cert) -> Result<Gain, CertFault>
    ensures ok { IsOk result ↔ FitsSection k.now cert.now.rows }
    ensures gain { IfOk result (λ gain. IsGainOf k.now cert.now.rows gain) }
    ensures bound { IfOk result (λ gain. Bounds k.now (input_of gain) (rounding_of gain)) }
    ensures fault { (cause : CauseView) (row : ℕ)
        → IsErrOf result (record { row = row; kind = cause_number cause })
        ↔ IsFirstUnmet k.now cert.now.rows cause row }
{
    let rows = cert.rows.as_slice();
    match first_fault(k, rows) {
        None => Ok(Gain::of(k, rows)),
        Some(fault) => Err(CertFault {
            row: fault.row as u32,
            kind: fault.cause.number(),
        }),
    }
}
