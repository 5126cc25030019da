//! The certificate that is made for a section.

ghost use Rattle.std.specs.Prelude.{◌≡◌, ◌≢◌, ◌↔◌, ℕ, ◌+◌, ◌-◌, ◌*◌, ◌^◌, ◌<◌, ◌≤◌, List as Sequence, length, IfOk, IsTrue, pos, neg_ℤ, ◌+ℤ◌, ◌-ℤ◌, ◌*ℤ◌};
ghost use Rattle.std.specs.Int.RustNames.{unsigned_abs};
ghost use Rattle.std.specs.List.{All};
ghost use Rattle.flk_exact.specs.Rounding.{ceil_of};
ghost use Rattle.flk_cert.specs.declared.certificate.CertRow.{CertRow as RowView};
ghost use Rattle.flk_cert.specs.declared.coefs.Coefs.{Coefs as CoefsView};
ghost use Rattle.flk_cert.specs.Row.{IsUpTo, fed_back};
ghost use Rattle.flk_cert.specs.Make.{next_form, form_of, inner_row as inner, last_row as last, one_plain, weight, IsLarge, IsContracted, IsCount, input_share_at, rounding_share_at, total_share, bounded, bounded_by, IsFirstOrder, IsOneBound, IsOneRow, IsMade};
ghost use Rattle.flk_cert.specs.Making.{IsLightRow, MayEndWith, IsBegun, IsPlain};

use crate::row::{
    COEFFICIENT_UNIT, Form, ROW_UNIT, first_state_part, input_share_of, product, rounding_share_of,
    size,
};
use crate::{Cert, CertRow, Coefs};
use flk_num::{List, ceil_div, floor_div};
use std::alloc::{AllocError, Global};

// The form of row 0.
const FIRST: Form = Form {
    x: 4_294_967_296,
    y: 0,
};

// 2^44: a form with a number of this size ends the rows.
const LARGE: u64 = 17_592_186_044_416;

// 2^58: together the rows' weights are at most this.
const WEIGHT_LIMIT: u128 = 288_230_376_151_711_744;

// After so many rows the next one is the last.
const MOST_BEFORE_LAST: usize = 4095;

// The form of the row after this form's.
fn form_after(k: &Coefs, form: Form) -> Form
    requires x { unsigned_abs form.x < 2 ^ 44 }
    requires y { unsigned_abs form.y < 2 ^ 44 }
    ensures value { result ≡ next_form k.now form }
    ensures small { unsigned_abs result.x ≤ 2 ^ 46 }
{
    let x = floor_div(first_state_part(k, form), COEFFICIENT_UNIT);
    Form {
        x: x as i64,
        y: form.x,
    }
}

// The row of a form that the next form follows.
fn inner_row(k: &Coefs, form: Form, next: Form) -> CertRow
    requires { next ≡ next_form k.now form }
    ensures value { result ≡ inner k.now form }
    ensures small { weight result < 2 ^ 32 }
{
    CertRow {
        x: form.x,
        y: form.y,
        c: first_state_part(k, form) - COEFFICIENT_UNIT * i128::from(next.x),
        d: 0,
        g: 0,
        h: 0,
    }
}

// The row of the last form.
fn last_row(k: &Coefs, form: Form) -> CertRow
    ensures value { result ≡ last k.now form }
    ensures small { weight result < 2 ^ 98 }
{
    CertRow {
        x: form.x,
        y: form.y,
        c: -product(k.a2, form.y),
        d: COEFFICIENT_UNIT * i128::from(form.x),
        g: 0,
        h: 0,
    }
}

// How much of the errors of the forms of rows 0 and 1 a row takes up.
fn weight_of(row: CertRow) -> u128
    requires { weight row < 2 ^ 98 }
    ensures { result ≡ weight row }
{
    row.c.unsigned_abs() + row.d.unsigned_abs()
}

// Whether a form has a number of 2^44 or more in size.
fn is_large(form: Form) -> bool
    ensures { IsTrue result ↔ IsLarge form }
{
    LARGE <= form.x.unsigned_abs() || LARGE <= form.y.unsigned_abs()
}

// Whether rows of this weight, and one more, the last, of this form, are contracted.
fn is_contracted(k: &Coefs, form: Form, taken: u128) -> bool
    requires { taken < 2 ^ 98 }
    ensures { IsTrue result ↔ (taken + weight (last k.now form) ≤ 2 ^ 58) }
{
    taken + weight_of(last_row(k, form)) <= WEIGHT_LIMIT
}

// Whether the rows end with one more row, of this form, after so many that have this weight.
fn ends(k: &Coefs, before: usize, form: Form, taken: u128) -> bool
    requires { taken < 2 ^ 98 }
    ensures { IsTrue result ↔ ((0 < before) × MayEndWith k.now before form taken) }
{
    0 < before && (is_contracted(k, form, taken) || is_large(form) || before == MOST_BEFORE_LAST)
}

// All rows with no bounds, and whether they are contracted.
#[derive(Drop)]
struct Plain {
    rows: Vec<CertRow>,
    contracted: bool,
}

// The rows of a section that is not of first order, with no bounds.
fn plain_rows(alloc: Global, k: &Coefs) -> Result<Plain, AllocError>
    ensures { IfOk result (λ p. IsPlain k.now p.rows.items p.contracted) }
{
    let mut rows = Vec::new(alloc);
    let mut form = FIRST;
    let mut taken = 0;
    while !ends(k, rows.len(), form, taken) {
        let next = form_after(k, form);
        let row = inner_row(k, form, next);
        taken += weight_of(row);
        rows.push(row)?;
        form = next;
    }
    let contracted = is_contracted(k, form, taken);
    rows.push(last_row(k, form))?;
    Ok(Plain { rows, contracted })
}

// A share over 2^64, rounded up.
fn rounded_share(share: i128) -> i128
    requires { IsUpTo (2 ^ 112) share }
    ensures value { result ≡ ceil_of share (pos (2 ^ 64)) }
    ensures within { IsUpTo (2 ^ 48) result }
{
    ceil_div(share, ROW_UNIT)
}

// The sums of the rows' shares.
#[derive(Clone, Copy)]
struct Totals {
    input: i128,
    rounding: i128,
}

fn totals_of(k: &Coefs, rows: &[CertRow]) -> Totals
    requires few { length rows.now ≤ 4096 }
    requires narrow { All IsLightRow rows.now }
    ensures input { result.input ≡ total_share (input_share_at k.now) rows.now }
    ensures input_within { IsUpTo (2 ^ 60) result.input }
    ensures rounding { result.rounding ≡ total_share (rounding_share_at k.now) rows.now }
    ensures rounding_within { IsUpTo (2 ^ 60) result.rounding }
{
    let mut input = 0;
    let mut rounding = 0;
    for row in rows {
        input += rounded_share(input_share_of(k, *row));
        rounding += rounded_share(rounding_share_of(k, *row));
    }
    Totals { input, rounding }
}

// 64/63 of a total share with one for each row, rounded up.
fn limit_of(total: i128, count: usize) -> i128
    requires total { IsUpTo (2 ^ 60) total }
    requires few { count ≤ 4096 }
    ensures value { result ≡ ceil_of (pos 64 *ℤ (total +ℤ pos count)) (pos 63) }
    ensures within { IsUpTo (2 ^ 62) result }
{
    ceil_div(64 * (total + count as i128), 63)
}

// A weight times a limit.
fn weighted(weight: u128, most: i128) -> i128
    requires weight { weight ≤ 2 ^ 58 }
    requires most { IsUpTo (2 ^ 62) most }
    ensures value { result ≡ pos weight *ℤ most }
    ensures within { IsUpTo (2 ^ 120) result }
{
    weight as i128 * most
}

// What a row of this weight and share adds to the bounds of itself and the rows before it.
fn added(weight: u128, most: i128, share: i128) -> i128
    requires weight { weight ≤ 2 ^ 58 }
    requires most { IsUpTo (2 ^ 62) most }
    requires share { IsUpTo (2 ^ 112) share }
    ensures value { result ≡ ceil_of (pos weight *ℤ most +ℤ share) (pos (2 ^ 64)) }
    ensures within { IsUpTo (2 ^ 57) result }
{
    ceil_div(weighted(weight, most) + share, ROW_UNIT)
}

// A row with these bounds.
fn bounded_row(row: CertRow, g: i128, h: i128) -> CertRow
    ensures { result ≡ record row { g = g; h = h } }
{
    CertRow { g, h, ..row }
}

// Gives the rows their bounds, from the last one back.
fn set_bounds(k: &Coefs, rows: &mut [CertRow], input: i128, rounding: i128)
    requires few { length rows.old ≤ 4096 }
    requires narrow { All IsLightRow rows.old }
    requires input { IsUpTo (2 ^ 62) input }
    requires rounding { IsUpTo (2 ^ 62) rounding }
    ensures { rows.new ≡ bounded_by k.now input rounding rows.old }
{
    let mut g = 0;
    let mut h = 0;
    let mut left = rows.len();
    while 0 < left {
        left -= 1;
        let row = rows[left];
        g += added(weight_of(row), input, input_share_of(k, row));
        h += added(weight_of(row), rounding, rounding_share_of(k, row));
        rows[left] = bounded_row(row, g, h);
    }
}

// Gives the rows their bounds.
fn bound_rows(k: &Coefs, rows: &mut [CertRow])
    requires few { length rows.old ≤ 4096 }
    requires narrow { All IsLightRow rows.old }
    ensures { rows.new ≡ bounded k.now rows.old }
{
    let totals = totals_of(k, rows);
    let input = limit_of(totals.input, rows.len());
    let rounding = limit_of(totals.rounding, rows.len());
    set_bounds(k, rows, input, rounding);
}

// The least bound of the one row of a certificate.
fn one_bound(c: i128, share: i128) -> i128
    requires c { unsigned_abs c ≤ 2 ^ 65 }
    requires share { IsUpTo (2 ^ 112) share }
    ensures { IsOneBound c (unsigned_abs share) result }
{
    let left = ROW_UNIT - size(c);
    if 0 < left { ceil_div(share, left) } else { 0 }
}

// The one row of a section of first order, with no bounds.
fn one_plain_row(k: &Coefs) -> CertRow
    ensures value { result ≡ one_plain k.now }
    ensures small { unsigned_abs result.c ≤ 2 ^ 65 }
{
    CertRow {
        x: FIRST.x,
        y: FIRST.y,
        c: -(COEFFICIENT_UNIT * i128::from(k.a1)),
        d: 0,
        g: 0,
        h: 0,
    }
}

// The one row of a section of first order.
fn one_row(k: &Coefs) -> CertRow
    ensures { IsOneRow k.now result }
{
    let row = one_plain_row(k);
    let g = one_bound(row.c, input_share_of(k, row));
    let h = one_bound(row.c, rounding_share_of(k, row));
    bounded_row(row, g, h)
}

/// The certificate of a section, made by rules of the project's own: its rows are those of the least number of rows,
/// from 2 to 4096, that are contracted, with bounds that are sums from the last row back. Where a row with a number of
/// 2^44 or more in size comes first, the rows end with it, and where there is no such number, with the 4096th; all
/// bounds are then 0. A section with `b2 = a2 = 0` has one row, with the least bounds that meet its conditions, or
/// bounds 0 where `|c|` is 2^64 or more. Whether a certificate proves anything is for its check to say. An error comes
/// only where memory is short; a list of at most 4096 rows is all that is taken.
pub fn make(alloc: Global, k: &Coefs) -> Result<Cert, AllocError>
    ensures { IfOk result (λ cert. IsMade k.now cert.rows) }
{
    if k.b2 == 0 && k.a2 == 0 {
        let mut rows = List::new(alloc);
        rows.push(one_row(k))?;
        return Ok(Cert { rows });
    }
    let mut plain = plain_rows(alloc, k)?;
    if plain.contracted {
        bound_rows(k, &mut plain.rows);
    }
    Ok(Cert {
        rows: List::from_vec(plain.rows),
    })
}

/// There is a certificate that is made for a section, and no second one.
pub fn certificate_is_one()
    ensures exists { (k : CoefsView) → (rows : Sequence RowView) × IsMade k rows }
    ensures unique { (k : CoefsView) (p q : Sequence RowView) → IsMade k p → IsMade k q → p ≡ q }
{}

/// The form of row 1 is `(-a1, 2^32)`: the error of the second state, with what the first state's output feeds back.
pub fn row_one_is_the_second_state()
    ensures { (k : CoefsView) → form_of k 1 ≡ record { x = neg_ℤ k.a1; y = pos (2 ^ 32) } }
{}

/// Rows that end with a form that has a number of 2^44 or more are not contracted: the two never end the rows together.
pub fn large_form_is_not_contracted()
    ensures { (k : CoefsView) (count : ℕ) → IsCount k count → IsLarge (form_of k (count - 1)) → ¬ IsContracted k count }
{}
