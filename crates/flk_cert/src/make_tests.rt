//! Certificates of the sections of both lamps at 2400 samples per second. The numbers of rows and the gains
//! were computed by long arithmetic elsewhere.

ghost use Rattle.std.specs.Prelude.{◌↔◌, ◌^◌, ◌≤◌, IsTrue};
ghost use Rattle.std.specs.Int.RustNames.{unsigned_abs};

use crate::{Coefs, check, make};
use std::alloc::{AllocError, Global};
use std::test::Fail;

// b0, b1, b2, a1 and a2 of a section; its gain of input and of rounding; how many rows its certificate has.
const SECTIONS: [([i64; 5], i128, i128, usize); 14] = [
    (
        [4_294_686_209, -4_294_686_209, 0, -4_294_405_123, 0],
        8_589_372_418,
        15_280,
        1,
    ),
    (
        [
            8_788_291,
            17_576_582,
            8_788_291,
            -8_356_192_996,
            4_096_378_865,
        ],
        10_805_343_346,
        924,
        178,
    ),
    (
        [
            8_449_932,
            16_899_864,
            8_449_932,
            -8_034_470_111,
            3_773_302_543,
        ],
        4_725_168_167,
        420,
        95,
    ),
    (
        [
            8_266_186,
            16_532_372,
            8_266_186,
            -7_859_758_383,
            3_597_855_830,
        ],
        4_359_395_411,
        396,
        95,
    ),
    (
        [89_011_712, 0, -89_011_712, -8_497_168_044, 4_204_641_676],
        10_987_079_482,
        8_109,
        439,
    ),
    (
        [2_311_656_171, -2_297_900_156, 0, -4_281_211_281, 0],
        4_294_967_296,
        625,
        1,
    ),
    (
        [119_692_743, 119_692_743, 0, -4_055_581_809, 0],
        4_294_967_279,
        36,
        1,
    ),
    (
        [4_294_686_209, -4_294_686_209, 0, -4_294_405_123, 0],
        8_589_372_418,
        15_280,
        1,
    ),
    (
        [
            12_585_615,
            25_171_230,
            12_585_615,
            -8_302_595_200,
            4_057_970_366,
        ],
        10_809_811_738,
        646,
        148,
    ),
    (
        [
            12_011_612,
            24_023_224,
            12_011_612,
            -7_923_931_060,
            3_677_010_210,
        ],
        4_749_044_982,
        297,
        78,
    ),
    (
        [
            11_703_440,
            23_406_880,
            11_703_440,
            -7_720_633_291,
            3_472_479_753,
        ],
        4_357_308_644,
        280,
        78,
    ),
    (
        [82_561_846, 0, -82_561_846, -8_494_842_419, 4_202_274_093],
        10_011_724_524,
        8_066,
        446,
    ),
    (
        [2_041_322_579, -2_025_671_472, 0, -4_279_316_189, 0],
        4_294_967_296,
        549,
        1,
    ),
    (
        [95_189_809, 95_189_809, 0, -4_104_587_678, 0],
        4_294_967_296,
        46,
        1,
    ),
];

// Whether a coefficient is at most 2^33 in size.
fn is_small(a: i64) -> bool
    ensures { IsTrue result ↔ (unsigned_abs a ≤ 2 ^ 33) }
{
    a.unsigned_abs() <= 8_589_934_592
}

fn section(numbers: [i64; 5]) -> Option<Coefs> {
    let [b0, b1, b2, a1, a2] = numbers;
    if is_small(b0) && is_small(b1) && is_small(b2) && is_small(a1) && is_small(a2) {
        Some(Coefs { b0, b1, b2, a1, a2 })
    } else {
        None
    }
}

// The gain's input and rounding by the certificate that is made, and how many rows it has; None where it is refused.
fn gain(alloc: Global, k: &Coefs) -> Result<Option<(i128, i128, usize)>, AllocError> {
    let cert = make(alloc, k)?;
    let count = cert.rows.as_slice().len();
    Ok(
        check(k, &cert)
            .ok()
            .map(|gain| (gain.input(), gain.rounding(), count)),
    )
}

#[test]
fn sections_of_lamps(rt: HostRuntime) -> Result<(), Fail> {
    for (numbers, input, rounding, count) in SECTIONS {
        match section(numbers) {
            Some(k) => {
                assert_eq!(rt; gain(rt.alloc(), &k)?, Some((input, rounding, count)));
            }
            None => assert!(rt; false),
        }
    }
    Ok(())
}

// |c| of the one row is 2^64, so that no bound meets its conditions.
#[test]
fn not_contracted(rt: HostRuntime) -> Result<(), Fail> {
    let unit = 4_294_967_296;
    let k = Coefs {
        b0: unit,
        b1: 0,
        b2: 0,
        a1: -unit,
        a2: 0,
    };
    let cert = make(rt.alloc(), &k)?;
    let rows = cert.rows.as_slice();
    assert_eq!(rt; rows.len(), 1);
    assert_eq!(rt; (rows[0].g, rows[0].h), (0, 0));
    Ok(())
}
