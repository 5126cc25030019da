//! Certificates that are accepted and refused.

use crate::{Cert, CertFault, CertRow, Coefs, Gain, check};
use flk_num::List;
use std::test::Fail;

const NO_ROW: CertRow = CertRow {
    x: 0,
    y: 0,
    c: 0,
    d: 0,
    g: 0,
    h: 0,
};

// The gain, or the fault.
fn gain_of(rt: &HostRuntime, k: &Coefs, rows: &[CertRow]) -> Result<Result<Gain, CertFault>, Fail> {
    let mut list = List::new(rt.alloc());
    for row in rows {
        list.push(*row)?;
    }
    Ok(check(k, &Cert { rows: list }))
}

// The input and the rounding of the gain, or the fault.
fn checked(
    rt: &HostRuntime,
    k: &Coefs,
    rows: &[CertRow],
) -> Result<Result<(i128, i128), CertFault>, Fail> {
    Ok(gain_of(rt, k, rows)?.map(|gain| (gain.input(), gain.rounding())))
}

// The bounds of the two states, or the fault.
fn states(
    rt: &HostRuntime,
    k: &Coefs,
    rows: &[CertRow],
) -> Result<Result<((i128, i128), (i128, i128)), CertFault>, Fail> {
    Ok(gain_of(rt, k, rows)?.map(|gain| (gain.first(), gain.second())))
}

fn refused(row: u32, kind: u8) -> Result<(i128, i128), CertFault> {
    Err(CertFault { row, kind })
}

// A low-pass filter of the first order: the last section for a lamp of 230 V and 50 Hz at 2400 samples a second.
#[test]
fn first_order(rt: HostRuntime) -> Result<(), Fail> {
    let k = Coefs {
        b0: 119_692_743,
        b1: 119_692_743,
        b2: 0,
        a1: -4_055_581_809,
        a2: 0,
    };
    // g and h are the least that meet their conditions
    let mut row = CertRow {
        x: 4_294_967_296,
        y: 0,
        c: 17_418_591_235_907_518_464,
        d: 0,
        g: 4_175_274_536,
        h: 149_822_513_299,
    };
    assert_eq!(rt; checked(&rt, &k, &[row])?, Ok((4_294_967_279, 36)));
    assert_eq!(rt; states(&rt, &k, &[row])?, Ok(((row.g, row.h), (0, 0))));
    row.g -= 1;
    assert_eq!(rt; checked(&rt, &k, &[row])?, refused(0, 4));
    Ok(())
}

// `y = x - y''/4`, whose gain is `1 + 1/4 + 1/16 + .. = 4/3`.
#[test]
fn two_rows(rt: HostRuntime) -> Result<(), Fail> {
    let k = Coefs {
        b0: 4_294_967_296,
        b1: 0,
        b2: 0,
        a1: 0,
        a2: 1_073_741_824,
    };
    let mut rows = [
        CertRow {
            x: 4_294_967_296,
            y: 0,
            c: 0,
            d: 0,
            g: 1_431_655_766,
            h: 12_884_901_888,
        },
        CertRow {
            x: 0,
            y: 4_294_967_296,
            c: -4_611_686_018_427_387_904,
            d: 0,
            g: 1_431_655_766,
            h: 8_589_934_592,
        },
    ];
    assert_eq!(rt; checked(&rt, &k, &rows)?, Ok((5_726_623_062, 4)));
    let bounds = (
        (1_431_655_766, 12_884_901_888),
        (1_431_655_766, 8_589_934_592),
    );
    assert_eq!(rt; states(&rt, &k, &rows)?, Ok(bounds));
    rows[1].h -= 1;
    assert_eq!(rt; checked(&rt, &k, &rows)?, refused(1, 5));
    Ok(())
}

#[test]
fn refusals(rt: HostRuntime) -> Result<(), Fail> {
    // a sum that never decays
    let k = Coefs {
        b0: 4_294_967_296,
        b1: 0,
        b2: 0,
        a1: -4_294_967_296,
        a2: 0,
    };
    let row = CertRow {
        x: 4_294_967_296,
        y: 0,
        c: 18_446_744_073_709_551_616,
        d: 0,
        g: 0,
        h: 0,
    };
    assert_eq!(rt; checked(&rt, &k, &[row])?, refused(0, 2));
    assert_eq!(rt; checked(&rt, &k, &[])?, refused(0, 1));
    assert_eq!(rt; checked(&rt, &k, &[NO_ROW; 4097])?, refused(0, 1));
    Ok(())
}
