use crate::{CfgFault, Config, Form, read_cfg};
use flk_num::{Rate, Stop};
use flk_text::DecimalValue;
use std::alloc::{AllocError, Global};
use std::test::Fail;

const TITLE: &[u8] = b"LAB,DAQ,1999\r\n";

const COUNTS: &[u8] = b"1,1A,0D\r\n";

const CHANNEL: &[u8] = b"1,U,A,,V,0.01,0,0,-32767,32767,1,1,P\r\n";

const SAMPLING: &[u8] = b"50\r\n1\r\n2400,4800\r\n";

const STAMP: &[u8] = b"12/03/2021,09:15:00.000000\r\n";

const END: &[u8] = b"BINARY\r\n1\r\n";

/// The bytes of these parts, one after another.
fn joined(alloc: Global, parts: &[&[u8]]) -> Result<Vec<u8>, AllocError> {
    let mut all = Vec::new(alloc);
    for part in parts {
        all.extend_from_slice(part)?;
    }
    Ok(all)
}

/// What a reading answers: None for a configuration, and the fault's numbers, or zeros where no memory was found.
fn fault_of(answer: Result<Config, Stop<CfgFault>>) -> Option<(u32, u32, u8)> {
    match answer {
        Ok(_) => None,
        Err(Stop::Fault(fault)) => Some((fault.line, fault.field, fault.kind)),
        Err(Stop::OutOfMemory) => Some((0, 0, 0)),
    }
}

/// What the text of these parts is answered.
fn answer_to(alloc: Global, parts: &[&[u8]]) -> Result<Option<(u32, u32, u8)>, AllocError> {
    let text = joined(alloc, parts)?;
    Ok(fault_of(read_cfg(alloc, &text)))
}

/// The multiplier of a channel, or 0 where there is no such channel.
fn multiplier(config: &Config, i: usize) -> DecimalValue {
    match config.analog.as_slice().get(i) {
        Some(channel) => channel.a,
        None => DecimalValue { n: 0 },
    }
}

#[test]
fn reads_a_recorder(rt: HostRuntime) -> Result<(), Fail> {
    let text =
        b"Lab 2, DAQ-7 ,1999\r\n4,4A,0D\r\n1,U L1,A,,V,1.220703125E-02,0.000000E+00,0.0,-32767,32767,1.0,1.0,P\r\n2,U L2,B,,V,1.220703125E-02,0.000000E+00,0.0,-32767,32767,1.0,1.0,P\r\n3,U L3,C,,V,1.220703125E-02,0.000000E+00,0.0,-32767,32767,1.0,1.0,P\r\n4,I L1,A,,A,3.0517578125E-05,0.000000E+00,0.0,-32767,32767,1.0,1.0,P\r\n50.00\r\n1\r\n2400.00,1584000\r\n12/03/2021,09:15:00.000000\r\n12/03/2021,09:15:00.000000\r\nBINARY\r\n1.00\r\n\x1a";
    match read_cfg(rt.alloc(), text) {
        Ok(config) => {
            assert_eq!(rt; config.station.as_slice(), b"Lab 2".as_slice());
            assert_eq!(rt; config.device.as_slice(), b"DAQ-7".as_slice());
            assert_eq!(rt; multiplier(&config, 0).n, 12_207_031_250_000_000_000_000);
            assert_eq!(rt; multiplier(&config, 3).n, 30_517_578_125_000_000_000);
            assert_eq!(rt; config.rate, Rate::R2400);
            assert_eq!(rt; config.endsamp, 1_584_000);
            assert_eq!(rt; config.form, Form::Binary);
        }
        Err(_) => assert!(rt; false),
    }
    Ok(())
}

#[test]
fn reads_other_forms(rt: HostRuntime) -> Result<(), Fail> {
    let alloc = rt.alloc();
    assert_eq!(rt;
        answer_to(
            alloc,
            &[TITLE, COUNTS, CHANNEL, SAMPLING, STAMP, STAMP, END]
        )?,
        None
    );
    assert_eq!(rt;
        answer_to(
            alloc,
            &[
                TITLE,
                COUNTS,
                CHANNEL,
                SAMPLING,
                STAMP,
                STAMP,
                b"BINARY\r\n1"
            ]
        )?,
        None
    );
    let exact = b"1,U,A,,V,1.23456789012345678,0,0,-32767,32767,1,1,P\n";
    assert_eq!(rt;
        answer_to(alloc, &[TITLE, COUNTS, exact, SAMPLING, STAMP, STAMP, END])?,
        None
    );
    let leap = b"29/02/2024,09:15:00\n";
    assert_eq!(rt;
        answer_to(alloc, &[TITLE, COUNTS, CHANNEL, SAMPLING, leap, STAMP, END])?,
        None
    );
    Ok(())
}

#[test]
fn names_the_first_fault(rt: HostRuntime) -> Result<(), Fail> {
    let alloc = rt.alloc();
    let fine = b"1,U,A,,V,1.234567890123456789,0,0,-32767,32767,1,1,P\r\n";
    assert_eq!(rt;
        answer_to(alloc, &[TITLE, COUNTS, fine, SAMPLING, STAMP, STAMP, END])?,
        Some((3, 6, 4))
    );
    let no_leap = b"29/02/2023,09:15:00.000000\r\n";
    assert_eq!(rt;
        answer_to(
            alloc,
            &[TITLE, COUNTS, CHANNEL, SAMPLING, no_leap, STAMP, END]
        )?,
        Some((7, 1, 4))
    );
    assert_eq!(rt;
        answer_to(alloc, &[TITLE, COUNTS, CHANNEL, b"50\r\n"])?,
        Some((5, 0, 1))
    );
    assert_eq!(rt;
        answer_to(
            alloc,
            &[TITLE, b"1,2A,0D\r\n", CHANNEL, SAMPLING, STAMP, STAMP, END]
        )?,
        Some((2, 1, 4))
    );
    assert_eq!(rt;
        answer_to(
            alloc,
            &[b"LAB,DAQ\r\n", COUNTS, CHANNEL, SAMPLING, STAMP, STAMP, END]
        )?,
        Some((1, 3, 6))
    );
    assert_eq!(rt;
        answer_to(
            alloc,
            &[
                TITLE, COUNTS, CHANNEL, SAMPLING, STAMP, STAMP, END, b"0\r\n"
            ]
        )?,
        Some((11, 0, 8))
    );
    assert_eq!(rt; answer_to(alloc, &[])?, Some((1, 0, 1)));
    assert_eq!(rt; answer_to(alloc, &[b"LAB"])?, Some((1, 0, 2)));
    assert_eq!(rt; answer_to(alloc, &[b"LAB,DA"])?, Some((1, 3, 6)));
    assert_eq!(rt;
        answer_to(alloc, &[TITLE, b"99999999999999999999,1A,0D\r\n", CHANNEL])?,
        Some((2, 1, 4))
    );
    assert_eq!(rt;
        answer_to(alloc, &[TITLE, b"256,256A,0D\r\n"])?,
        Some((3, 0, 1))
    );
    assert_eq!(rt;
        answer_to(
            alloc,
            &[
                TITLE,
                b"600,600A,0D\r\n",
                CHANNEL,
                SAMPLING,
                STAMP,
                STAMP,
                END
            ]
        )?,
        Some((2, 1, 4))
    );
    assert_eq!(rt;
        answer_to(
            alloc,
            &[
                TITLE,
                b"512,256A,256D\r\n",
                CHANNEL,
                SAMPLING,
                STAMP,
                STAMP,
                END
            ]
        )?,
        Some((4, 0, 2))
    );
    Ok(())
}

#[test]
fn reads_two_rates(rt: HostRuntime) -> Result<(), Fail> {
    let alloc = rt.alloc();
    for (sampling, fault) in [
        (b"50\r\n1\r\n4800,4800\r\n".as_slice(), None),
        (b"50\r\n1\r\n4.8e3,4800\r\n".as_slice(), None),
        (b"50\r\n1\r\n1200,4800\r\n".as_slice(), Some((6, 1, 7))),
        (b"50\r\n1\r\n4800.5,4800\r\n".as_slice(), Some((6, 1, 7))),
    ] {
        assert_eq!(rt;
            answer_to(
                alloc,
                &[TITLE, COUNTS, CHANNEL, sampling, STAMP, STAMP, END]
            )?,
            fault
        );
    }
    Ok(())
}
