//! Jobs and their faults, and configurations that have what a job asks for or not.

use crate::{MatchFault, match_job, read_job};
use flk_cfg::read_cfg;
use flk_num::{Lamp, Stop};
use flk_text::DecimalValue;
use std::alloc::{AllocError, Global};
use std::test::Fail;

const SUPPLY: &[u8] = b"lamp = \"230/50\"\nnominal_mv = 230000\nuncertainty_uv = 0\n";

const CHANNEL: &[u8] = b"channels = [1]\n";

const LIMIT: &[u8] = b"dmax = 4\n";

const TIMES: &[u8] = b"run_in_s = 0\ninterval_s = 1\n";

/// The bytes of these parts, one after another.
fn joined(alloc: Global, parts: &[&[u8]]) -> Result<Vec<u8>, AllocError> {
    let mut all = Vec::new(alloc);
    for part in parts {
        all.extend_from_slice(part)?;
    }
    Ok(all)
}

/// The numbers of the fault of the job in these parts, None for a job, and zeros where no memory was found.
fn fault(alloc: Global, parts: &[&[u8]]) -> Result<Option<(u8, u8)>, AllocError> {
    let text = joined(alloc, parts)?;
    match read_job(alloc, &text) {
        Ok(_) => Ok(None),
        Err(Stop::Fault(fault)) => Ok(Some((fault.key, fault.kind))),
        Err(Stop::OutOfMemory) => Ok(Some((0, 0))),
    }
}

#[test]
fn reads_jobs(rt: HostRuntime) -> Result<(), Fail> {
    let realistic =
        b"lamp = \"230/50\"\nnominal_mv = 230000\nuncertainty_uv = 6250\nchannels = [1, 2, 3]\ndmax = 7\n";
    match read_job(rt.alloc(), realistic) {
        Ok(job) => {
            assert_eq!(rt; job.lamp, Lamp::L230);
            assert_eq!(rt; job.supply.nominal_mv, 230_000);
            assert_eq!(rt; job.supply.uncertainty_uv, 6250);
            assert_eq!(rt; job.channels.as_slice(), [1, 2, 3].as_slice());
            assert_eq!(rt; job.dmax_percent, 7);
            assert_eq!(rt; job.run_in_s, 60);
            assert_eq!(rt; job.interval_s, 600);
        }
        Err(_) => assert!(rt; false),
    }
    let short = joined(rt.alloc(), &[SUPPLY, CHANNEL, LIMIT, TIMES])?;
    match read_job(rt.alloc(), &short) {
        Ok(job) => {
            assert_eq!(rt; job.channels.as_slice(), [1].as_slice());
            assert_eq!(rt; job.dmax_percent, 4);
            assert_eq!(rt; job.run_in_s, 0);
            assert_eq!(rt; job.interval_s, 1);
        }
        Err(_) => assert!(rt; false),
    }
    Ok(())
}

#[test]
fn names_the_first_fault(rt: HostRuntime) -> Result<(), Fail> {
    let short: [&[u8]; 4] = [SUPPLY, CHANNEL, LIMIT, TIMES];
    let nominal = b"nominal_mv = 230000\n".as_slice();
    for (parts, expected) in [
        (short.as_slice(), None),
        (
            [SUPPLY, CHANNEL, b"dmax = 5\n", TIMES].as_slice(),
            Some((5, 5)),
        ),
        (
            [SUPPLY, CHANNEL, LIMIT, b"limit = 4\n"].as_slice(),
            Some((0, 2)),
        ),
        (
            [b"lamp = \"230/50\"\nuncertainty_uv = 0\n", CHANNEL, LIMIT].as_slice(),
            Some((2, 3)),
        ),
        (
            [
                b"lamp = \"230/50\"\nuncertainty_uv = 2300001\n",
                nominal,
                CHANNEL,
                LIMIT,
            ]
            .as_slice(),
            Some((3, 5)),
        ),
        (
            [
                b"lamp = \"230/50\"\nuncertainty_uv = 2300000\n",
                nominal,
                CHANNEL,
                LIMIT,
            ]
            .as_slice(),
            None,
        ),
        (
            [SUPPLY, b"channels = [1, 1]\n", LIMIT, TIMES].as_slice(),
            Some((4, 5)),
        ),
        (
            [SUPPLY, b"channels = [1, \"2\"]\n", LIMIT, TIMES].as_slice(),
            Some((4, 4)),
        ),
        (
            [SUPPLY, b"channels = [257, \"2\"]\n", LIMIT, TIMES].as_slice(),
            Some((4, 4)),
        ),
        (
            [SUPPLY, b"channels = []\n", LIMIT, TIMES].as_slice(),
            Some((4, 5)),
        ),
        (
            [SUPPLY, CHANNEL, LIMIT, TIMES, b"lamp = \"230/50\"\n"].as_slice(),
            Some((0, 1)),
        ),
        (
            [b"lamp = 230\n".as_slice(), b"dmax = 5\n"].as_slice(),
            Some((1, 4)),
        ),
        (
            [b"lamp = \"230/60\"\n".as_slice(), b"dmax = 5\n"].as_slice(),
            Some((1, 5)),
        ),
    ] {
        assert_eq!(rt; fault(rt.alloc(), parts)?, expected);
    }
    Ok(())
}

#[test]
fn judges_the_document_first(rt: HostRuntime) -> Result<(), Fail> {
    let spaces = [b' '; 65_537];
    let brackets = [b'['; 65_536];
    for (bytes, expected) in [
        (spaces.as_slice(), Some((0, 6))),
        (&spaces[..65_536], Some((1, 3))),
        (brackets.as_slice(), Some((0, 1))),
        (b"lamp = \"\xff\"\n".as_slice(), Some((0, 1))),
    ] {
        assert_eq!(rt; fault(rt.alloc(), &[bytes])?, expected);
    }
    Ok(())
}

const TITLE: &[u8] = b"LAB,DAQ,1999\n";

const VOLTS: &[u8] = b"1,U,A,,V,0.01,0,0,-32767,32767,1,1,P\n";

const SAMPLING: &[u8] = b"50\n1\n2400,4800\n";

const END: &[u8] = b"12/03/2021,09:15:00.000000\n12/03/2021,09:15:00.000000\nBINARY\n1\n";

/// What a job and a configuration are answered, or None where one of them isn't read.
fn matched(
    alloc: Global,
    job: &[&[u8]],
    config: &[&[u8]],
) -> Result<Option<Result<(), MatchFault>>, AllocError> {
    let Ok(job) = read_job(alloc, &joined(alloc, job)?) else {
        return Ok(None);
    };
    let Ok(config) = read_cfg(alloc, &joined(alloc, config)?) else {
        return Ok(None);
    };
    Ok(Some(match_job(&job, &config)))
}

/// What a job is answered on the configuration of one channel with these two lines.
fn matched_one(
    alloc: Global,
    job: &[&[u8]],
    channel: &[u8],
    sampling: &[u8],
) -> Result<Option<Result<(), MatchFault>>, AllocError> {
    matched(alloc, job, &[TITLE, b"1,1A,0D\n", channel, sampling, END])
}

#[test]
fn matches_configurations(rt: HostRuntime) -> Result<(), Fail> {
    let short: [&[u8]; 4] = [SUPPLY, CHANNEL, LIMIT, TIMES];
    assert_eq!(rt;
        matched_one(rt.alloc(), &short, VOLTS, SAMPLING)?,
        Some(Ok(()))
    );
    let seven: [&[u8]; 3] = [SUPPLY, b"channels = [1, 7]\n", LIMIT];
    let others = b"2,U,A,,A,1,0,0,0,1,1,1,P\n3,U,A,,V,1,0,0,0,1,1,1,P\n4,U,A,,V,1,0,0,0,1,1,1,P\n";
    assert_eq!(rt;
        matched(
            rt.alloc(),
            &seven,
            &[TITLE, b"4,4A,0D\n", VOLTS, others, SAMPLING, END]
        )?,
        Some(Err(MatchFault::Channel { asked: 7, there: 4 }))
    );
    Ok(())
}

#[test]
fn tests_a_channel_first(rt: HostRuntime) -> Result<(), Fail> {
    let short: [&[u8]; 4] = [SUPPLY, CHANNEL, LIMIT, TIMES];
    assert_eq!(rt;
        matched_one(
            rt.alloc(),
            &short,
            b"1,U,A,,A,10000.5,0,0,0,1,1,1,P\n",
            SAMPLING
        )?,
        Some(Err(MatchFault::Unit { channel: 1 }))
    );
    assert_eq!(rt;
        matched_one(
            rt.alloc(),
            &short,
            b"1,U,A,,V,10000.5,0,0,0,1,1,1,P\n",
            SAMPLING
        )?,
        Some(Err(MatchFault::Scale { channel: 1 }))
    );
    Ok(())
}

#[test]
fn tests_the_recording(rt: HostRuntime) -> Result<(), Fail> {
    let short: [&[u8]; 4] = [SUPPLY, CHANNEL, LIMIT, TIMES];
    let lf = DecimalValue {
        n: 60_000_000_000_000_000_000_000_000,
    };
    assert_eq!(rt;
        matched_one(rt.alloc(), &short, VOLTS, b"60\n1\n2400,1\n")?,
        Some(Err(MatchFault::Lamp { hertz: 50, lf }))
    );
    assert_eq!(rt;
        matched_one(rt.alloc(), &short[..3], VOLTS, SAMPLING)?,
        Some(Err(MatchFault::TooShort {
            needed: 1_584_000,
            there: 4800
        }))
    );
    assert_eq!(rt;
        matched_one(rt.alloc(), &short, VOLTS, b"50\n1\n2400,20000001\n")?,
        Some(Err(MatchFault::TooLong {
            limit: 20_000_000,
            there: 20_000_001
        }))
    );
    Ok(())
}

#[test]
fn tests_a_recording_of_4800_samples_a_second(rt: HostRuntime) -> Result<(), Fail> {
    let short: [&[u8]; 4] = [SUPPLY, CHANNEL, LIMIT, TIMES];
    assert_eq!(rt;
        matched_one(rt.alloc(), &short[..3], VOLTS, b"50\n1\n4800,4800\n")?,
        Some(Err(MatchFault::TooShort {
            needed: 3_168_000,
            there: 4800
        }))
    );
    assert_eq!(rt;
        matched_one(rt.alloc(), &short, VOLTS, b"50\n1\n4800,20000001\n")?,
        Some(Ok(()))
    );
    assert_eq!(rt;
        matched_one(rt.alloc(), &short, VOLTS, b"50\n1\n4800,40000001\n")?,
        Some(Err(MatchFault::TooLong {
            limit: 40_000_000,
            there: 40_000_001
        }))
    );
    Ok(())
}
