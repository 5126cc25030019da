//! Verdicts, and whole reports.

use crate::limits::{PLT, PST, dmax_limit, tmax_limit};
use crate::{OutOfMemory, Verdict, interval_count, judge, overall, report_text};
use flk_change::ChangeSummary;
use flk_job::{Job, read_job};
use flk_num::{Interval, Lamp, Rate};
use flk_result::PhaseResult;
use std::alloc::Global;
use std::test::Fail;

fn between(lo: i128, hi: i128) -> Interval {
    Interval { lo, hi: hi.max(lo) }
}

// The short-term severities of one interval.
fn alone(severity: Interval) -> [Interval; 12] {
    let none = between(0, 0);
    [
        severity, none, none, none, none, none, none, none, none, none, none, none,
    ]
}

/// The bytes of these parts, one after another.
fn joined(alloc: Global, parts: &[&[u8]]) -> Result<Vec<u8>, OutOfMemory> {
    let mut all = Vec::new(alloc);
    for part in parts {
        all.extend_from_slice(part)?;
    }
    Ok(all)
}

// The job that a text writes; None where it writes none or no memory was found.
fn job_of(alloc: Global, text: &[u8]) -> Option<Job> {
    read_job(alloc, text).ok()
}

// The report of the job that a text writes; None where it writes none or the results are not of that job.
fn report_of(
    alloc: Global,
    job: &[u8],
    rate: Rate,
    records: u32,
    results: &[PhaseResult],
) -> Result<Option<Vec<u8>>, OutOfMemory> {
    match read_job(alloc, job) {
        Ok(job) => {
            let count = interval_count(&job, rate, records);
            if results.len() != job.channels.as_slice().len()
                || !results.iter().all(|channel| channel.count == count)
            {
                return Ok(None);
            }
            Ok(Some(report_text(alloc, &job, rate, records, results)?))
        }
        Err(_) => Ok(None),
    }
}

#[test]
fn judges_intervals(rt: HostRuntime) {
    assert_eq!(rt;
        judge(between(1_000_000_000, 1_000_000_001), 1_000_000_000),
        Verdict::Undecided
    );
    assert_eq!(rt;
        judge(between(999_999_999, 1_000_000_000), 1_000_000_000),
        Verdict::Pass
    );
    assert_eq!(rt;
        judge(between(1_000_000_001, 1_000_000_001), PST),
        Verdict::Fail
    );
    assert_eq!(rt;
        judge(between(650_000_000, 650_000_000), PLT),
        Verdict::Pass
    );
    assert_eq!(rt;
        judge(between(650_000_001, 650_000_001), PLT),
        Verdict::Fail
    );
}

#[test]
fn judges_a_dip(rt: HostRuntime) {
    assert_eq!(rt;
        judge(between(60, 60), tmax_limit(Lamp::L230)),
        Verdict::Fail
    );
    assert_eq!(rt;
        judge(between(60, 60), tmax_limit(Lamp::L120)),
        Verdict::Pass
    );
    match job_of(
        rt.alloc(),
        b"lamp = \"230/50\"\nnominal_mv = 230000\nuncertainty_uv = 0\nchannels = [1]\ndmax = 4\n",
    ) {
        Some(job) => {
            assert_eq!(rt;
                judge(between(35_000_000, 35_000_000), dmax_limit(&job)),
                Verdict::Pass
            );
            assert_eq!(rt;
                judge(between(40_000_001, 40_000_001), dmax_limit(&job)),
                Verdict::Fail
            );
            assert_eq!(rt; overall(&job, &[]), Verdict::Pass);
        }
        None => assert!(rt; false),
    }
}

// Two channels, the second number first. One window more than can be resolved is Doubtful on the second one.
#[test]
fn reports_two_channels(rt: HostRuntime) -> Result<(), Fail> {
    let job =
        b"lamp = \"230/50\"\nnominal_mv = 120000\nuncertainty_uv = 120\nchannels = [2, 1]\ndmax = 4\nrun_in_s = 0\ninterval_s = 1\n";
    let results = [
        PhaseResult {
            halves: 159,
            changes: ChangeSummary {
                dc: between(0, 202_001),
                dmax: between(0, 202_001),
                t: between(0, 0),
                doubtful: 5,
            },
            pst: alone(between(630_776_443, 632_785_773)),
            count: 1,
            plt: None,
        },
        PhaseResult {
            halves: 159,
            changes: ChangeSummary {
                dc: between(0, 4_002_001),
                dmax: between(0, 4_002_001),
                t: between(0, 159),
                doubtful: 8,
            },
            pst: alone(between(638_823_107, 640_893_704)),
            count: 1,
            plt: None,
        },
    ];
    let expected = joined(
        rt.alloc(),
        &[
            b"report\nprofile flicker-1\nform informative\nlamp 230/50\nrate 2400\n".as_slice(),
            b"nominal-mv 120000\nuncertainty-uv 120\nrecords 3840\nintervals 1\n",
            b"channel 2\nhalf-periods 159\ndoubtful 5\n",
            b"dc 0.000000000 to 0.000202001 limit 0.033000000 pass\n",
            b"dmax 0.000000000 to 0.000202001 limit 0.040000000 pass\n",
            b"t 0 to 0 limit 50 pass\n",
            b"pst 1 0.630776443 to 0.632785773 limit 1.000000000 pass\n",
            b"plt none\n",
            b"channel 1\nhalf-periods 159\ndoubtful 8\n",
            b"dc 0.000000000 to 0.004002001 limit 0.033000000 pass\n",
            b"dmax 0.000000000 to 0.004002001 limit 0.040000000 pass\n",
            b"t 0 to 159 limit 50 undecided\n",
            b"pst 1 0.638823107 to 0.640893704 limit 1.000000000 pass\n",
            b"plt none\nverdict undecided\n",
        ],
    )?;
    let report = report_of(rt.alloc(), job, Rate::R2400, 3840, &results)?;
    assert_eq!(rt; report, Some(expected));
    Ok(())
}

// Twelve intervals of a second at 4800 samples a second, and what is left of thirteen seconds.
#[test]
fn reports_long_term_severity(rt: HostRuntime) -> Result<(), Fail> {
    let job =
        b"lamp = \"230/50\"\nnominal_mv = 230000\nuncertainty_uv = 1\nchannels = [1]\ndmax = 7\nrun_in_s = 0\ninterval_s = 1\n";
    let results = [PhaseResult {
        halves: 1104,
        changes: ChangeSummary {
            dc: between(870_203_099, 870_203_114),
            dmax: between(870_203_099, 870_203_114),
            t: between(1, 1),
            doubtful: 0,
        },
        pst: [
            between(11_154_528_851, 11_154_536_443),
            between(2_427_791_380, 2_427_797_624),
            between(638_227_592, 638_242_743),
            between(345_707_031, 345_727_903),
            between(244_387_122, 244_409_213),
            between(177_393_321, 177_416_072),
            between(128_504_419, 128_527_728),
            between(2_037_381_767, 2_037_388_141),
            between(3_090_300_561, 3_090_310_489),
            between(47_146_874_869, 47_146_884_494),
            between(11_593_860_710, 11_593_867_853),
            between(2_859_375_344, 2_859_392_157),
        ],
        count: 12,
        plt: Some(between(20_789_383_135, 20_789_387_686)),
    }];
    let expected = joined(
        rt.alloc(),
        &[
            b"report\nprofile flicker-1\nform informative\nlamp 230/50\nrate 4800\n".as_slice(),
            b"nominal-mv 230000\nuncertainty-uv 1\nrecords 62454\nintervals 12\n",
            b"channel 1\nhalf-periods 1104\ndoubtful 0\n",
            b"dc 0.870203099 to 0.870203114 limit 0.033000000 fail\n",
            b"dmax 0.870203099 to 0.870203114 limit 0.070000000 fail\n",
            b"t 1 to 1 limit 50 pass\n",
            b"pst 1 11.154528851 to 11.154536443 limit 1.000000000 fail\n",
            b"pst 2 2.427791380 to 2.427797624 limit 1.000000000 fail\n",
            b"pst 3 0.638227592 to 0.638242743 limit 1.000000000 pass\n",
            b"pst 4 0.345707031 to 0.345727903 limit 1.000000000 pass\n",
            b"pst 5 0.244387122 to 0.244409213 limit 1.000000000 pass\n",
            b"pst 6 0.177393321 to 0.177416072 limit 1.000000000 pass\n",
            b"pst 7 0.128504419 to 0.128527728 limit 1.000000000 pass\n",
            b"pst 8 2.037381767 to 2.037388141 limit 1.000000000 fail\n",
            b"pst 9 3.090300561 to 3.090310489 limit 1.000000000 fail\n",
            b"pst 10 47.146874869 to 47.146884494 limit 1.000000000 fail\n",
            b"pst 11 11.593860710 to 11.593867853 limit 1.000000000 fail\n",
            b"pst 12 2.859375344 to 2.859392157 limit 1.000000000 fail\n",
            b"plt 20.789383135 to 20.789387686 limit 0.650000000 fail\nverdict fail\n",
        ],
    )?;
    let report = report_of(rt.alloc(), job, Rate::R4800, 62_454, &results)?;
    assert_eq!(rt; report, Some(expected));
    Ok(())
}
