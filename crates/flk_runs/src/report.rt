use crate::commands::{Open, square_wave, varied, wave, words_of};
use flk_io::{MemShelf, MemSink, OutOfMemory};
use flk_top::{Gate, run};
use std::alloc::Global;
use std::sync::atomic::{AtomicBool, AtomicU32, Ordering};
use std::test::Fail;
use std::thread::Threads;

// ---- what a report is asked of

// The first five lines of a job, and the two others.
const JOB: &str =
    "lamp = \"230/50\"\nnominal_mv = 230000\nuncertainty_uv = 0\nchannels = [1]\ndmax = 4\n";

const SHORT: &str = "run_in_s = 0\ninterval_s = 1\n";

// A job of one interval of a second, with one part of its text replaced by another.
pub fn short_job(alloc: Global, old: &str, new: &str) -> Result<String, OutOfMemory> {
    let mut whole = String::from_str(alloc, JOB)?;
    whole.push_str(SHORT)?;
    let mut text = String::new(alloc);
    if let Some((before, after)) = whole.as_str().split_once(old) {
        for part in [before, new, after] {
            text.push_str(part)?;
        }
    }
    Ok(text)
}

// The job under J, the configuration under C, and the data under D.
pub fn shelf_of(
    alloc: Global,
    job: &str,
    configuration: &str,
    data: &[u8],
) -> Result<MemShelf, OutOfMemory> {
    let mut shelf = MemShelf::new(alloc);
    shelf.put("J", job.as_bytes())?;
    shelf.put("C", configuration.as_bytes())?;
    shelf.put("D", data)?;
    Ok(shelf)
}

// The status and the text of these words.
pub fn answer_of<R: Threads + Sync>(
    rt: &R,
    alloc: Global,
    shelf: &mut MemShelf,
    line: &str,
) -> Result<(u8, Vec<u8>), OutOfMemory> {
    let words = words_of(alloc, line)?;
    let mut sink = MemSink::new(alloc, 4000, 500)?;
    let status = run(rt, alloc, &words, shelf, &mut sink, &Open);
    let mut text = Vec::new(alloc);
    text.extend_from_slice(sink.written())?;
    Ok((status, text))
}

// Whether the job, the configuration and the data have this answer.
fn is_refused<R: Threads + Sync>(
    rt: &R,
    alloc: Global,
    job: &str,
    configuration: &str,
    data: &[u8],
    fault: &str,
) -> Result<bool, OutOfMemory> {
    let mut shelf = shelf_of(alloc, job, configuration, data)?;
    let (status, text) = answer_of(rt, alloc, &mut shelf, "report J C D 2")?;
    Ok(status == 2 && text.as_slice() == fault.as_bytes())
}

// ---- a calm voltage

const CALM: &str = "report
profile flicker-1
form informative
lamp 230/50
rate 2400
nominal-mv 230000
uncertainty-uv 0
records 4800
intervals 2
channel 1
half-periods 199
doubtful 0
dc 0.000000000 to 0.000000000 limit 0.033000000 pass
dmax 0.000000000 to 0.000000000 limit 0.040000000 pass
t 0 to 0 limit 50 pass
pst 1 0.000000000 to 0.0000";

// Two intervals of a wave that never changes: no severity is above a ten thousandth.
fn is_calm(text: &[u8]) -> bool {
    let Ok(text) = str::from_utf8(text) else {
        return false;
    };
    let Some((first, rest)) = text.split_once(" limit 1.000000000 pass\npst 2 ") else {
        return false;
    };
    first.starts_with(CALM)
        && rest.starts_with("0.000000000 to 0.0000")
        && rest.ends_with(" limit 1.000000000 pass\nplt none\nverdict pass\n")
}

// The report is the same for each number of workers and each size of the pieces that are read.
#[test]
fn a_calm_voltage(rt: HostRuntime) -> Result<(), Fail> {
    let alloc = rt.alloc();
    let job = short_job(alloc, "", "")?;
    let configuration = varied(alloc, "", "")?;
    let data = square_wave(alloc)?;
    let mut shelf = shelf_of(alloc, job.as_str(), configuration.as_str(), &data)?;
    let (status, first) = answer_of(&rt, alloc, &mut shelf, "report J C D 1")?;
    assert_eq!(rt; status, 0);
    assert!(rt; is_calm(&first));
    for (piece, line) in [
        (1, "report J C D 2"),
        (7, "report J C D 6"),
        (65_536, "report J C D 16"),
        (65_536, "report J C D 01"),
    ] {
        let mut shelf = shelf_of(alloc, job.as_str(), configuration.as_str(), &data)?;
        shelf.piece(piece);
        let (status, text) = answer_of(&rt, alloc, &mut shelf, line)?;
        assert_eq!(rt; status, 0, "{line}");
        assert!(rt; text.as_slice() == first.as_slice(), "{line}");
    }
    Ok(())
}

// ---- a voltage that fails

// Counts how often each place was entered.
#[derive(Drop)]
struct Counting {
    entries: [AtomicU32; 6],
}

impl Gate for Counting {
    ghost use Rattle.std.specs.Prelude.{nat_lt};

    ghost admits = { λ _ phase. nat_lt phase 6 };

    fn enter(&self, phase: usize) {
        self.entries[phase].fetch_add(1, Ordering::SeqCst);
    }
}

// A minute of 230 V, and then ten of nothing. The 25 blocks of at most 65,536 records are each worked once.
#[test]
fn a_voltage_that_fails(rt: HostRuntime) -> Result<(), Fail> {
    let alloc = rt.alloc();
    let configuration = varied(alloc, "2400,4800", "2400,1584000")?;
    let mut data = wave(alloc, 144_000)?;
    for k in 144_000..1_584_000u32 {
        data.extend_from_slice(&(k + 1).to_le_bytes())?;
        data.extend_from_slice(&[0; 6])?;
    }
    let words = words_of(alloc, "report J C D 3")?;
    let mut shelf = shelf_of(alloc, JOB, configuration.as_str(), &data)?;
    let mut sink = MemSink::new(alloc, 2000, 500)?;
    let gate = Counting {
        entries: [
            AtomicU32::new(0),
            AtomicU32::new(0),
            AtomicU32::new(0),
            AtomicU32::new(0),
            AtomicU32::new(0),
            AtomicU32::new(0),
        ],
    };
    let status = run(&rt, alloc, &words, &mut shelf, &mut sink, &gate);
    assert_eq!(rt; status, 1);
    assert_eq!(rt; gate.entries[0].load(Ordering::SeqCst), 25);
    assert_eq!(rt; gate.entries[1].load(Ordering::SeqCst), 0);
    let Ok(text) = str::from_utf8(sink.written()) else {
        return Err(Fail::new("no text"));
    };
    for line in [
        "\nform standard\n",
        "\nrecords 1584000\n",
        "\nintervals 1\n",
        "\nhalf-periods 35999\n",
        "\ndc 1.000000000 to 1.000000000 limit 0.033000000 fail\n",
        "\nt 0 to 0 limit 50 pass\n",
        "\npst 1 6.798988216 to 6.798988222 limit 1.000000000 fail\n",
        "\nplt none\nverdict fail\n",
    ] {
        assert!(rt; text.contains(line), "{line}");
    }
    Ok(())
}

// ---- faults of the words, the job, the configuration and their match

#[test]
fn each_fault_of_the_words(rt: HostRuntime) -> Result<(), Fail> {
    let alloc = rt.alloc();
    for line in [
        "report",
        "report J C D",
        "report J C D 0",
        "report J C D 17",
        "report J C D +1",
        "report J C D 1 1",
        "report J J D 1",
        "report J C J 1",
        "report J C C 1",
    ] {
        let mut shelf = MemShelf::new(alloc);
        let (status, text) = answer_of(&rt, alloc, &mut shelf, line)?;
        assert_eq!(rt; status, 2, "{line}");
        assert!(rt; text.as_slice() == b"fault usage\n".as_slice(), "{line}");
    }
    Ok(())
}

// The job is judged before the configuration, which is no configuration here.
#[test]
fn each_fault_of_a_job(rt: HostRuntime) -> Result<(), Fail> {
    let alloc = rt.alloc();
    for (old, new, fault) in [
        ("dmax = 4", "dmax = 5", "fault job 5 5\n"),
        ("dmax = 4", "dmax = 4\nlimit = 4", "fault job 0 2\n"),
        ("nominal_mv = 230000\n", "", "fault job 2 3\n"),
        ("uv = 0", "uv = 2300001", "fault job 3 5\n"),
        ("[1]", "1", "fault job 4 4\n"),
        ("dmax = 4", "dmax =", "fault job 0 1\n"),
    ] {
        let job = short_job(alloc, old, new)?;
        assert!(rt;
            is_refused(&rt, alloc, job.as_str(), "", b"", fault)?,
            "{fault}"
        );
    }
    let mut job = short_job(alloc, "", "")?;
    for _ in job.len()..65_537 {
        job.push(' ')?;
    }
    assert!(rt; is_refused(&rt, alloc, job.as_str(), "", b"", "fault job 0 6\n")?);
    Ok(())
}

// Four channels, of which the last is a current.
const FOUR: &str = "1,1A,0D\r\n1,U,A,,V,0.01,0,0,-32767,32767,1,1,P\r\n";

const FOUR_CHANNELS: &str = "4,4A,0D\r\n\
    1,U L1,A,,V,0.01,0,0,-32767,32767,1,1,P\r\n\
    2,U L2,B,,V,0.01,0,0,-32767,32767,1,1,P\r\n\
    3,U L3,C,,V,0.01,0,0,-32767,32767,1,1,P\r\n\
    4,I L1,A,,A,0.01,0,0,-32767,32767,1,1,P\r\n";

#[test]
fn each_fault_of_a_match(rt: HostRuntime) -> Result<(), Fail> {
    let alloc = rt.alloc();
    let four = varied(alloc, FOUR, FOUR_CHANNELS)?;
    let one = varied(alloc, "", "")?;
    let scale = varied(alloc, ",0.01,", ",10000.5,")?;
    let long = varied(alloc, "2400,4800", "2400,20000001")?;
    let long_at_4800 = varied(alloc, "2400,4800", "4800,40000001")?;
    let short = short_job(alloc, "", "")?;
    let standard = short_job(alloc, SHORT, "")?;
    let seven = short_job(alloc, "[1]", "[7]")?;
    let current = short_job(alloc, "[1]", "[1, 4]")?;
    let lamp = short_job(alloc, "230/50", "120/60")?;
    for (job, configuration, fault) in [
        (&seven, &four, "fault match 1 7 4\n"),
        (&current, &four, "fault match 2 4 0\n"),
        (&short, &scale, "fault match 3 1 0\n"),
        (&lamp, &one, "fault match 4 60 50\n"),
        (&standard, &one, "fault match 5 1584000 4800\n"),
        (&short, &long, "fault match 6 20000000 20000001\n"),
        (&short, &long_at_4800, "fault match 6 40000000 40000001\n"),
    ] {
        assert!(rt;
            is_refused(&rt, alloc, job.as_str(), configuration.as_str(), b"", fault)?,
            "{fault}"
        );
    }
    assert!(rt; is_refused(&rt, alloc, JOB, "", b"", "fault configuration 1 0 1\n")?);
    Ok(())
}

// ---- the data

const TWO_CHANNELS: &str =
    "2,2A,0D\r\n1,U,A,,V,0.01,0,0,-32767,32767,1,1,P\r\n2,V,B,,V,0.01,0,0,-32767,32767,1,1,P\r\n";

// A configuration of two channels and 2400 records.
fn two_channels(alloc: Global) -> Result<String, OutOfMemory> {
    let text = varied(alloc, "2400,4800", "2400,2400")?;
    let mut whole = String::new(alloc);
    if let Some((before, after)) = text.as_str().split_once(FOUR) {
        for part in [before, TWO_CHANNELS, after] {
            whole.push_str(part)?;
        }
    }
    Ok(whole)
}

// The square wave of 100 V in two channels, with 230 V in some records, from 1, of the one and of the other. From one
// record on the sample numbers are one greater.
fn two_waves(
    alloc: Global,
    first: &[u32],
    second: &[u32],
    jump: u32,
) -> Result<Vec<u8>, OutOfMemory> {
    let mut bytes = Vec::new(alloc);
    for k in 1..2401u32 {
        let number = if k < jump { k } else { k + 1 };
        bytes.extend_from_slice(&number.to_le_bytes())?;
        bytes.extend_from_slice(&[0; 4])?;
        for far in [first, second] {
            let size: i16 = if far.contains(&k) { 23000 } else { 10000 };
            let value = if (k - 1) / 24 % 2 == 0 { size } else { -size };
            bytes.extend_from_slice(&value.to_le_bytes())?;
        }
    }
    Ok(bytes)
}

// A job of one interval of a second of these channels.
fn job_of(alloc: Global, nominal_mv: u32, channels: &str) -> Result<String, OutOfMemory> {
    format!(in alloc;
        "lamp = \"230/50\"\nnominal_mv = {nominal_mv}\nuncertainty_uv = 0\nchannels = {channels}\n\
        dmax = 4\nrun_in_s = 0\ninterval_s = 1\n"
    )
}

// The record with the least number is named, in a record its form comes before its voltages, and of these the job's
// first channel.
#[test]
fn the_first_fault_of_the_data(rt: HostRuntime) -> Result<(), Fail> {
    let alloc = rt.alloc();
    let configuration = two_channels(alloc)?;
    for (channels, first, second, jump, fault) in [
        ("[1, 2]", 100, 100, 9999, "fault range 100 1\n"),
        ("[2, 1]", 100, 100, 9999, "fault range 100 2\n"),
        ("[1, 2]", 200, 100, 9999, "fault range 100 2\n"),
        ("[1]", 200, 100, 9999, "fault range 200 1\n"),
        ("[1, 2]", 100, 9999, 100, "fault data 100 1 4\n"),
        ("[1, 2]", 100, 9999, 101, "fault range 100 1\n"),
        ("[2]", 100, 9999, 2400, "fault data 2400 1 4\n"),
    ] {
        let job = job_of(alloc, 50_000, channels)?;
        let data = two_waves(alloc, &[first], &[second], jump)?;
        assert!(rt;
            is_refused(
                &rt,
                alloc,
                job.as_str(),
                configuration.as_str(),
                &data,
                fault
            )?,
            "{fault}"
        );
    }
    Ok(())
}

// The last record lacks a byte.
#[test]
fn a_record_that_is_cut_off(rt: HostRuntime) -> Result<(), Fail> {
    let alloc = rt.alloc();
    let job = short_job(alloc, "", "")?;
    let configuration = varied(alloc, "", "")?;
    let mut data = square_wave(alloc)?;
    let _ = data.pop();
    let fault = "fault data 4800 0 5\n";
    assert!(rt;
        is_refused(
            &rt,
            alloc,
            job.as_str(),
            configuration.as_str(),
            &data,
            fault
        )?
    );
    Ok(())
}

// ---- workers, and failures

// Holds each of two phases until the other was entered.
#[derive(Drop)]
pub struct Meeting {
    pub entered: [AtomicBool; 2],
    pub met: AtomicU32,
}

impl Gate for Meeting {
    ghost use Rattle.std.specs.Prelude.{true};

    ghost admits = { λ _ phase. true };

    fn enter(&self, phase: usize) {
        let here = phase % 2;
        self.entered[here].store(true, Ordering::SeqCst);
        for _ in 0..100_000_000u32 {
            if self.entered[1 - here].load(Ordering::SeqCst) {
                self.met.fetch_add(1, Ordering::SeqCst);
                return;
            }
        }
    }
}

#[test]
fn two_workers_meet(rt: HostRuntime) -> Result<(), Fail> {
    let alloc = rt.alloc();
    let job = job_of(alloc, 100_000, "[1, 2]")?;
    let configuration = two_channels(alloc)?;
    let data = two_waves(alloc, &[], &[], 9999)?;
    let words = words_of(alloc, "report J C D 2")?;
    let mut shelf = shelf_of(alloc, job.as_str(), configuration.as_str(), &data)?;
    let mut sink = MemSink::new(alloc, 4000, 500)?;
    let gate = Meeting {
        entered: [AtomicBool::new(false), AtomicBool::new(false)],
        met: AtomicU32::new(0),
    };
    assert_eq!(rt; run(&rt, alloc, &words, &mut shelf, &mut sink, &gate), 0);
    assert_eq!(rt; gate.met.load(Ordering::SeqCst), 2);
    Ok(())
}

// The read of the job fails, that of the configuration, and the first of the data; and then the second write.
#[test]
fn failures_of_a_report(rt: HostRuntime) -> Result<(), Fail> {
    let alloc = rt.alloc();
    let job = short_job(alloc, "", "")?;
    let configuration = varied(alloc, "", "")?;
    let data = square_wave(alloc)?;
    let words = words_of(alloc, "report J C D 1")?;
    for (read, write, status, text, faults) in [
        (1, 99, 4, "fault read\n", (1, 0)),
        (3, 99, 4, "fault read\n", (1, 0)),
        (5, 99, 4, "fault read\n", (1, 0)),
        (99, 2, 5, "report\nprofile flick", (0, 1)),
    ] {
        let mut shelf = shelf_of(alloc, job.as_str(), configuration.as_str(), &data)?;
        shelf.fail_at(read)?;
        let mut sink = MemSink::new(alloc, 2000, 20)?;
        sink.fail_at(write)?;
        let answered = run(&rt, alloc, &words, &mut shelf, &mut sink, &Open);
        assert_eq!(rt; answered, status);
        assert!(rt; sink.written() == text.as_bytes(), "{text}");
        assert_eq!(rt; (shelf.faults(), sink.faults()), faults);
    }
    Ok(())
}
