ghost use Rattle.std.specs.Prelude.{◌≤◌};

use crate::commands::{Open, words_of};
use crate::hostile::front;
use crate::report::{Meeting, answer_of, short_job};
use flk_io::{MemShelf, MemSink, OutOfMemory};
use flk_top::run;
use std::alloc::Global;
use std::sync::atomic::{AtomicBool, AtomicU32, Ordering};
use std::test::Fail;
use std::thread::Threads;

// The configuration of a second.
const CONFIGURATION: &str = "GENERATED,FLK,1999
3,3A,0D
1,UA,A,,V,0.0125,0,0,-99999,99999,1,1,P
2,UB,B,,V,0.0125,0,0,-99999,99999,1,1,P
3,UC,C,,V,0.0125,0,0,-99999,99999,1,1,P
50
1
2400,2400
01/01/2000,00:00:00.000000
01/01/2000,00:00:00.000000
ASCII
1
";

// The first two records and the last one of seed 1 and a second.
const FIRST: &str = "1,0,0,-22401,22536\r\n2,416,3397,-23897,20645\r\n";

const LAST: &str = "\r\n2400,999583,-3397,-20584,23968\r\n";

const SUMMARY: &str = "gen\nrecords 2400\nlast -3397 -20584 23968\n";

const CHECKED: &str = "check\nanalog 3 digital 0\nrecords 2400\nfirst 1\nform ASCII\n";

// A text with CR before each LF.
fn with_cr(alloc: Global, text: &str) -> Result<String, OutOfMemory> {
    let mut out = String::new(alloc);
    for line in text.lines() {
        out.push_str(line)?;
        out.push_str("\r\n")?;
    }
    Ok(out)
}

// An empty shelf with room for so many bytes of data, to which a call moves at most so many.
fn empty_shelf(alloc: Global, room: usize, most: usize) -> Result<MemShelf, OutOfMemory>
    requires { 1 ≤ most }
{
    let mut shelf = MemShelf::new(alloc);
    shelf.room("C", 1000)?;
    shelf.room("D", room)?;
    shelf.piece(most);
    Ok(shelf)
}

// A shelf on which what was added to the first one, and this job, can be read.
fn next_shelf(alloc: Global, shelf: &MemShelf, job: &str) -> Result<MemShelf, OutOfMemory> {
    let mut next = MemShelf::new(alloc);
    next.put("J", job.as_bytes())?;
    next.put("C", shelf.added("C"))?;
    next.put("D", shelf.added("D"))?;
    Ok(next)
}

// Whether a second is generated where an append takes so many bytes at most, and what is generated is accepted.
fn is_generated<R: Threads + Sync>(rt: &R, alloc: Global, most: usize) -> Result<bool, OutOfMemory>
    requires { 1 ≤ most }
{
    let configuration = with_cr(alloc, CONFIGURATION)?;
    let mut shelf = empty_shelf(alloc, 100_000, most)?;
    let (status, text) = answer_of(rt, alloc, &mut shelf, "gen 1 1 C D")?;
    let mut next = next_shelf(alloc, &shelf, "")?;
    let (checked, summary) = answer_of(rt, alloc, &mut next, "check C D")?;
    Ok(
        status == 0
            && text.as_slice() == SUMMARY.as_bytes()
            && shelf.added("C") == configuration.as_bytes()
            && shelf.added("D").starts_with(FIRST.as_bytes())
            && shelf.added("D").ends_with(LAST.as_bytes())
            && shelf.faults() == 0
            && checked == 0
            && summary.as_slice() == CHECKED.as_bytes(),
    )
}

#[test]
fn a_generated_second(rt: HostRuntime) -> Result<(), Fail> {
    assert!(rt; is_generated(&rt, rt.alloc(), 65_536)?);
    assert!(rt; is_generated(&rt, rt.alloc(), 1000)?);
    assert!(rt; is_generated(&rt, rt.alloc(), 7)?);
    Ok(())
}

#[test]
fn words_that_generate_nothing(rt: HostRuntime) -> Result<(), Fail> {
    for line in [
        "gen 1 0 C D",
        "gen 1 8001 C D",
        "gen 4294967296 1 C D",
        "gen -1 1 C D",
        "gen 1 1 C C",
        "gen 1 1 C",
        "gen 1 1 C D E",
    ] {
        let mut shelf = empty_shelf(rt.alloc(), 100_000, 65_536)?;
        let (status, text) = answer_of(&rt, rt.alloc(), &mut shelf, line)?;
        assert_eq!(rt; status, 2, "{line}");
        assert_eq!(rt; text.as_slice(), b"fault usage\n".as_slice());
        assert!(rt; shelf.added("C").is_empty() && shelf.added("D").is_empty());
    }
    Ok(())
}

// Whether each name has a front of what it has on the other shelf, the data none unless the configuration is whole.
fn is_begun(shelf: &MemShelf, whole: &MemShelf) -> bool {
    whole.added("C").starts_with(shelf.added("C"))
        && whole.added("D").starts_with(shelf.added("D"))
        && (shelf.added("D").is_empty() || shelf.added("C") == whole.added("C"))
}

// How many appends of a generated second failed, each in a run of its own, until it made no more. Nothing was written.
fn failed_appends<R: Threads + Sync>(
    rt: &R,
    alloc: Global,
    whole: &MemShelf,
) -> Result<Option<u64>, OutOfMemory> {
    for call in 1..100 {
        let mut shelf = empty_shelf(alloc, 100_000, 4096)?;
        shelf.fail_at(call)?;
        let (status, text) = answer_of(rt, alloc, &mut shelf, "gen 1 1 C D")?;
        if status == 0 {
            return Ok(Some(call - 1));
        }
        if status != 5 || shelf.faults() != 1 || !text.is_empty() || !is_begun(&shelf, whole) {
            return Ok(None);
        }
    }
    Ok(None)
}

// One append takes the configuration, and the others 4096 bytes of the data at most.
#[test]
fn each_append_fails(rt: HostRuntime) -> Result<(), Fail> {
    let alloc = rt.alloc();
    let mut whole = empty_shelf(alloc, 100_000, 4096)?;
    let (status, _) = answer_of(&rt, alloc, &mut whole, "gen 1 1 C D")?;
    assert_eq!(rt; status, 0);
    let appends = whole.added("D").len() as u64 / 4096;
    let failed = failed_appends(&rt, alloc, &whole)?;
    assert!(rt; failed.unwrap_or(0) > appends);
    Ok(())
}

// The first append of the data fails: the configuration is whole.
#[test]
fn the_second_append_fails(rt: HostRuntime) -> Result<(), Fail> {
    let alloc = rt.alloc();
    let configuration = with_cr(alloc, CONFIGURATION)?;
    let mut shelf = empty_shelf(alloc, 100_000, 4096)?;
    shelf.fail_at(2)?;
    let (status, text) = answer_of(&rt, alloc, &mut shelf, "gen 1 1 C D")?;
    assert_eq!(rt; (status, shelf.faults()), (5, 1));
    assert!(rt; text.is_empty());
    assert_eq!(rt; shelf.added("C"), configuration.as_bytes());
    assert!(rt; shelf.added("D").is_empty());
    Ok(())
}

// The summary has 41 bytes, which are written 16 at a time. Both files are whole, and what was written before stands.
#[test]
fn each_write_of_the_summary_fails(rt: HostRuntime) -> Result<(), Fail> {
    let alloc = rt.alloc();
    let words = words_of(alloc, "gen 1 1 C D")?;
    let mut whole = empty_shelf(alloc, 100_000, 65_536)?;
    let (status, text) = answer_of(&rt, alloc, &mut whole, "gen 1 1 C D")?;
    assert_eq!(rt; (status, text.len()), (0, 41));
    for call in 0..3usize {
        let mut shelf = empty_shelf(alloc, 100_000, 65_536)?;
        let mut sink = MemSink::new(alloc, 100, 16)?;
        sink.fail_at(call as u64 + 1)?;
        let answered = run(&rt, alloc, &words, &mut shelf, &mut sink, &Open);
        assert_eq!(rt; answered, 5, "{call}");
        assert_eq!(rt; sink.written(), front(&text, 16 * call), "{call}");
        assert_eq!(rt; (shelf.faults(), sink.faults()), (0, 1));
        assert_eq!(rt; shelf.added("C"), whole.added("C"));
        assert_eq!(rt; shelf.added("D"), whole.added("D"));
    }
    Ok(())
}

// No place is left under the second name: the configuration is whole.
#[test]
fn no_place_for_the_data(rt: HostRuntime) -> Result<(), Fail> {
    let alloc = rt.alloc();
    let configuration = with_cr(alloc, CONFIGURATION)?;
    let mut shelf = empty_shelf(alloc, 0, 65_536)?;
    let (status, text) = answer_of(&rt, alloc, &mut shelf, "gen 1 1 C D")?;
    assert_eq!(rt; (status, shelf.faults()), (5, 1));
    assert!(rt; text.is_empty());
    assert_eq!(rt; shelf.added("C"), configuration.as_bytes());
    assert!(rt; shelf.added("D").is_empty());
    Ok(())
}

// The job of an interval of ten minutes behind a minute, on all three channels.
const JOB: &str =
    "lamp = \"230/50\"\nnominal_mv = 230000\nuncertainty_uv = 6250\nchannels = [1, 2, 3]\ndmax = 7\n";

// Eleven generated minutes have one report for each number of workers.
#[test]
fn a_generated_report(rt: HostRuntime) -> Result<(), Fail> {
    let alloc = rt.alloc();
    let mut shelf = empty_shelf(alloc, 70_000_000, 65_536)?;
    let (status, _) = answer_of(&rt, alloc, &mut shelf, "gen 1 660 C D")?;
    assert_eq!(rt; status, 0);
    let mut first = Vec::new(alloc);
    for line in ["report J C D 1", "report J C D 2", "report J C D 6"] {
        let mut next = next_shelf(alloc, &shelf, JOB)?;
        let (status, text) = answer_of(&rt, alloc, &mut next, line)?;
        assert!(rt; is_report(&text, status), "{line}");
        if first.is_empty() {
            first.extend_from_slice(&text)?;
        }
        assert!(rt; text.as_slice() == first.as_slice(), "{line}");
    }
    Ok(())
}

// Two channels of a generated second are worked at the same time.
#[test]
fn two_generated_channels_meet(rt: HostRuntime) -> Result<(), Fail> {
    let alloc = rt.alloc();
    let mut shelf = empty_shelf(alloc, 100_000, 65_536)?;
    let (status, _) = answer_of(&rt, alloc, &mut shelf, "gen 1 1 C D")?;
    assert_eq!(rt; status, 0);
    let job = short_job(alloc, "channels = [1]", "channels = [1, 2]")?;
    let mut next = next_shelf(alloc, &shelf, job.as_str())?;
    let words = words_of(alloc, "report J C D 2")?;
    let mut sink = MemSink::new(alloc, 4000, 500)?;
    let gate = Meeting {
        entered: [AtomicBool::new(false), AtomicBool::new(false)],
        met: AtomicU32::new(0),
    };
    let answered = run(&rt, alloc, &words, &mut next, &mut sink, &gate);
    assert!(rt; answered != 2 && answered < 4);
    assert_eq!(rt; gate.met.load(Ordering::SeqCst), 2);
    Ok(())
}

// A report of one interval on three channels without doubt, whose last line is that of the status.
fn is_report(text: &[u8], status: u8) -> bool {
    let Ok(text) = str::from_utf8(text) else {
        return false;
    };
    let end = match status {
        0 => "\nverdict pass\n",
        1 => "\nverdict fail\n",
        _ => "\nverdict undecided\n",
    };
    status != 2
        && status < 4
        && text.starts_with("report\n")
        && text.contains("\nrecords 1584000\nintervals 1\n")
        && text.split("\ndoubtful 0\n").count() == 4
        && text.ends_with(end)
}
