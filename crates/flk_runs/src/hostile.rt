// What files and calls do that mean no good: files cut at each byte, calls that fail one after the other, huge claims.
use crate::blocks::ascii;
use crate::commands::{Open, square_wave, varied, wave, words_of};
use crate::report::{answer_of, shelf_of, short_job};
use flk_io::{MemShelf, MemSink, OutOfMemory};
use flk_top::run;
use std::alloc::Global;
use std::test::Fail;
use std::thread::Threads;

const LEVELS: &str = "levels C D 1 230000 0";

const CHECK: &str = "check C D";

const REPORT: &str = "report J C D 1";

// Whether the words have this fault line, in pieces of 65,536 bytes.
fn is_fault<R: Threads + Sync>(
    rt: &R,
    alloc: Global,
    shelf: &mut MemShelf,
    line: &str,
    fault: &str,
) -> Result<bool, OutOfMemory> {
    let (status, text) = answer_of(rt, alloc, shelf, line)?;
    Ok(status == 2 && text.as_slice() == fault.as_bytes())
}

// ---- files that are cut

// The first bytes of a file, or all where it has no more.
pub fn front(bytes: &[u8], count: usize) -> &[u8] {
    bytes.get(..count).unwrap_or(bytes)
}

// Whether the first record that isn't whole is told where so many bytes of the data of so many records are there.
fn is_cut_told<R: Threads + Sync>(
    rt: &R,
    alloc: Global,
    line: &str,
    records: u32,
    count: usize,
) -> Result<bool, OutOfMemory> {
    let job = short_job(alloc, "", "")?;
    let samples = format!(in alloc; "2400,{records}")?;
    let configuration = varied(alloc, "2400,4800", samples.as_str())?;
    let data = wave(alloc, records)?;
    let cut = front(&data, count);
    let mut shelf = shelf_of(alloc, job.as_str(), configuration.as_str(), cut)?;
    let fault = format!(in alloc; "fault data {} 0 5\n", 1 + count / 10)?;
    is_fault(rt, alloc, &mut shelf, line, fault.as_str())
}

#[test]
fn data_cut_at_each_byte(rt: HostRuntime) -> Result<(), Fail> {
    for line in [LEVELS, CHECK] {
        for k in 0..480 {
            assert!(rt; is_cut_told(&rt, rt.alloc(), line, 48, k)?, "{line} {k}");
        }
    }
    Ok(())
}

// The least records that make an interval have 24,000 bytes.
#[test]
fn data_of_a_report_cut(rt: HostRuntime) -> Result<(), Fail> {
    for k in 0..238 {
        assert!(rt; is_cut_told(&rt, rt.alloc(), REPORT, 2400, 101 * k)?, "{k}");
    }
    Ok(())
}

// The first bytes of a configuration of 48 records: from each number on, up to the next one, they have this fault.
const CUTS: [(usize, usize, &str); 29] = [
    (0, 1, "1 0 1"),
    (1, 4, "1 0 2"),
    (4, 12, "1 3 6"),
    (12, 15, "2 0 1"),
    (15, 19, "2 0 2"),
    (19, 21, "2 3 5"),
    (21, 24, "3 0 1"),
    (24, 58, "3 0 2"),
    (58, 59, "3 13 5"),
    (59, 62, "4 0 1"),
    (62, 66, "5 0 1"),
    (66, 69, "6 0 1"),
    (69, 73, "6 0 2"),
    (73, 74, "6 2 3"),
    (74, 78, "7 0 1"),
    (78, 88, "7 0 2"),
    (88, 96, "7 2 3"),
    (96, 97, "8 0 1"),
    (97, 98, "7 2 3"),
    (98, 106, "8 0 1"),
    (106, 116, "8 0 2"),
    (116, 124, "8 2 3"),
    (124, 125, "9 0 1"),
    (125, 126, "8 2 3"),
    (126, 134, "9 0 1"),
    (134, 139, "9 1 5"),
    (139, 142, "10 0 1"),
    (142, 144, ""),
    (144, 145, ""),
];

const ONE_HALF_PERIOD: &str =
    "levels channel 1\nhalf-periods 1\nleast 1.000000000 to 1.000000000\ngreatest 1.000000000 to 1.000000000\n";

// Without the end of its last line it is whole.
#[test]
fn configuration_cut_at_each_byte(rt: HostRuntime) -> Result<(), Fail> {
    let alloc = rt.alloc();
    let configuration = varied(alloc, "2400,4800", "2400,48")?;
    let data = wave(alloc, 48)?;
    for (begin, end, place) in CUTS {
        let (status, text) = if place.is_empty() {
            (0, String::from_str(alloc, ONE_HALF_PERIOD)?)
        } else {
            (2, format!(in alloc; "fault configuration {place}\n")?)
        };
        for k in begin..end {
            let mut shelf = MemShelf::new(alloc);
            shelf.put("C", front(configuration.as_bytes(), k))?;
            shelf.put("D", &data)?;
            let (answered, written) = answer_of(&rt, alloc, &mut shelf, LEVELS)?;
            assert_eq!(rt; answered, status, "{k}");
            assert_eq!(rt; written.as_slice(), text.as_bytes(), "{k}");
        }
    }
    Ok(())
}

// ---- calls that fail

// A shelf of a job, a configuration of so many records and their data, which come in pieces of 16 bytes.
fn shelf_in_pieces(alloc: Global, records: u32) -> Result<MemShelf, OutOfMemory> {
    let job = short_job(alloc, "", "")?;
    let samples = format!(in alloc; "2400,{records}")?;
    let configuration = varied(alloc, "2400,4800", samples.as_str())?;
    let mut shelf = shelf_of(
        alloc,
        job.as_str(),
        configuration.as_str(),
        &wave(alloc, records)?,
    )?;
    shelf.piece(16);
    Ok(shelf)
}

// How many reads of a command failed, each in a run of its own, until it made no more. Each was told.
fn failed_reads<R: Threads + Sync>(
    rt: &R,
    alloc: Global,
    line: &str,
    records: u32,
) -> Result<Option<u64>, OutOfMemory> {
    for call in 1..2000 {
        let mut shelf = shelf_in_pieces(alloc, records)?;
        shelf.fail_at(call)?;
        let (status, text) = answer_of(rt, alloc, &mut shelf, line)?;
        if status == 0 {
            return Ok(Some(call - 1));
        }
        if status != 4 || text.as_slice() != b"fault read\n".as_slice() || shelf.faults() != 1 {
            return Ok(None);
        }
    }
    Ok(None)
}

// 16 bytes at a time, `levels` and `check` read the configuration's 144 bytes and the data's 480, and `report` a job of
// 107 bytes, a configuration of 146 and data of 24,000; and one read tells the end of each.
#[test]
fn each_read_fails(rt: HostRuntime) -> Result<(), Fail> {
    for (line, records, reads) in [(LEVELS, 48, 41), (CHECK, 48, 41), (REPORT, 2400, 1520)] {
        let failed = failed_reads(&rt, rt.alloc(), line, records)?;
        assert_eq!(rt; failed, Some(reads), "{line}");
    }
    Ok(())
}

// What was written before the write that fails stands.
#[test]
fn each_write_fails(rt: HostRuntime) -> Result<(), Fail> {
    let alloc = rt.alloc();
    for (line, records) in [
        (LEVELS, 48),
        (CHECK, 48),
        (REPORT, 2400),
        ("tables 230/50", 48),
    ] {
        let (status, whole) = answer_of(&rt, alloc, &mut shelf_in_pieces(alloc, records)?, line)?;
        assert_eq!(rt; status, 0, "{line}");
        let words = words_of(alloc, line)?;
        for call in 0..250usize {
            if 16 * call < whole.len() {
                let mut shelf = shelf_in_pieces(alloc, records)?;
                let mut sink = MemSink::new(alloc, 4000, 16)?;
                sink.fail_at(call as u64 + 1)?;
                let answered = run(&rt, alloc, &words, &mut shelf, &mut sink, &Open);
                assert_eq!(rt; answered, 5, "{line} {call}");
                assert_eq!(rt; sink.written(), front(&whole, 16 * call), "{line} {call}");
                assert_eq!(rt; (shelf.faults(), sink.faults()), (0, 1));
            }
        }
    }
    Ok(())
}

// A read fails, and then the write of the line that tells it.
#[test]
fn a_read_and_its_line_fail(rt: HostRuntime) -> Result<(), Fail> {
    let alloc = rt.alloc();
    for line in [LEVELS, CHECK, REPORT] {
        let words = words_of(alloc, line)?;
        let mut shelf = shelf_in_pieces(alloc, 48)?;
        shelf.fail_at(1)?;
        let mut sink = MemSink::new(alloc, 100, 16)?;
        sink.fail_at(1)?;
        assert_eq!(rt;
            run(&rt, alloc, &words, &mut shelf, &mut sink, &Open),
            5,
            "{line}"
        );
        assert!(rt; sink.written().is_empty());
        assert_eq!(rt; (shelf.faults(), sink.faults()), (1, 1));
    }
    Ok(())
}

// ---- huge claims

// A byte, so many times.
fn repeated(alloc: Global, byte: u8, count: usize) -> Result<Vec<u8>, OutOfMemory> {
    let mut bytes = Vec::new(alloc);
    for _ in 0..count {
        bytes.push(byte)?;
    }
    Ok(bytes)
}

#[test]
fn claims_of_a_configuration(rt: HostRuntime) -> Result<(), Fail> {
    let alloc = rt.alloc();
    let data = square_wave(alloc)?;
    let many = varied(alloc, "1,1A,0D", "99999999999999999999,1A,0D")?;
    let records = varied(alloc, "2400,4800", "2400,4294967295")?;
    for (configuration, fault) in [
        (many.as_str(), "fault configuration 2 1 4\n"),
        (
            "LAB,DAQ,1999\r\n256,256A,0D\r\n",
            "fault configuration 3 0 1\n",
        ),
        (records.as_str(), "fault data 4801 0 5\n"),
    ] {
        for line in [LEVELS, CHECK] {
            let mut shelf = shelf_of(alloc, "", configuration, &data)?;
            assert!(rt;
                is_fault(&rt, alloc, &mut shelf, line, fault)?,
                "{line} {fault}"
            );
        }
    }
    Ok(())
}

// A line of 16,385 bytes, and 65,537 line ends behind the last record.
#[test]
fn claims_of_ascii_data(rt: HostRuntime) -> Result<(), Fail> {
    let alloc = rt.alloc();
    let configuration = ascii(alloc, "1")?;
    let mut long = repeated(alloc, b'0', 16_385)?;
    long.push(b'\n')?;
    let mut ends = Vec::new(alloc);
    ends.extend_from_slice(b"1,,0\n")?;
    ends.extend_from_slice(&repeated(alloc, b'\n', 65_537)?)?;
    for (data, fault) in [(&long, "fault data 1 0 8\n"), (&ends, "fault data 2 0 6\n")] {
        for line in [LEVELS, CHECK] {
            let mut shelf = shelf_of(alloc, "", configuration.as_str(), data)?;
            assert!(rt;
                is_fault(&rt, alloc, &mut shelf, line, fault)?,
                "{line} {fault}"
            );
        }
    }
    Ok(())
}

// 65,536 brackets that open are no TOML document, and one byte more is above the limit.
#[test]
fn claims_of_a_job(rt: HostRuntime) -> Result<(), Fail> {
    let alloc = rt.alloc();
    let configuration = varied(alloc, "", "")?;
    for (count, fault) in [(65_536, "fault job 0 1\n"), (65_537, "fault job 0 6\n")] {
        let mut shelf = MemShelf::new(alloc);
        shelf.put("J", &repeated(alloc, b'[', count)?)?;
        shelf.put("C", configuration.as_bytes())?;
        shelf.put("D", &square_wave(alloc)?)?;
        assert!(rt; is_fault(&rt, alloc, &mut shelf, REPORT, fault)?, "{fault}");
    }
    Ok(())
}
