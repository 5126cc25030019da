ghost use Rattle.std.specs.Prelude.{◌≤◌};

use crate::commands::{Open, UNCERTAIN, square_wave, varied, wave, words_of};
use flk_io::{MemShelf, MemSink, OutOfMemory};
use flk_top::run;
use std::alloc::Global;
use std::test::Fail;
use std::thread::Threads;

/// A command over the files C and D, and what it must answer.
#[derive(Clone, Copy)]
struct Case<'a> {
    line: &'a str,
    configuration: &'a str,
    bytes: &'a [u8],
    status: u8,
    text: &'a str,
}

// Whether the command is answered so where a read gives so many bytes at most.
fn is_answered_in<R: Threads + Sync>(
    rt: &R,
    alloc: Global,
    most: usize,
    case: &Case,
) -> Result<bool, OutOfMemory>
    requires { 1 ≤ most }
{
    let words = words_of(alloc, case.line)?;
    let mut shelf = MemShelf::new(alloc);
    shelf.put("C", case.configuration.as_bytes())?;
    shelf.put("D", case.bytes)?;
    shelf.piece(most);
    let mut sink = MemSink::new(alloc, 200, 16)?;
    let answered = run(rt, alloc, &words, &mut shelf, &mut sink, &Open);
    Ok(answered == case.status && sink.written() == case.text.as_bytes())
}

// Whether it is answered so however the files come.
fn is_answered<R: Threads + Sync>(rt: &R, alloc: Global, case: &Case) -> Result<bool, OutOfMemory> {
    Ok(
        is_answered_in(rt, alloc, 1, case)?
            && is_answered_in(rt, alloc, 7, case)?
            && is_answered_in(rt, alloc, 65536, case)?,
    )
}

/// A command, its status and its text.
type Row<'a> = (&'a str, u8, &'a str);

// The command of the first row that is not answered so over these files.
fn first_wrong<'a, R: Threads + Sync>(
    rt: &R,
    alloc: Global,
    configuration: &str,
    bytes: &[u8],
    rows: &[Row<'a>],
) -> Result<Option<&'a str>, OutOfMemory> {
    for (line, status, text) in rows {
        let case = Case {
            line: *line,
            configuration,
            bytes,
            status: *status,
            text: *text,
        };
        if !is_answered(rt, alloc, &case)? {
            return Ok(Some(*line));
        }
    }
    Ok(None)
}

const SUMMARY: &str = "check\nanalog 1 digital 0\nrecords 4800\nfirst 1\nform BINARY\n";

#[test]
fn whole_data(rt: HostRuntime) -> Result<(), Fail> {
    let alloc = rt.alloc();
    let configuration = varied(alloc, "", "")?;
    let bytes = square_wave(alloc)?;
    let rows = [
        ("levels C D 1 230000 1", 0, UNCERTAIN),
        ("levels C D 2 230000 0", 2, "fault match 1 2 1\n"),
        ("levels C D 1 50000 0", 2, "fault range 1 1\n"),
        ("check C D", 0, SUMMARY),
    ];
    let wrong = first_wrong(&rt, alloc, configuration.as_str(), &bytes, &rows)?;
    assert_eq!(rt; wrong, None);
    Ok(())
}

// A channel of another unit, and another line frequency.
#[test]
fn channels_of_no_levels(rt: HostRuntime) -> Result<(), Fail> {
    let alloc = rt.alloc();
    let bytes = square_wave(alloc)?;
    for (old, new, text) in [
        (",V,", ",A,", "fault match 2 1 0\n"),
        ("\r\n50\r\n", "\r\n55\r\n", "fault match 4 0 55\n"),
    ] {
        let configuration = varied(alloc, old, new)?;
        let rows = [
            ("levels C D 1 230000 0", 2, text),
            ("check C D", 0, SUMMARY),
        ];
        let wrong = first_wrong(&rt, alloc, configuration.as_str(), &bytes, &rows)?;
        assert_eq!(rt; wrong, None, "{text}");
    }
    Ok(())
}

// The seventh record of 10 bytes has no value.
#[test]
fn a_missing_value(rt: HostRuntime) -> Result<(), Fail> {
    let alloc = rt.alloc();
    let configuration = varied(alloc, "", "")?;
    let mut bytes = square_wave(alloc)?;
    for (at, byte) in [(68, 0), (69, 0x80)] {
        if let Some(place) = bytes.get_mut(at) {
            *place = byte;
        }
    }
    let rows = [
        ("levels C D 1 230000 0", 2, "fault data 7 3 7\n"),
        ("levels C D 1 50000 0", 2, "fault range 1 1\n"),
        ("check C D", 0, SUMMARY),
    ];
    let wrong = first_wrong(&rt, alloc, configuration.as_str(), &bytes, &rows)?;
    assert_eq!(rt; wrong, None);
    Ok(())
}

// The last record lacks a byte, or a byte follows it.
#[test]
fn data_of_another_length(rt: HostRuntime) -> Result<(), Fail> {
    let alloc = rt.alloc();
    let configuration = varied(alloc, "", "")?;
    let mut short = square_wave(alloc)?;
    let _ = short.pop();
    let rows = [("levels C D 1 230000 0", 2, "fault data 4800 0 5\n")];
    let wrong = first_wrong(&rt, alloc, configuration.as_str(), &short, &rows)?;
    assert_eq!(rt; wrong, None);
    let mut long = square_wave(alloc)?;
    long.push(0x1a)?;
    let rows = [("check C D", 2, "fault data 4801 0 6\n")];
    let wrong = first_wrong(&rt, alloc, configuration.as_str(), &long, &rows)?;
    assert_eq!(rt; wrong, None);
    Ok(())
}

// A configuration of ASCII data at 60 Hz with so many records.
pub fn ascii(alloc: Global, records: &str) -> Result<String, OutOfMemory> {
    let mut text = String::from_str(
        alloc,
        "LAB,DAQ,1999\r\n1,1A,0D\r\n1,U,A,,V,0.01,0,0,-32767,32767,1,1,P\r\n60\r\n1\r\n2400,",
    )?;
    for part in [
        records,
        "\r\n12/03/2021,09:15:00.000000\r\n12/03/2021,09:15:00.000000\r\nASCII\r\n1\r\n",
    ] {
        text.push_str(part)?;
    }
    Ok(text)
}

const OF_60_HERTZ: &str =
    "levels channel 1\nhalf-periods 9\nleast 1.000000000 to 1.000000000\ngreatest 1.000000000 to 1.000000000\n";

const THREE: &str = "check\nanalog 1 digital 0\nrecords 3\nfirst 5\nform ASCII\n";

// 200 lines of a number, no time stamp and a value: half a nominal period of 60 Hz has 20 of them.
#[test]
fn ascii_wave(rt: HostRuntime) -> Result<(), Fail> {
    let alloc = rt.alloc();
    let configuration = ascii(alloc, "200")?;
    let mut wave = String::new(alloc);
    for k in 0..200u32 {
        let value = if k / 20 % 2 == 0 { 23000 } else { -23000 };
        let number = k + 1;
        wave.push_str(format!(in alloc; "{number},,{value}\r\n")?.as_str())?;
    }
    let rows = [("levels C D 1 230000 0", 0, OF_60_HERTZ)];
    let wrong = first_wrong(&rt, alloc, configuration.as_str(), wave.as_bytes(), &rows)?;
    assert_eq!(rt; wrong, None);
    Ok(())
}

#[test]
fn ascii_lines(rt: HostRuntime) -> Result<(), Fail> {
    let alloc = rt.alloc();
    let configuration = ascii(alloc, "3")?;
    for (lines, row) in [
        ("5,,0\r\n6,,0\r\n7,,0", ("check C D", 0, THREE)),
        ("5,,0\n6,,0\n7,,0\x1a\r\n", ("check C D", 0, THREE)),
        (
            "5,,0\r\n6,,0\r\n8,,0\r\n",
            ("levels C D 1 230000 0", 2, "fault data 3 1 4\n"),
        ),
        (
            "5,,99999\n6,,92001\n",
            ("levels C D 1 230000 0", 2, "fault data 1 3 7\n"),
        ),
        (
            "5,,0\n6,,92001\nx\n",
            ("levels C D 1 230000 0", 2, "fault range 2 1\n"),
        ),
    ] {
        let wrong = first_wrong(&rt, alloc, configuration.as_str(), lines.as_bytes(), &[row])?;
        assert_eq!(rt; wrong, None, "{lines}");
    }
    Ok(())
}

const LONG: &str =
    "levels channel 1\nhalf-periods 2999\nleast 1.000000000 to 1.000000000\ngreatest 1.000000000 to 1.000000000\n";

const LONG_SUMMARY: &str = "check\nanalog 1 digital 0\nrecords 72000\nfirst 1\nform BINARY\n";

// Whether the command is answered so over these 72,000 records, which are more than one block, where a read gives 99
// bytes, and where it gives as many as it is asked for.
fn is_answered_over<R: Threads + Sync>(
    rt: &R,
    alloc: Global,
    bytes: &[u8],
    row: Row,
) -> Result<bool, OutOfMemory> {
    let configuration = varied(alloc, ",4800\r\n", ",72000\r\n")?;
    let (line, status, text) = row;
    let case = Case {
        line,
        configuration: configuration.as_str(),
        bytes,
        status,
        text,
    };
    Ok(is_answered_in(rt, alloc, 99, &case)? && is_answered_in(rt, alloc, 65_536, &case)?)
}

// 3,000 runs of 24 samples: 2,999 half-periods behind the first crossing.
#[test]
fn records_of_two_blocks(rt: HostRuntime) -> Result<(), Fail> {
    let alloc = rt.alloc();
    let bytes = wave(alloc, 72_000)?;
    for row in [
        ("levels C D 1 230000 0", 0, LONG),
        ("check C D", 0, LONG_SUMMARY),
    ] {
        let answered = is_answered_over(&rt, alloc, &bytes, row)?;
        assert_eq!(rt; answered, true);
    }
    Ok(())
}

// The record 71,000 has no value; and then the record 70,000 is over range.
#[test]
fn a_record_of_the_second_block(rt: HostRuntime) -> Result<(), Fail> {
    let alloc = rt.alloc();
    let mut bytes = wave(alloc, 72_000)?;
    for (at, low, high, row) in [
        (
            709_998,
            0,
            0x80,
            ("levels C D 1 230000 0", 2, "fault data 71000 3 7\n"),
        ),
        (
            699_998,
            0x7f,
            0x7f,
            ("levels C D 1 60000 0", 2, "fault range 70000 1\n"),
        ),
    ] {
        for (place, byte) in [(at, low), (at + 1, high)] {
            if let Some(there) = bytes.get_mut(place) {
                *there = byte;
            }
        }
        let answered = is_answered_over(&rt, alloc, &bytes, row)?;
        assert_eq!(rt; answered, true);
    }
    Ok(())
}

// One record of twenty million.
#[test]
fn data_of_one_record(rt: HostRuntime) -> Result<(), Fail> {
    let alloc = rt.alloc();
    let configuration = varied(alloc, ",4800\r\n", ",20000000\r\n")?;
    let bytes = wave(alloc, 1)?;
    let rows = [
        ("levels C D 1 230000 0", 2, "fault data 2 0 5\n"),
        ("check C D", 2, "fault data 2 0 5\n"),
    ];
    let wrong = first_wrong(&rt, alloc, configuration.as_str(), &bytes, &rows)?;
    assert_eq!(rt; wrong, None);
    Ok(())
}

// Two calls read the configuration. Then eleven read the data, and one more finds their end.
#[test]
fn a_read_of_the_data_fails(rt: HostRuntime) -> Result<(), Fail> {
    let alloc = rt.alloc();
    let configuration = varied(alloc, ",4800\r\n", ",72000\r\n")?;
    let bytes = wave(alloc, 72_000)?;
    for line in ["levels C D 1 230000 0", "check C D"] {
        for call in [4, 14] {
            let words = words_of(alloc, line)?;
            let mut shelf = MemShelf::new(alloc);
            shelf.put("C", configuration.as_bytes())?;
            shelf.put("D", &bytes)?;
            shelf.fail_at(call)?;
            let mut sink = MemSink::new(alloc, 200, 200)?;
            let answered = run(&rt, alloc, &words, &mut shelf, &mut sink, &Open);
            assert_eq!(rt; answered, 4, "{line}");
            assert_eq!(rt; sink.written(), b"fault read\n".as_slice());
        }
    }
    Ok(())
}
