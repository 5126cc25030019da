ghost use Rattle.std.specs.Prelude.{◌≡◌, ◌<◌, ◌^◌, pos, negsuc, ◌≤ℤ◌};
ghost use Rattle.flk_dat.specs.States.{FitsBlock};

use crate::{Block, DatFault, Reader, write_record};
use flk_cfg::{read_cfg, valid_cfg};
use std::alloc::{AllocError, Global};
use std::test::Fail;

const FRONT: &[u8] =
    b"LAB,DAQ,1999\r\n1,1A,0D\r\n1,U,A,,V,0.01,0,0,-32767,32767,1,1,P\r\n50\r\n1\r\n";

const STAMPS: &[u8] = b"12/03/2021,09:15:00.000000\r\n12/03/2021,09:15:00.000000\r\n";

/// The bytes of these parts, one after another.
fn joined(alloc: Global, parts: &[&[u8]]) -> Result<Vec<u8>, AllocError> {
    let mut all = Vec::new(alloc);
    for part in parts {
        all.extend_from_slice(part)?;
    }
    Ok(all)
}

/// What two pieces of data and their end are answered.
fn read(reader: &mut Reader, out: &mut Block, first: &[u8], second: &[u8]) -> Result<(), DatFault>
    requires { FitsBlock reader.old out.old }
    ensures { out.new.analog ≡ out.old.analog }
{
    reader.feed(first, out)?;
    reader.feed(second, out)?;
    if out.rows() < out.room() {
        reader.finish(out)?;
    }
    Ok(())
}

/// What two pieces of data are answered under a configuration with this line of samples and this form: how many records
/// there are and the value of the last, and the fault's numbers, or zeros where there is none.
fn answer_to(
    alloc: Global,
    sampling: &[u8],
    form: &[u8],
    selected: &[u16],
    first: &[u8],
    second: &[u8],
) -> Result<(usize, i32, u64, u32, u8), AllocError> {
    let text = joined(alloc, &[FRONT, sampling, STAMPS, form, b"1\r\n"])?;
    let Ok(config) = read_cfg(alloc, &text) else {
        return Ok((0, 0, 0, 0, 9));
    };
    if !valid_cfg(&config) {
        return Ok((0, 0, 0, 0, 9));
    }
    let mut out = Block::new(alloc, &config, 8)?;
    let mut reader = Reader::new(alloc, &config, selected)?;
    let answer = read(&mut reader, &mut out, first, second);
    let rows = out.rows();
    let last = if rows > 0 && config.analog.as_slice().len() > 0 {
        out.analog(rows - 1, 0)
    } else {
        0
    };
    match answer {
        Ok(()) => Ok((rows, last, 0, 0, 0)),
        Err(fault) => Ok((rows, last, fault.row, fault.field, fault.kind)),
    }
}

#[test]
fn a_line_in_two_pieces(rt: HostRuntime) -> Result<(), Fail> {
    let one = b"2400,1\r\n";
    assert_eq!(rt;
        answer_to(rt.alloc(), one, b"ASCII\r\n", &[], b"1,0,230", b"00\r\n")?,
        (1, 23000, 0, 0, 0)
    );
    assert_eq!(rt;
        answer_to(rt.alloc(), one, b"ASCII\r\n", &[], b"1,0,23000", b"")?,
        (1, 23000, 0, 0, 0)
    );
    assert_eq!(rt;
        answer_to(
            rt.alloc(),
            one,
            b"ASCII\r\n",
            &[],
            b"1,0,23000",
            b"\r\n\x1a"
        )?,
        (1, 23000, 0, 0, 0)
    );
    assert_eq!(rt;
        answer_to(rt.alloc(), one, b"ASCII\r\n", &[], b"1,0,23000\n", b"x")?,
        (1, 23000, 2, 0, 6)
    );
    Ok(())
}

#[test]
fn the_first_fault_is_named(rt: HostRuntime) -> Result<(), Fail> {
    let three = b"2400,3\r\n";
    assert_eq!(rt;
        answer_to(
            rt.alloc(),
            three,
            b"ASCII\r\n",
            &[1],
            b"5,,1\n6,,2\n8,,3\n",
            b""
        )?,
        (2, 2, 3, 1, 4)
    );
    assert_eq!(rt;
        answer_to(
            rt.alloc(),
            three,
            b"ASCII\r\n",
            &[1],
            b"5,,1\n6,,999",
            b"99\n7,,3\n"
        )?,
        (1, 1, 2, 3, 7)
    );
    assert_eq!(rt;
        answer_to(
            rt.alloc(),
            three,
            b"ASCII\r\n",
            &[0, 2],
            b"5,,1\n6,,999",
            b"99\n7,,3\n"
        )?,
        (3, 3, 0, 0, 0)
    );
    assert_eq!(rt;
        answer_to(rt.alloc(), three, b"ASCII\r\n", &[], b"5,,1\n", b"  ")?,
        (1, 1, 2, 0, 5)
    );
    Ok(())
}

/// The line with a space at both ends of each field.
fn spaced(alloc: Global, line: &[u8]) -> Result<Vec<u8>, AllocError> {
    let mut all = Vec::from_slice(alloc, b" ")?;
    for byte in line {
        if *byte == b',' {
            all.extend_from_slice(b" , ")?;
        } else {
            all.push(*byte)?;
        }
    }
    all.push(b' ')?;
    Ok(all)
}

#[test]
fn fields_of_each_form(rt: HostRuntime) -> Result<(), Fail> {
    let one = b"2400,1\r\n";
    for (line, value, field, kind) in [
        (b"1,0,23000".as_slice(), 23_000, 0, 0),
        (b"+1,+0,+23000", 23_000, 0, 0),
        (b"0001,000,-00023000", -23_000, 0, 0),
        (b"-0,-0,-0", 0, 0, 0),
        (b"1,,5", 5, 0, 0),
        (b"00000000001,00000000000002,-00000000000003", -3, 0, 0),
        (b"4294967295,9999999999,-99999", -99_999, 0, 0),
        (b"4294967296,0,7", 0, 1, 3),
        (b"12345678901,0,7", 0, 1, 3),
        (b"1000000000000,0,7", 0, 1, 3),
        (b"-1,0,7", 0, 1, 3),
        (b",0,7", 0, 1, 2),
        (b"1.,0,7", 0, 1, 2),
        (b"1,10000000000,7", 0, 2, 3),
        (b"1,-1,7", 0, 2, 3),
        (b"1,-,7", 0, 2, 2),
        (b"1,0,100000", 0, 3, 3),
        (b"1,0,-100000", 0, 3, 3),
        (b"1,0,99999999999999999999", 0, 3, 3),
        (b"1,0,99999", 0, 3, 7),
        (b"1,0,+099999", 0, 3, 7),
        (b"1,0,", 0, 3, 2),
        (b"1,0,1:", 0, 3, 2),
        (b"1,0,7,8", 0, 0, 1),
        (b"1,0", 0, 0, 1),
    ] {
        let rows = if kind == 0 { 1 } else { 0 };
        let row = if kind == 0 { 0 } else { 1 };
        let answer = (rows, value, row, field, kind);
        let plain = spaced(rt.alloc(), line)?;
        assert_eq!(rt;
            answer_to(rt.alloc(), one, b"ASCII\r\n", &[1], line, b"")?,
            answer
        );
        assert_eq!(rt;
            answer_to(rt.alloc(), one, b"ASCII\r\n", &[1], &plain, b"")?,
            answer
        );
    }
    Ok(())
}

#[test]
fn binary_records(rt: HostRuntime) -> Result<(), Fail> {
    let two = b"2400,2\r\n";
    let first = b"\x01\x00\x00\x00\x00\x00\x00\x00\xd8\x59\x02\x00";
    assert_eq!(rt;
        answer_to(
            rt.alloc(),
            two,
            b"BINARY\r\n",
            &[1],
            first,
            b"\x00\x00\x00\x00\x00\x00\x28\xa6"
        )?,
        (2, -23000, 0, 0, 0)
    );
    assert_eq!(rt;
        answer_to(
            rt.alloc(),
            two,
            b"BINARY\r\n",
            &[1],
            first,
            b"\x00\x00\x00\x00\x00\x00\x28"
        )?,
        (1, 23000, 2, 0, 5)
    );
    assert_eq!(rt;
        answer_to(
            rt.alloc(),
            two,
            b"BINARY\r\n",
            &[1],
            first,
            b"\x00\x00\x00\x00\x00\x00\x28\xa6\x1a"
        )?,
        (2, -23000, 3, 0, 6)
    );
    assert_eq!(rt;
        answer_to(
            rt.alloc(),
            two,
            b"BINARY\r\n",
            &[1],
            first,
            b"\x00\x00\x00\x00\x00\x00\x00\x80"
        )?,
        (1, 23000, 2, 3, 7)
    );
    Ok(())
}

/// The canonical bytes of a record of a block with one row.
fn written(alloc: Global, form: &[u8], stamp: u64, value: i32) -> Result<Vec<u8>, AllocError>
    requires stamp { stamp < 2 ^ 32 }
    requires value { (negsuc 32767 ≤ℤ value) × (value ≤ℤ pos 32767) }
{
    let text = joined(alloc, &[FRONT, b"2400,1\r\n", STAMPS, form, b"1\r\n"])?;
    let mut bytes = Vec::new(alloc);
    let Ok(config) = read_cfg(alloc, &text) else {
        return Ok(bytes);
    };
    if !valid_cfg(&config) {
        return Ok(bytes);
    }
    if config.analog.as_slice().len() != 1 || !config.digital.as_slice().is_empty() {
        return Ok(bytes);
    }
    let mut out = Block::new(alloc, &config, 1)?;
    out.push(7, Some(stamp), &[value], &[]);
    write_record(&mut bytes, &config, &out, 0)?;
    Ok(bytes)
}

#[test]
fn records_are_written(rt: HostRuntime) -> Result<(), Fail> {
    assert_eq!(rt;
        written(rt.alloc(), b"ASCII\r\n", 416, -23000)?.as_slice(),
        b"7,416,-23000\r\n".as_slice()
    );
    assert_eq!(rt;
        written(rt.alloc(), b"BINARY\r\n", 416, -23000)?.as_slice(),
        b"\x07\x00\x00\x00\xa0\x01\x00\x00\x28\xa6".as_slice()
    );
    Ok(())
}
