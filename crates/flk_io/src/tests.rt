use crate::tries::{read_some, write_some};
use crate::{
    Failed, FileShelf, MemShelf, MemSink, OutOfMemory, ReadStop, Shelf, Sink, StdSink, Words,
    append_all, read_all, write_all,
};
use std::alloc::Global;
use std::io::{Error, ErrorKind, Read, Write};
use std::test::Fail;
use std::{env, fs, io};

#[test]
fn words_in_order(rt: HostRuntime) -> Result<(), Fail> {
    let mut words = Words::new(rt.alloc());
    words.push("levels")?;
    words.push("")?;
    words.push("60 Hz")?;
    assert!(rt; words.len() == 3);
    assert_eq!(rt; words.word(1), "");
    assert_eq!(rt; words.word(2), "60 Hz");
    Ok(())
}

// A name that is read in pieces of three bytes, whole, a byte too long, and where a read fails.
#[test]
fn reads_to_the_end(rt: HostRuntime) -> Result<(), Fail> {
    for (limit, failing, want) in [
        (11, 9, Ok(())),
        (10, 9, Err(ReadStop::TooLong)),
        (11, 3, Err(ReadStop::Failed)),
    ] {
        let mut shelf = MemShelf::new(rt.alloc());
        shelf.put("other", b"before")?;
        shelf.put("rec.dat", b"old")?;
        shelf.put("rec.dat", b"eleven text")?;
        shelf.piece(3);
        shelf.fail_at(failing)?;
        match read_all(rt.alloc(), &mut shelf, "rec.dat", limit) {
            Ok(bytes) => {
                assert!(rt; want.is_ok());
                assert_eq!(rt; bytes.as_slice(), b"eleven text".as_slice());
            }
            Err(stop) => assert_eq!(rt; Err(stop), want),
        }
        let faults = if failing == 3 { 1 } else { 0 };
        assert_eq!(rt; shelf.faults(), faults);
    }
    Ok(())
}

#[test]
fn appends_as_far_as_there_is_place(rt: HostRuntime) -> Result<(), Fail> {
    let mut shelf = MemShelf::new(rt.alloc());
    assert_eq!(rt; shelf.append("out.bin", b"a"), Err(Failed));
    shelf.room("out.bin", 4)?;
    assert_eq!(rt; shelf.append("out.bin", b"abc"), Ok(3));
    assert_eq!(rt; shelf.append("out.bin", b"def"), Ok(1));
    assert_eq!(rt; shelf.append("out.bin", b"ef"), Err(Failed));
    assert_eq!(rt; shelf.added("out.bin"), b"abcd".as_slice());
    assert_eq!(rt; shelf.added("out"), b"".as_slice());
    assert_eq!(rt; shelf.faults(), 2);
    Ok(())
}

// The place ends in mid-stream, and then a call of three bytes fails.
#[test]
fn append_fails_in_mid_stream(rt: HostRuntime) -> Result<(), Fail> {
    let mut shelf = MemShelf::new(rt.alloc());
    shelf.room("out.bin", 8)?;
    shelf.piece(3);
    assert_eq!(rt;
        append_all(&mut shelf, "out.bin", b"eleven text"),
        Err(Failed)
    );
    assert_eq!(rt; shelf.added("out.bin"), b"eleven t".as_slice());
    shelf.room("out.bin", 9)?;
    shelf.fail_at(6)?;
    assert_eq!(rt;
        append_all(&mut shelf, "out.bin", b"ext, more"),
        Err(Failed)
    );
    assert_eq!(rt; shelf.added("out.bin"), b"eleven text".as_slice());
    assert!(rt; append_all(&mut shelf, "out.bin", b", more").is_ok());
    assert_eq!(rt; shelf.added("out.bin"), b"eleven text, more".as_slice());
    assert_eq!(rt; shelf.faults(), 2);
    Ok(())
}

// The second of the writes of three bytes fails.
#[test]
fn write_fails_in_mid_stream(rt: HostRuntime) -> Result<(), Fail> {
    let mut sink = MemSink::new(rt.alloc(), 100, 3)?;
    sink.fail_at(2)?;
    assert_eq!(rt; write_all(&mut sink, b"eleven text"), Err(Failed));
    assert_eq!(rt; sink.written(), b"ele".as_slice());
    assert_eq!(rt; sink.faults(), 1);
    assert!(rt; write_all(&mut sink, b"ven").is_ok());
    assert_eq!(rt; sink.written(), b"eleven".as_slice());
    Ok(())
}

// A disk: a signal interrupts its first call, the second moves a byte, and the third fails.
#[derive(Drop)]
struct Disk {
    calls: u32,
}

impl Disk {
    fn call(&mut self) -> io::Result<()> {
        self.calls = self.calls.saturating_add(1);
        match self.calls {
            1 => Err(Error::from(ErrorKind::Interrupted)),
            2 => Ok(()),
            _ => Err(Error::from(ErrorKind::PermissionDenied)),
        }
    }
}

impl Read for Disk {
    fn read(&mut self, buf: &mut [u8]) -> io::Result<usize> {
        self.call()?;
        if buf.is_empty() {
            return Ok(0);
        }
        buf[0] = b'x';
        Ok(1)
    }
}

impl Write for Disk {
    fn write(&mut self, bytes: &[u8]) -> io::Result<usize> {
        self.call()?;
        Ok(bytes.len().min(1))
    }

    fn flush(&mut self) -> io::Result<()> {
        Ok(())
    }
}

// An error in mid-stream is an error, and not the end.
#[test]
fn read_fails_in_mid_stream(rt: HostRuntime) -> Result<(), Fail> {
    let mut disk = Disk { calls: 0 };
    let mut buf = [0; 4];
    assert_eq!(rt; read_some(&mut disk, &mut buf)?, 1);
    assert_eq!(rt; buf, [b'x', 0, 0, 0]);
    assert!(rt; read_some(&mut disk, &mut buf).is_err());
    let mut disk = Disk { calls: 0 };
    assert_eq!(rt; write_some(&mut disk, b"eleven text")?, 1);
    assert!(rt; write_some(&mut disk, b"leven text").is_err());
    assert!(rt; write_some(&mut Vec::new(rt.alloc()), b"").is_err());
    Ok(())
}

// So many bytes, which count on from `first` below 251.
fn pattern(alloc: Global, length: u32, first: u32) -> Result<Vec<u8>, OutOfMemory> {
    let mut bytes = Vec::new(alloc);
    for i in 0..length {
        bytes.push((i.wrapping_add(first) % 251) as u8)?;
    }
    Ok(bytes)
}

const PIECE: usize = 40_000;

// Reads a piece under a name, and puts it after those before. A failed read puts nothing.
fn read_piece(shelf: &mut FileShelf, name: &str, all: &mut Vec<u8>) -> Result<(), OutOfMemory> {
    let mut piece = [0; PIECE];
    match shelf.read(name, &mut piece) {
        Ok(count) => all.extend_from_slice(&piece[..count]),
        Err(_) => Ok(()),
    }
}

// Two files are written through one shelf, in turn, and read through another, in pieces.
#[test]
fn two_names_in_turn(rt: HostRuntime) -> Result<(), Fail> {
    let alloc = rt.alloc();
    let folder = env::temp_dir(&rt)?;
    let first = folder.join(alloc, "flk_io_two_names_in_turn_first.bin")?;
    let second = folder.join(alloc, "flk_io_two_names_in_turn_second.bin")?;
    let (a, b) = (first.as_str(), second.as_str());
    let mut shelf = FileShelf::new(&rt, alloc);
    assert!(rt; append_all(&mut shelf, a, &pattern(alloc, 60_000, 0)?).is_ok());
    assert!(rt; append_all(&mut shelf, b, &pattern(alloc, 90_000, 100)?).is_ok());
    assert!(rt; append_all(&mut shelf, a, &pattern(alloc, 40_000, 60_000)?).is_ok());
    let mut shelf = FileShelf::new(&rt, alloc);
    let (mut of_a, mut of_b) = (Vec::new(alloc), Vec::new(alloc));
    for _ in 0..4 {
        read_piece(&mut shelf, a, &mut of_a)?;
        read_piece(&mut shelf, b, &mut of_b)?;
    }
    assert!(rt; of_a == pattern(alloc, 100_000, 0)?);
    assert!(rt; of_b == pattern(alloc, 90_000, 100)?);
    assert!(rt; fs::read(&rt, a)? == of_a);
    fs::remove_file(&rt, a)?;
    fs::remove_file(&rt, b)?;
    Ok(())
}

// The first append empties what an earlier run left, and a file that is not there can't be read.
#[test]
fn files_are_added_to_and_read(rt: HostRuntime) -> Result<(), Fail> {
    let folder = env::temp_dir(&rt)?;
    let path = folder.join(rt.alloc(), "flk_io_files_are_added_to_and_read.txt")?;
    let name = path.as_str();
    for _ in 0..2 {
        let mut shelf = FileShelf::new(&rt, rt.alloc());
        assert_eq!(rt; shelf.append(name, b"first, "), Ok(7));
        assert_eq!(rt; shelf.append(name, b"second"), Ok(6));
        match read_all(rt.alloc(), &mut shelf, name, 100) {
            Ok(bytes) => assert_eq!(rt; bytes.as_slice(), b"first, second".as_slice()),
            Err(stop) => assert_eq!(rt; Err(stop), Ok(())),
        }
    }
    fs::remove_file(&rt, name)?;
    let mut shelf = FileShelf::new(&rt, rt.alloc());
    let mut buf = [0; 8];
    assert_eq!(rt; shelf.read(name, &mut buf), Err(Failed));
    Ok(())
}

#[test]
fn standard_output_takes_a_line(rt: HostRuntime) {
    let mut sink = StdSink::new(&rt);
    assert!(rt; write_all(&mut sink, b"a line of the test\n").is_ok());
}
