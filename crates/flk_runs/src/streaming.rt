//! Reading that waits for the work or goes on beside it, and a configuration that claims far more records than there
//! are.

use crate::commands::{varied, wave, words_of};
use crate::report::{answer_of, shelf_of, short_job};
use flk_io::{Failed, MemShelf, MemSink, Shelf};
use flk_top::{Gate, run};
use std::sync::atomic::{AtomicU64, Ordering};
use std::test::Fail;

// The bytes of a record, of a block of 65,536 of them, and of the longest read.
const RECORD: u64 = 10;

const BLOCK: u64 = 655_360;

const PIECE: u64 = 65_536;

// How a report of one channel goes on.
#[derive(Drop)]
struct Course {
    // How many reads there were, and how many of them asked for more than the longest one may.
    reads: AtomicU64,
    long_reads: AtomicU64,
    // How many bytes of the data were read.
    given: AtomicU64,
    // How many blocks were worked; and at how many of them more was read than these blocks and one read, and more than
    // one block more.
    blocks: AtomicU64,
    read_ahead: AtomicU64,
    far_ahead: AtomicU64,
    // How often a block looks whether more was read, before it is worked.
    looks: u32,
}

impl Course {
    fn new(looks: u32) -> Course {
        Course {
            reads: AtomicU64::new(0),
            long_reads: AtomicU64::new(0),
            given: AtomicU64::new(0),
            blocks: AtomicU64::new(0),
            read_ahead: AtomicU64::new(0),
            far_ahead: AtomicU64::new(0),
            looks,
        }
    }
}

impl Gate for Course {
    ghost use Rattle.std.specs.Prelude.{true};

    ghost admits = { λ _ phase. true };

    fn enter(&self, phase: usize) {
        let _ = phase;
        let before = self.blocks.fetch_add(1, Ordering::SeqCst);
        let most = before
            .wrapping_add(1)
            .wrapping_mul(BLOCK)
            .wrapping_add(PIECE);
        for _ in 0..self.looks {
            let given = self.given.load(Ordering::SeqCst);
            if most.wrapping_add(BLOCK) < given {
                self.far_ahead.fetch_add(1, Ordering::SeqCst);
            }
            if most < given {
                self.read_ahead.fetch_add(1, Ordering::SeqCst);
                return;
            }
        }
    }
}

// Files in memory whose reads are counted.
#[derive(Drop)]
struct Watched<'a> {
    files: MemShelf,
    course: &'a Course,
}

impl<'a> Shelf for Watched<'a> {
    ghost use Rattle.flk_io.specs.MemoryShelf.{memory_told};

    ghost told = { λ shelf. memory_told shelf.files };

    fn read(&mut self, name: &str, buf: &mut [u8]) -> Result<usize, Failed> {
        self.course.reads.fetch_add(1, Ordering::SeqCst);
        if buf.len() > PIECE as usize {
            self.course.long_reads.fetch_add(1, Ordering::SeqCst);
        }
        let count = self.files.read(name, buf)?;
        if name == "D" {
            self.course.given.fetch_add(count as u64, Ordering::SeqCst);
        }
        Ok(count)
    }

    fn append(&mut self, name: &str, bytes: &[u8]) -> Result<usize, Failed> {
        self.files.append(name, bytes)
    }
}

// 300,000 records make four blocks of 65,536, and one more.
#[test]
fn reading_waits_for_the_work(rt: HostRuntime) -> Result<(), Fail> {
    let alloc = rt.alloc();
    let job = short_job(alloc, "", "")?;
    let configuration = varied(alloc, "2400,4800", "2400,300000")?;
    let data = wave(alloc, 300_000)?;
    let course = Course::new(1);
    let mut shelf = Watched {
        files: shelf_of(alloc, job.as_str(), configuration.as_str(), &data)?,
        course: &course,
    };
    let words = words_of(alloc, "report J C D 1")?;
    let mut sink = MemSink::new(alloc, 3000, 500)?;
    assert_eq!(rt; run(&rt, alloc, &words, &mut shelf, &mut sink, &course), 0);
    assert_eq!(rt; course.given.load(Ordering::SeqCst), 300_000 * RECORD);
    assert_eq!(rt; course.blocks.load(Ordering::SeqCst), 5);
    assert_eq!(rt; course.read_ahead.load(Ordering::SeqCst), 0);
    assert_eq!(rt; course.long_reads.load(Ordering::SeqCst), 0);
    Ok(())
}

// With two workers each of the four waits until the next one is read, and no more than that is.
#[test]
fn the_next_block_is_read_beside_the_work(rt: HostRuntime) -> Result<(), Fail> {
    let alloc = rt.alloc();
    let job = short_job(alloc, "", "")?;
    let configuration = varied(alloc, "2400,4800", "2400,300000")?;
    let data = wave(alloc, 300_000)?;
    let course = Course::new(100_000_000);
    let mut shelf = Watched {
        files: shelf_of(alloc, job.as_str(), configuration.as_str(), &data)?,
        course: &course,
    };
    let words = words_of(alloc, "report J C D 2")?;
    let mut sink = MemSink::new(alloc, 3000, 500)?;
    assert_eq!(rt; run(&rt, alloc, &words, &mut shelf, &mut sink, &course), 0);
    assert_eq!(rt; course.given.load(Ordering::SeqCst), 300_000 * RECORD);
    assert_eq!(rt; course.blocks.load(Ordering::SeqCst), 5);
    assert_eq!(rt; course.read_ahead.load(Ordering::SeqCst), 4);
    assert_eq!(rt; course.far_ahead.load(Ordering::SeqCst), 0);
    assert_eq!(rt; course.long_reads.load(Ordering::SeqCst), 0);
    Ok(())
}

// In the first block a sample may be over range; the second one, which is read by then, may be cut off, or its first
// read may fail. A failed read is told first, and then the block that came first.
#[test]
fn faults_of_two_blocks(rt: HostRuntime) -> Result<(), Fail> {
    let alloc = rt.alloc();
    let within = short_job(alloc, "", "")?;
    let over = short_job(alloc, "230000", "50000")?;
    let configuration = varied(alloc, "2400,4800", "2400,70000")?;
    let data = wave(alloc, 66_000)?;
    for line in ["report J C D 1", "report J C D 2", "report J C D 16"] {
        for (job, call, status, fault) in [
            (&within, 99, 2, "fault data 66001 0 5\n"),
            (&within, 15, 4, "fault read\n"),
            (&over, 99, 2, "fault range 1 1\n"),
            (&over, 15, 4, "fault read\n"),
        ] {
            let mut shelf = shelf_of(alloc, job.as_str(), configuration.as_str(), &data)?;
            shelf.fail_at(call)?;
            let (answered, text) = answer_of(&rt, alloc, &mut shelf, line)?;
            assert_eq!(rt; answered, status, "{line} {fault}");
            assert_eq!(rt; text.as_slice(), fault.as_bytes(), "{line}");
        }
    }
    Ok(())
}

// Twenty million records are claimed, and one is there. Two reads take each file, and no read is made ready for more
// than is usual.
#[test]
fn a_claim_of_twenty_million_records(rt: HostRuntime) -> Result<(), Fail> {
    let alloc = rt.alloc();
    let job = short_job(alloc, "", "")?;
    let configuration = varied(alloc, "2400,4800", "2400,20000000")?;
    let data = wave(alloc, 1)?;
    let course = Course::new(1);
    let mut shelf = Watched {
        files: shelf_of(alloc, job.as_str(), configuration.as_str(), &data)?,
        course: &course,
    };
    let words = words_of(alloc, "report J C D 1")?;
    let mut sink = MemSink::new(alloc, 100, 100)?;
    assert_eq!(rt; run(&rt, alloc, &words, &mut shelf, &mut sink, &course), 2);
    assert_eq!(rt; sink.written(), b"fault data 2 0 5\n".as_slice());
    assert_eq!(rt; course.given.load(Ordering::SeqCst), RECORD);
    assert_eq!(rt; course.reads.load(Ordering::SeqCst), 6);
    assert_eq!(rt; course.long_reads.load(Ordering::SeqCst), 0);
    Ok(())
}
