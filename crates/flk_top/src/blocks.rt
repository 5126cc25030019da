//! The records of a data file, one block after another.

ghost use Rattle.std.specs.Prelude.{◌≡◌, ℕ, ◌+◌, ◌<◌, List, [], ◌++◌, length, min, IfOk, IfErr, OnOk, IsTrue, IsFalse};
ghost use Rattle.std.specs.Io.KnownBytes.{Consumes, IsAtEnd};
ghost use Rattle.flk_io.specs.Causes.{HasCause};
ghost use Rattle.flk_io.specs.Told.{OnlyReads, ReadsUnder};
ghost use Rattle.flk_cfg.specs.Valid.{IsValid};
ghost use Rattle.flk_dat.specs.Records.{DataRecord, Layout, layout_of, IsBlockFor};
ghost use Rattle.flk_dat.specs.Streams.{HasFault};
ghost use Rattle.flk_top.specs.declared.blocks.Progress.TheVariants as progress;
ghost use Rattle.flk_top.specs.Blocks.{HasRead, CanHold, Gives, Begins, EndsAs, block_of, records_of, fed_count};

use flk_cfg::Config;
use flk_dat::{Block, DatFault, Reader};
use flk_io::{Failed, OutOfMemory, Shelf};
use std::alloc::Global;
use std::mem;

/// How many bytes one read is asked for.
const PIECE: usize = 65_536;

/// The most records of a block.
const ROWS: usize = 65_536;

/// How the reading of a data file goes on.
#[derive(Clone, Copy, Debug)]
pub enum Progress {
    /// The block is full, and more records may follow.
    Full,
    /// The file has ended, and is accepted.
    Ended,
    /// The file has this first fault. The records before it came.
    Fault(DatFault),
}

/// An empty block for the records of a configuration: for 65,536 of them, or for all where they are fewer.
pub fn empty_block(alloc: Global, config: &Config) -> Result<Block, OutOfMemory>
    requires { IsValid config.now }
    ensures columns { IfOk result (λ b. IsBlockFor config.now b) }
    ensures room { IfOk result (λ b. b.room ≡ min 65536 config.now.endsamp) }
{
    Block::new(alloc, config, ROWS.min(config.endsamp as usize))
}

/// A data file, which is read in pieces of at most 65,536 bytes and gives its records in blocks of at most 65,536.
#[derive(Drop)]
pub struct Blocks {
    reader: Reader,
    block: Block,
    /// The bytes that were read last. Those from `at` to `end` are not yet fed to the reader.
    piece: Vec<u8>,
    at: usize,
    end: usize,
    /// How many bytes were fed.
    fed: u64,
}

impl Blocks {
    /// Nothing is read yet of the data of a configuration. The numbers of `selected` are those of the channels, from 1,
    /// in which a missing value is a fault. All memory is taken here.
    pub fn new(alloc: Global, config: &Config, selected: &[u16]) -> Result<Blocks, OutOfMemory>
        requires { IsValid config.now }
        ensures nothing { IfOk result (λ b. HasRead (layout_of config.now selected.now) b [] []) }
        ensures room { IfOk result (λ b. (block_of b).room ≡ min 65536 config.now.endsamp) }
    {
        Ok(Blocks {
            reader: Reader::new(alloc, config, selected)?,
            block: empty_block(alloc, config)?,
            piece: vec![in alloc; 0; PIECE]?,
            at: 0,
            end: 0,
            fed: 0,
        })
    }

    /// Lets go of the records of the block, and fills it again: until it is full, or the file under this name has
    /// ended, or has a fault. After an error nothing is known of the block. It takes no memory.
    pub fn next<F: Shelf>(&mut self, shelf: &mut F, name: &str) -> Result<Progress, Failed>
        requires { (l : Layout) × (bytes : List ℕ) × (rs : List DataRecord) × HasRead l self.old bytes rs }
        ensures gives { IfOk result (λ p. (l : Layout) (bytes : List ℕ) (rs : List DataRecord)
            → HasRead l self.old bytes rs
            → Gives p l bytes rs self.new ((F.told shelf.old).left name.now) ((F.told shelf.new).left name.now)) }
        ensures begins { OnOk result ((l : Layout) (bytes : List ℕ) (rs : List DataRecord) → HasRead l self.old bytes rs
            → Begins l bytes (rs ++ records_of self.new) ((F.told shelf.old).left name.now)) }
        ensures further { IfOk result (λ p. p ≡ progress.Full → fed_count self.old < fed_count self.new) }
        ensures columns { (block_of self.new).analog ≡ (block_of self.old).analog }
        ensures cause { HasCause (F.told shelf.old).read_faults (F.told shelf.new).read_faults result }
        ensures only_reads { OnlyReads (F.told shelf.old) (F.told shelf.new) }
        ensures others { ReadsUnder name.now (F.told shelf.old) (F.told shelf.new) }
    {
        self.block.clear();
        while self.block.rows() < self.block.room() {
            let some = self.refill(shelf, name)?;
            if !some {
                return Ok(self.finish());
            }
            match self.feed() {
                Ok(()) => {}
                Err(fault) => return Ok(Progress::Fault(fault)),
            }
        }
        Ok(Progress::Full)
    }

    /// The block that was filled last.
    pub fn block(&self) -> &Block
        ensures { result.now ≡ block_of self.now }
    {
        &self.block
    }

    /// Hands over the block that was filled last, and takes another one to fill.
    pub fn exchange(&mut self, other: &mut Block)
        ensures read { (l : Layout) (bytes : List ℕ) (rs : List DataRecord) → HasRead l self.old bytes rs
            → CanHold l other.old → HasRead l self.new bytes rs × CanHold l other.new }
        ensures filled { other.new ≡ block_of self.old }
        ensures fed { fed_count self.new ≡ fed_count self.old }
    {
        mem::swap(&mut self.block, other);
    }

    // Reads the next piece where the last one was fed. False is the end of the file.
    fn refill<F: Shelf>(&mut self, shelf: &mut F, name: &str) -> Result<bool, Failed>
        requires { (l : Layout) × (bytes : List ℕ) × (rs : List DataRecord) × HasRead l self.old bytes rs }
        ensures read { OnOk result ((l : Layout) (bytes : List ℕ) (rs : List DataRecord) → HasRead l self.old bytes rs
            → (more : List ℕ) × Consumes ((F.told shelf.old).left name.now) ((F.told shelf.new).left name.now) more
            × HasRead l self.new (bytes ++ more) rs) }
        ensures some { IfOk result (λ some. IsTrue some → self.new.at < self.new.end) }
        ensures end { IfOk result (λ some. IsFalse some
            → (self.new.at ≡ self.new.end) × IsAtEnd ((F.told shelf.new).left name.now)) }
        ensures block { block_of self.new ≡ block_of self.old }
        ensures fed { fed_count self.new ≡ fed_count self.old }
        ensures cause { HasCause (F.told shelf.old).read_faults (F.told shelf.new).read_faults result }
        ensures only_reads { OnlyReads (F.told shelf.old) (F.told shelf.new) }
        ensures others { ReadsUnder name.now (F.told shelf.old) (F.told shelf.new) }
    {
        if self.at < self.end {
            return Ok(true);
        }
        let count = shelf.read(name, &mut self.piece)?;
        self.at = 0;
        self.end = count;
        Ok(count > 0)
    }

    // Feeds the bytes of the piece, until the block is full.
    fn feed(&mut self) -> Result<(), DatFault>
        requires given { (l : Layout) × (bytes : List ℕ) × (past : List DataRecord)
            × HasRead l self.old bytes (past ++ records_of self.old) }
        requires unfed { self.old.at < self.old.end }
        requires room { length (records_of self.old) < (block_of self.old).room }
        ensures read { OnOk result ((l : Layout) (bytes : List ℕ) (past : List DataRecord)
            → HasRead l self.old bytes (past ++ records_of self.old)
            → HasRead l self.new bytes (past ++ records_of self.new)) }
        ensures fault { IfErr result (λ f. (l : Layout) (bytes : List ℕ) (past : List DataRecord)
            → HasRead l self.old bytes (past ++ records_of self.old)
            → HasFault l bytes (past ++ records_of self.new) f) }
        ensures further { OnOk result (fed_count self.old < fed_count self.new) }
        ensures columns { (block_of self.new).analog ≡ (block_of self.old).analog }
    {
        match self
            .reader
            .feed(&self.piece[self.at..self.end], &mut self.block)
        {
            Ok(count) => {
                self.at += count;
                self.fed += count as u64;
                Ok(())
            }
            Err(fault) => Err(fault),
        }
    }

    // Ends the input.
    fn finish(&mut self) -> Progress
        requires given { (l : Layout) × (bytes : List ℕ) × (past : List DataRecord)
            × HasRead l self.old bytes (past ++ records_of self.old) }
        requires fed { self.old.at ≡ self.old.end }
        requires room { length (records_of self.old) < (block_of self.old).room }
        ensures ends { (l : Layout) (bytes : List ℕ) (past : List DataRecord)
            → HasRead l self.old bytes (past ++ records_of self.old)
            → EndsAs result l bytes (past ++ records_of self.new) }
        ensures columns { (block_of self.new).analog ≡ (block_of self.old).analog }
    {
        match self.reader.finish(&mut self.block) {
            Ok(()) => Progress::Ended,
            Err(fault) => Progress::Fault(fault),
        }
    }
}
