//! Records, whole in memory.

ghost use Rattle.std.specs.Prelude.{◌≡◌, ◌≢◌, ◌<◌, ◌≤◌, [], ◌∷◌, ◌++◌, length, map, slice_index_or, IfOk, MatchResult, pos, false};
ghost use Rattle.flk_cfg.specs.Valid.{IsValid};
ghost use Rattle.flk_field.specs.declared.form.Form.TheVariants as forms;
ghost use Rattle.flk_dat.specs.Records.{IsBlockFor, AreRows, HasWidth, record_at};
ghost use Rattle.flk_dat.specs.BinaryRecords.{record_size};
ghost use Rattle.flk_dat.specs.Heads.{Gains, FaultOf, HasColumns};

use crate::channels::Channels;
use crate::column::put_row;
use crate::columns::Columns;
use crate::kind::Fault;
use crate::record::read_record;
use flk_cfg::{Config, Form};
use flk_num::crosses_threads;
use std::alloc::{AllocError, Global};
use std::marker::Model;

/// Whole records of a data file, at most as many as the block was made for. Contracts see it as the list of its
/// records, with the counts of channels and the room. Rows and channels count from 0. It keeps the values of each
/// channel side by side.
#[derive(Drop)]
pub struct Block {
    room: usize,
    rows: usize,
    columns: Columns,
}

impl Model for Block {
    ghost use Rattle.std.specs.Prelude.{length};
    ghost use Rattle.flk_dat.specs.Records.{Rows};
    ghost use Rattle.flk_dat.specs.Blocks.{rows_of, AreLaid};

    ghost Value = { Rows };

    ghost view = { λ b. record {
      analog = length b.columns.analog.items;
      digital = length b.columns.digital.items;
      room = b.room;
      records = rows_of b.rows b.columns;
    } };

    ghost invariant = { λ b. AreLaid b.room b.rows b.columns };
}

impl Block {
    /// A block with room for so many records of the configuration.
    pub fn new(alloc: Global, c: &Config, rows: usize) -> Result<Block, AllocError>
        requires { IsValid c.now }
        ensures { IfOk result (λ b. IsBlockFor c.now b × (b.room ≡ rows) × (b.records ≡ [])) }
    {
        let analog = c.analog.as_slice().len();
        let digital = c.digital.as_slice().len();
        Ok(Block {
            room: rows,
            rows: 0,
            columns: Columns::new(alloc, analog, digital, rows)?,
        })
    }

    /// How many records the block holds.
    pub fn rows(&self) -> usize
        ensures rows { result ≡ length self.now.records }
        ensures shape { AreRows self.now }
    {
        self.rows
    }

    /// For how many records the block was made.
    pub fn room(&self) -> usize
        ensures room { result ≡ self.now.room }
        ensures within { length self.now.records ≤ result }
    {
        self.room
    }

    /// Lets go of all records.
    pub fn clear(&mut self)
        ensures { self.new ≡ record self.old { records = [] } }
    {
        self.rows = 0;
    }

    /// The sample number of a record.
    pub fn number(&self, row: usize) -> u32
        requires { row < length self.now.records }
        ensures number { result ≡ (record_at self.now.records row).number }
        ensures width { HasWidth self.now.analog self.now.digital (record_at self.now.records row) }
    {
        self.columns.numbers.get(row)
    }

    /// The time stamp of a record, or None where it has none.
    pub fn stamp(&self, row: usize) -> Option<u64>
        requires { row < length self.now.records }
        ensures { result ≡ (record_at self.now.records row).stamp }
    {
        self.columns.stamps.get(row)
    }

    /// The value of an analog channel in a record.
    pub fn analog(&self, row: usize, channel: usize) -> i32
        requires row { row < length self.now.records }
        requires channel { channel < self.now.analog }
        ensures { result ≡ slice_index_or (record_at self.now.records row).analog channel (pos 0) }
    {
        self.columns.analog[channel].get(row)
    }

    /// The values of an analog channel, record by record.
    pub fn column(&self, channel: usize) -> &[i32]
        requires { channel < self.now.analog }
        ensures { result.now ≡ map (λ r. slice_index_or r.analog channel (pos 0)) self.now.records }
    {
        &self.columns.analog[channel].as_slice()[..self.rows]
    }

    /// The value of a digital channel in a record.
    pub fn digital(&self, row: usize, channel: usize) -> bool
        requires row { row < length self.now.records }
        requires channel { channel < self.now.digital }
        ensures { result ≡ slice_index_or (record_at self.now.records row).digital channel false }
    {
        self.columns.digital[channel].get(row)
    }

    /// Puts a record at the end.
    pub fn push(&mut self, number: u32, stamp: Option<u64>, analog: &[i32], digital: &[bool])
        requires room { length self.old.records < self.old.room }
        requires analog { length analog.now ≡ self.old.analog }
        requires digital { length digital.now ≡ self.old.digital }
        ensures { self.new ≡ record self.old {
          records = self.old.records
              ++ record { number = number; stamp = stamp; analog = analog.now; digital = digital.now } ∷ [];
        } }
    {
        let row = self.rows;
        put_row(&mut self.columns.analog, row, analog);
        put_row(&mut self.columns.digital, row, digital);
        self.columns.numbers.put(row, number);
        self.columns.stamps.put(row, stamp);
        self.rows = row + 1;
    }

    /// Reads a record of the channels' form and puts it at the end: a line, which may have a CR at its end, or the
    /// binary record with which the bytes begin. It answers the record's number.
    #[inline(always)]
    pub(crate) fn read(
        &mut self,
        form: Form,
        channels: &Channels,
        before: Option<u32>,
        bytes: &[u8],
    ) -> Result<u32, Fault>
        requires form { form ≡ channels.now.form }
        requires room { length self.old.records < self.old.room }
        requires columns { HasColumns channels.now self.old }
        requires whole { channels.now.form ≢ forms.Ascii
            → record_size channels.now.form (length channels.now.selected.items) channels.now.digital
            ≤ length bytes.now }
        ensures { MatchResult result (Gains channels.now before bytes.now self.old self.new)
            (λ f. (self.new ≡ self.old) × FaultOf channels.now.form channels.now before bytes.now f.field f.kind) }
    {
        let row = self.rows;
        let head = read_record(form, channels, before, bytes, &mut self.columns, row)?;
        self.columns.numbers.put(row, head.number);
        self.columns.stamps.put(row, head.stamp);
        self.rows = row + 1;
        Ok(head.number)
    }
}

// A block can be handed to another thread, and seen by several at once.
fn block_crosses_threads(block: &Block) {
    crosses_threads(block);
}
