//! A reader of a data file that comes in pieces.

ghost use Rattle.std.specs.Prelude.{◌≡◌, ◌≢◌, ℕ, ◌+◌, ◌-◌, ◌<◌, ◌≤◌, ◌++◌, [], List, length, take, IfOk, OnOk, IfErr, OnErr, MatchResult, None, Some, Err};
ghost use Rattle.flk_cfg.specs.Valid.{IsValid};
ghost use Rattle.flk_dat.specs.Records.{DataRecord, Rows, IsBlockFor, layout_of};
ghost use Rattle.flk_dat.specs.DataFile.{IsAccepted};
ghost use Rattle.flk_dat.specs.BinaryRecords.{record_size};
ghost use Rattle.flk_dat.specs.Kinds.{data_kind_number};
ghost use Rattle.flk_dat.specs.Streams.{HasFault, EndsInFault, EndsRecord, added, Grows};
ghost use Rattle.flk_dat.specs.declared.kind.DatFault.{DatFault as FaultView};
ghost use Rattle.flk_field.specs.declared.form.Form.TheVariants as forms;

use crate::block::Block;
use crate::channels::Channels;
use crate::held::read_held;
use crate::kind::{DatFault, Fault, Kind};
use crate::line::{are_spaces, line_end};
use crate::rest::Rest;
use crate::tail::Tail;
use flk_cfg::{Config, Form};
use std::alloc::{AllocError, Global};

/// A record that isn't there or isn't whole.
const SHORT: Fault = Fault {
    field: 0,
    kind: Kind::Short,
};

/// Bytes behind the last record that are no tail.
const LONG: Fault = Fault {
    field: 0,
    kind: Kind::Long,
};

/// A reader of a data file, which takes the file's bytes in pieces and puts their records into blocks.
#[derive(Drop)]
pub struct Reader {
    records: u32,
    channels: Channels,
    given: u32,
    before: Option<u32>,
    rest: Rest,
    tail: Tail,
    fault: Option<DatFault>,
    ghost some: { 0 < records },
    ghost within: { given ≤ records },
    ghost part: { channels.form ≢ forms.Ascii
        → length rest < record_size channels.form (length channels.selected.items) channels.digital },
}

impl Reader {
    ghost use Rattle.flk_dat.specs.States.{layout, kept_fault, Stands, FitsBlock};
    ghost use Rattle.flk_dat.specs.Takings.{Takes, TakesSome, TakesAll, Stops, Gives, Ends, Falls};

    /// A reader of the data of this configuration that has taken nothing. `selected` has the numbers of the analog
    /// channels, from 1, in which a missing value is refused; a number of no channel selects nothing.
    pub fn new(alloc: Global, c: &Config, selected: &[u16]) -> Result<Reader, AllocError>
        requires { IsValid c.now }
        ensures layout { IfOk result (λ r. layout r ≡ layout_of c.now selected.now) }
        ensures stands { IfOk result (λ r. Stands r [] []) }
        ensures fits { IfOk result (λ r. (b : Rows) → IsBlockFor c.now b → FitsBlock r b) }
    {
        Ok(Reader {
            records: c.endsamp,
            channels: Channels::new(
                alloc,
                c.form,
                c.analog.as_slice().len(),
                c.digital.as_slice().len(),
                selected,
            )?,
            given: 0,
            before: None,
            rest: Rest::new(alloc)?,
            tail: Tail::new(),
            fault: None,
        })
    }

    /// Takes bytes from the front of the piece, and puts each record that is whole at the end of `out`. It answers how
    /// many bytes it took: the whole piece unless `out` becomes full, and then up to the end of the last record that
    /// fits; nothing where `out` is full already. A byte 1A before which the last ASCII record's line ends is taken
    /// with that record.
    ///
    /// A fault is the first fault of the bytes taken whatever follows them; the records before it are in `out`, which
    /// has room for more. From then on the reader answers that fault and appends nothing. It takes no memory.
    pub fn feed(&mut self, piece: &[u8], out: &mut Block) -> Result<usize, DatFault>
        requires { FitsBlock self.old out.old }
        ensures layout { layout self.new ≡ layout self.old }
        ensures grows { Grows out.old out.new }
        ensures fits { FitsBlock self.new out.new }
        ensures within { IfOk result (λ n. n ≤ length piece.now) }
        ensures progress { IfOk result (λ n. 0 < length piece.now → length out.old.records < out.old.room → 0 < n) }
        ensures whole { IfOk result (λ n. length out.new.records < out.new.room → n ≡ length piece.now) }
        ensures nothing { out.old.room ≤ length out.old.records → IfOk result (λ n. n ≡ 0) }
        ensures stands { (taken : List ℕ) (given : List DataRecord) → Stands self.old taken given
            → IfOk result (λ n. Stands self.new (taken ++ take n piece.now) (given ++ added out.old out.new)) }
        ensures full { (taken : List ℕ) (given : List DataRecord) → Stands self.old taken given
            → length out.old.records < out.old.room → out.new.room ≤ length out.new.records
            → IfOk result (λ n.
            EndsRecord (layout self.old) (length (given ++ added out.old out.new) - 1) (taken ++ take n piece.now)) }
        ensures fault { (taken : List ℕ) (given : List DataRecord) → Stands self.old taken given
            → IfErr result (λ f. HasFault (layout self.old) (taken ++ piece.now) (given ++ added out.old out.new) f) }
        ensures room { kept_fault self.old ≡ None → OnErr result (length out.new.records < out.new.room) }
        ensures keeps { IfErr result (λ f. kept_fault self.new ≡ Some f) }
        ensures kept { (f : FaultView) → kept_fault self.old ≡ Some f → (result ≡ Err f) × (out.new ≡ out.old) }
    {
        if let Some(fault) = self.fault {
            return Err(fault);
        }
        match self.take(piece, out) {
            Ok(count) => Ok(count),
            Err(fault) => Err(self.fail(fault)),
        }
    }

    /// Says that the input has ended. A last ASCII record that has no line end is put into `out`, which needs room for
    /// one.
    ///
    /// The fault is the first fault of all bytes taken. It takes no memory.
    pub fn finish(&mut self, out: &mut Block) -> Result<(), DatFault>
        requires fits { FitsBlock self.old out.old }
        requires room { length out.old.records < out.old.room }
        ensures layout { layout self.new ≡ layout self.old }
        ensures grows { Grows out.old out.new }
        ensures fits { FitsBlock self.new out.new }
        ensures accepted { (taken : List ℕ) (given : List DataRecord) → Stands self.old taken given
            → OnOk result (IsAccepted (layout self.old) taken (given ++ added out.old out.new)) }
        ensures fault { (taken : List ℕ) (given : List DataRecord) → Stands self.old taken given
            → IfErr result (λ f. EndsInFault (layout self.old) taken (given ++ added out.old out.new) f) }
        ensures keeps { IfErr result (λ f. kept_fault self.new ≡ Some f) }
        ensures kept { (f : FaultView) → kept_fault self.old ≡ Some f → (result ≡ Err f) × (out.new ≡ out.old) }
    {
        if let Some(fault) = self.fault {
            return Err(fault);
        }
        match self.end(out) {
            Ok(()) => Ok(()),
            Err(fault) => Err(self.fail(fault)),
        }
    }

    /// Keeps the fault, with the number of the record that is due.
    fn fail(&mut self, fault: Fault) -> DatFault
        ensures is { result
            ≡ record { row = self.old.given + 1; field = fault.field; kind = data_kind_number fault.kind } }
        ensures keeps { kept_fault self.new ≡ Some result }
        ensures layout { layout self.new ≡ layout self.old }
    {
        let fault = DatFault {
            row: u64::from(self.given) + 1,
            field: fault.field,
            kind: fault.kind.number(),
        };
        self.fault = Some(fault);
        fault
    }

    /// Takes bytes up to the end of the piece, or to the end of the last record that fits.
    #[inline(always)]
    fn take(&mut self, piece: &[u8], out: &mut Block) -> Result<usize, Fault>
        requires { FitsBlock self.old out.old }
        ensures taken { MatchResult result (λ n. TakesAll self.old self.new out.old out.new piece.now n)
            (λ f. Stops self.old self.new out.old out.new piece.now f) }
        ensures room { OnErr result (length out.new.records < out.new.room) }
    {
        let mut at = 0;
        while at < piece.len() && out.rows() < out.room() {
            at += self.step(&piece[at..], out)?;
        }
        Ok(at)
    }

    /// Takes bytes up to the end of the record that is due or a later one, or all bytes.
    #[inline(always)]
    fn step(&mut self, piece: &[u8], out: &mut Block) -> Result<usize, Fault>
        requires some { 0 < length piece.now }
        requires fits { FitsBlock self.old out.old }
        requires room { length out.old.records < out.old.room }
        ensures taken { MatchResult result (λ n. TakesSome self.old self.new out.old out.new piece.now n)
            (λ f. Stops self.old self.new out.old out.new piece.now f) }
        ensures room { OnErr result (length out.new.records < out.new.room) }
    {
        if self.given == self.records {
            return self.take_tail(piece);
        }
        match self.channels.form {
            Form::Ascii => self.take_line(piece, out),
            Form::Binary => self.take_binary(piece, out),
        }
    }

    /// Takes bytes behind the last record.
    fn take_tail(&mut self, piece: &[u8]) -> Result<usize, Fault>
        requires some { 0 < length piece.now }
        requires all { self.old.given ≡ self.old.records }
        ensures { (b : Rows) → MatchResult result (λ n. Takes self.old self.new b b piece.now n)
            (λ f. Stops self.old self.new b b piece.now f) }
    {
        match self.channels.form {
            Form::Ascii => match self.tail.with(piece) {
                Some(tail) => {
                    self.tail = tail;
                    Ok(piece.len())
                }
                None => Err(LONG),
            },
            Form::Binary => Err(LONG),
        }
    }

    /// Takes bytes of an ASCII line.
    fn take_line(&mut self, piece: &[u8], out: &mut Block) -> Result<usize, Fault>
        requires some { 0 < length piece.now }
        requires form { self.old.channels.form ≡ forms.Ascii }
        requires due { self.old.given < self.old.records }
        requires fits { FitsBlock self.old out.old }
        requires room { length out.old.records < out.old.room }
        ensures taken { MatchResult result (λ n. Takes self.old self.new out.old out.new piece.now n)
            (λ f. Stops self.old self.new out.old out.new piece.now f) }
        ensures nothing { OnErr result (out.new ≡ out.old) }
    {
        let end = line_end(piece, self.given + 1 == self.records);
        if end == piece.len() {
            return match self.rest.hold_line(piece) {
                Ok(()) => Ok(end),
                Err(fault) => Err(fault),
            };
        }
        match read_held(
            out,
            &mut self.rest,
            &self.channels,
            self.before,
            &piece[..end],
        ) {
            Ok(number) => {
                self.count(number, Tail::after(piece[end]));
                Ok(end + 1)
            }
            Err(fault) => Err(fault),
        }
    }

    /// Takes bytes of binary records: of those that are whole in the piece, or of the one that is due.
    #[inline(always)]
    fn take_binary(&mut self, piece: &[u8], out: &mut Block) -> Result<usize, Fault>
        requires some { 0 < length piece.now }
        requires form { self.old.channels.form ≡ forms.Binary }
        requires due { self.old.given < self.old.records }
        requires fits { FitsBlock self.old out.old }
        requires room { length out.old.records < out.old.room }
        ensures taken { MatchResult result (λ n. TakesSome self.old self.new out.old out.new piece.now n)
            (λ f. Stops self.old self.new out.old out.new piece.now f) }
        ensures room { OnErr result (length out.new.records < out.new.room) }
    {
        if self.rest.as_slice().is_empty() && self.channels.size <= piece.len() {
            self.take_whole(piece, out)
        } else {
            self.take_due(piece, out)
        }
    }

    /// Takes the binary records that are whole in the piece, one at least, as many as are due and fit.
    fn take_whole(&mut self, piece: &[u8], out: &mut Block) -> Result<usize, Fault>
        requires form { self.old.channels.form ≡ forms.Binary }
        requires rest { self.old.rest ≡ [] }
        requires whole { self.old.channels.size ≤ length piece.now }
        requires due { self.old.given < self.old.records }
        requires fits { FitsBlock self.old out.old }
        requires room { length out.old.records < out.old.room }
        ensures taken { MatchResult result (λ n. TakesSome self.old self.new out.old out.new piece.now n)
            (λ f. Stops self.old self.new out.old out.new piece.now f) }
        ensures room { OnErr result (length out.new.records < out.new.room) }
    {
        let size = self.channels.size;
        let mut at = 0;
        loop {
            let bytes = &piece[at..at + size];
            let number = out.read(Form::Binary, &self.channels, self.before, bytes)?;
            self.count(number, Tail::new());
            at += size;
            if piece.len() - at < size || self.given == self.records || out.rows() == out.room() {
                return Ok(at);
            }
        }
    }

    /// Takes bytes of the binary record that is due, of which some may be held.
    fn take_due(&mut self, piece: &[u8], out: &mut Block) -> Result<usize, Fault>
        requires some { 0 < length piece.now }
        requires form { self.old.channels.form ≢ forms.Ascii }
        requires due { self.old.given < self.old.records }
        requires fits { FitsBlock self.old out.old }
        requires room { length out.old.records < out.old.room }
        ensures taken { MatchResult result (λ n. Takes self.old self.new out.old out.new piece.now n)
            (λ f. Stops self.old self.new out.old out.new piece.now f) }
        ensures nothing { OnErr result (out.new ≡ out.old) }
    {
        let due = self.channels.size - self.rest.as_slice().len();
        if piece.len() < due {
            self.rest.hold(piece);
            return Ok(piece.len());
        }
        match read_held(
            out,
            &mut self.rest,
            &self.channels,
            self.before,
            &piece[..due],
        ) {
            Ok(number) => {
                self.count(number, Tail::new());
                Ok(due)
            }
            Err(fault) => Err(fault),
        }
    }

    /// Counts the record that was put into the block.
    #[inline(always)]
    fn count(&mut self, number: u32, tail: Tail)
        requires { self.old.given < self.old.records }
        ensures { Gives self.old self.new number tail }
    {
        self.given += 1;
        self.before = Some(number);
        self.tail = tail;
    }

    /// Reads what is left at the end of the input.
    fn end(&mut self, out: &mut Block) -> Result<(), Fault>
        requires fits { FitsBlock self.old out.old }
        requires room { length out.old.records < out.old.room }
        ensures { MatchResult result (λ _. Ends self.old self.new out.old out.new)
            (λ f. Falls self.old self.new out.old out.new f) }
    {
        if self.given == self.records {
            return Ok(());
        }
        match self.channels.form {
            Form::Ascii => self.end_line(out),
            Form::Binary => Err(SHORT),
        }
    }

    /// Reads a line that has no end.
    fn end_line(&mut self, out: &mut Block) -> Result<(), Fault>
        requires form { self.old.channels.form ≡ forms.Ascii }
        requires due { self.old.given < self.old.records }
        requires fits { FitsBlock self.old out.old }
        requires room { length out.old.records < out.old.room }
        ensures { MatchResult result (λ _. Ends self.old self.new out.old out.new)
            (λ f. Falls self.old self.new out.old out.new f) }
    {
        if are_spaces(self.rest.as_slice()) {
            return Err(SHORT);
        }
        match out.read(
            Form::Ascii,
            &self.channels,
            self.before,
            self.rest.as_slice(),
        ) {
            Ok(number) => {
                self.rest.clear();
                self.count(number, Tail::new());
                if self.given == self.records {
                    Ok(())
                } else {
                    Err(SHORT)
                }
            }
            Err(fault) => Err(fault),
        }
    }
}
