//! The data of a generated recording, in pieces.

ghost use Rattle.std.specs.Prelude.{◌≡◌, ℕ, ◌+◌, ◌-◌, ◌<◌, ◌≤◌, ◌++◌, All, List, length, vec_len, unsigned_abs, IfOk, OnOk, IsTrue};
ghost use Rattle.flk_field.specs.declared.form.Form.TheVariants.{Ascii};
ghost use Rattle.flk_dat.specs.Written.{written_record};
ghost use Rattle.flk_gen.specs.Recording.{recorded, IsGenerated, IsOneRow};
ghost use Rattle.flk_gen.specs.Workload.{values};

use crate::workload::Workload;
use flk_cfg::Config;
use flk_dat::{Block, write_record};
use std::alloc::{AllocError, Global};

/// How many records a piece has, each of at most 64 bytes.
const PIECE_RECORDS: usize = 1024;

// Appends the line of the sample at this place, counted from 0, in which each value is at most 2^16 in size. The block
// has room for it alone.
fn push_line(
    out: &mut Vec<u8>,
    row: &mut Block,
    configuration: &Config,
    place: u32,
    sample: &[i32],
) -> Result<(), AllocError>
    requires configuration { IsGenerated configuration.now }
    requires shape { IsOneRow row.old }
    requires place { place ≤ 19200000 }
    requires channels { length sample.now ≡ 3 }
    requires values { All (λ z. unsigned_abs z ≤ 65536) sample.now }
    ensures text { OnOk result (out.new.items ≡ out.old.items ++ written_record Ascii (recorded place sample.now)) }
    ensures size { OnOk result (vec_len out.new ≤ vec_len out.old + 64) }
    ensures shape { IsOneRow row.new }
{
    row.clear();
    let stamp = 1250 * u64::from(place) / 3;
    row.push(place + 1, Some(stamp), sample, &[]);
    write_record(out, configuration, row, 0)
}

/// The records that are to come of a generated recording.
#[derive(Drop)]
pub struct Recording {
    workload: Workload,
    /// The one record that is written.
    row: Block,
    /// The values of the record that was given last.
    last: [i32; 3],
    ghost channels: { row.analog ≡ 3 },
    ghost digital: { row.digital ≡ 0 },
    ghost room: { row.room ≡ 1 },
}

impl Recording {
    ghost use Rattle.flk_gen.specs.Progress.{records_left, HasGiven, Continues};

    /// The most bytes of a piece.
    pub const PIECE: usize = 65_536;

    /// The recording of this seed, of 1 to 8000 seconds, to its configuration.
    pub fn new(
        alloc: Global,
        configuration: &Config,
        seed: u32,
        seconds: u32,
    ) -> Result<Recording, AllocError>
        requires seconds { (1 ≤ seconds) × (seconds ≤ 8000) }
        requires configuration { IsGenerated configuration.now }
        ensures { IfOk result (λ r. HasGiven r seed seconds 0) }
    {
        Ok(Recording {
            workload: Workload::new(seed, seconds),
            row: Block::new(alloc, configuration, 1)?,
            last: [0; 3],
        })
    }

    /// Puts the lines of the next records in the place of what `piece` holds: at most 65,536 bytes. It answers whether
    /// there were any. An error comes for want of memory alone.
    pub fn next_piece(
        &mut self,
        configuration: &Config,
        piece: &mut Vec<u8>,
    ) -> Result<bool, AllocError>
        requires { IsGenerated configuration.now }
        ensures gives { (seed seconds n : ℕ) → HasGiven self.old seed seconds n
            → IfOk result (λ more. Continues more seed seconds n piece.new.items self.new) }
        ensures fewer { IfOk result (λ more. IsTrue more → records_left self.new < records_left self.old) }
        ensures size { IfOk result (λ more. vec_len piece.new ≤ 65536) }
    {
        piece.clear();
        for i in 0..PIECE_RECORDS {
            if !self.push_record(configuration, piece)? {
                return Ok(i > 0);
            }
        }
        Ok(true)
    }

    /// The values of the record that was given last.
    pub fn last(&self) -> [i32; 3]
        ensures { (seed seconds n : ℕ) → HasGiven self.now seed seconds n → 0 < n → result ≡ values seed (n - 1) }
    {
        self.last
    }

    // Appends the line of the next record, where there is one.
    fn push_record(&mut self, configuration: &Config, out: &mut Vec<u8>) -> Result<bool, AllocError>
        requires { IsGenerated configuration.now }
        ensures gives { (seed seconds n : ℕ) → HasGiven self.old seed seconds n
            → IfOk result (λ more. (bytes : List ℕ) × (out.new.items ≡ out.old.items ++ bytes)
            × Continues more seed seconds n bytes self.new) }
        ensures fewer { IfOk result (λ more. IsTrue more → records_left self.new < records_left self.old) }
        ensures kept { IfOk result (λ more. records_left self.new ≤ records_left self.old) }
        ensures size { IfOk result (λ more. vec_len out.new ≤ vec_len out.old + 64) }
    {
        let place = self.workload.given();
        let Some(sample) = self.workload.next_sample() else {
            return Ok(false);
        };
        self.last = sample;
        push_line(out, &mut self.row, configuration, place, &sample)?;
        Ok(true)
    }
}
