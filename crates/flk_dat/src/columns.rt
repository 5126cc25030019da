//! The lists in which a block keeps its records.

ghost use Rattle.std.specs.Prelude.{◌≡◌, length, IfOk};

use crate::column::{Column, columns_of};
use std::alloc::{AllocError, Global};

/// The sample numbers, the time stamps, and for each channel its values: the k-th of each list belong to the k-th
/// record.
#[derive(Drop)]
pub struct Columns {
    pub numbers: Column<u32>,
    pub stamps: Column<Option<u64>>,
    pub analog: Vec<Column<i32>>,
    pub digital: Vec<Column<bool>>,
}

impl Columns {
    ghost use Rattle.flk_dat.specs.Blocks.{AreLaid};

    /// Lists of so many analog and digital channels, for so many records.
    pub fn new(
        alloc: Global,
        analog: usize,
        digital: usize,
        room: usize,
    ) -> Result<Columns, AllocError>
        ensures analog { IfOk result (λ c. length c.analog.items ≡ analog) }
        ensures digital { IfOk result (λ c. length c.digital.items ≡ digital) }
        ensures laid { IfOk result (λ c. AreLaid room 0 c) }
    {
        Ok(Columns {
            numbers: Column::new(alloc, room, 0)?,
            stamps: Column::new(alloc, room, None)?,
            analog: columns_of(alloc, analog, room, 0)?,
            digital: columns_of(alloc, digital, room, false)?,
        })
    }
}
