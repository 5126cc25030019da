//! The form and the channels of the records that a reader reads.

ghost use Rattle.std.specs.Prelude.{◌≡◌, ◌+◌, ◌≤◌, length, IfOk};
ghost use Rattle.flk_dat.specs.Records.{selected_of};
ghost use Rattle.flk_dat.specs.BinaryRecords.{record_size as size_of_record};

use crate::binary::record_size;
use flk_cfg::Form;
use std::alloc::{AllocError, Global};

/// The form, for each analog channel whether it is selected, how many digital channels there are, and the bytes of a
/// binary record of them all.
#[derive(Drop)]
pub struct Channels {
    pub form: Form,
    pub selected: Vec<bool>,
    pub digital: usize,
    pub size: usize,
    ghost analog_few: { length selected.items ≤ 256 },
    ghost digital_few: { digital ≤ 256 },
    ghost size_is: { size ≡ size_of_record form (length selected.items) digital },
}

/// For each of so many channels, which count from 1, whether its number is among these.
fn flags(alloc: Global, channels: usize, numbers: &[u16]) -> Result<Vec<bool>, AllocError>
    requires { channels ≤ 256 }
    ensures { IfOk result (λ v. v.items ≡ selected_of channels numbers.now) }
{
    let mut flags = Vec::with_capacity(alloc, channels)?;
    for i in 0..channels {
        let number = i as u16 + 1;
        flags.push(numbers.contains(&number))?;
    }
    Ok(flags)
}

impl Channels {
    /// So many analog and digital channels, with the analog ones of these numbers selected.
    pub fn new(
        alloc: Global,
        form: Form,
        analog: usize,
        digital: usize,
        numbers: &[u16],
    ) -> Result<Channels, AllocError>
        requires few { (analog ≤ 256) × (digital ≤ 256) }
        ensures form { IfOk result (λ c. c.form ≡ form) }
        ensures selected { IfOk result
            (λ c. (c.selected.items ≡ selected_of analog numbers.now) × (length c.selected.items ≡ analog)) }
        ensures digital { IfOk result (λ c. c.digital ≡ digital) }
    {
        Ok(Channels {
            form,
            selected: flags(alloc, analog, numbers)?,
            digital,
            size: record_size(form, analog, digital),
        })
    }
}
