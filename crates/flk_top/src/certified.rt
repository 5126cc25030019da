//! Whether a lamp is certified at a sampling rate.

ghost use Rattle.std.specs.Prelude.{◌≡◌, length, IfOk, IfErr, IfSome, IfNone};
ghost use Rattle.std.specs.List.{AllZip};
ghost use Rattle.flk_num.specs.Stop.{StopIs};
ghost use Rattle.flk_section.specs.Whole.{IsWholeOf};
ghost use Rattle.flk_top.specs.Certified.{IsCertifiedSection, IsRefused, FailsAt, gains_in, IsBounded};
ghost use Rattle.flk_top.specs.Certified.{IsCertifiedLamp, IsRefusedLamp, lamp_fault_number};

use flk_cert::{Coefs, Gain, check, make};
use flk_design::design_at;
use flk_io::OutOfMemory;
use flk_num::{Lamp, Rate, Stop};
use flk_section::{Whole, fits, whole_of};
use std::alloc::Global;

/// A section of a lamp's filter whose certificate is accepted.
#[derive(Clone, Copy)]
pub struct CertifiedSection {
    /// The gain that the certificate shows, with the section's coefficients.
    pub gain: Gain,
    /// How many rows the certificate has.
    pub rows: usize,
}

/// A lamp that is certified at a sampling rate.
#[derive(Drop)]
pub struct CertifiedLamp {
    /// The seven sections of its filter, in the order of the signal.
    pub sections: Vec<CertifiedSection>,
    /// The bound of the whole cascade. It holds the seven gains.
    pub whole: Whole,
}

/// Why a lamp isn't certified at a sampling rate.
#[derive(Clone, Copy, Debug)]
pub enum LampFault {
    /// The certificate that is made for this section, counted from 1, is refused, and none before it.
    Section(usize),
    /// All seven certificates are accepted, but no cascade can be made with the gains, or there is no bound of it.
    Cascade,
}

impl LampFault {
    /// The number with which the line of the fault ends: that of the section, counted from 1, or 0.
    pub fn number(self) -> usize
        ensures { result ≡ lamp_fault_number self }
    {
        match self {
            LampFault::Section(section) => section,
            LampFault::Cascade => 0,
        }
    }
}

// Makes the certificate of a section and checks it; None exactly where it is refused.
fn certify(alloc: Global, k: &Coefs) -> Result<Option<CertifiedSection>, OutOfMemory>
    ensures some { IfOk result (λ o. IfSome o (IsCertifiedSection k.now)) }
    ensures none { IfOk result (λ o. IfNone o (IsRefused k.now)) }
{
    let cert = make(alloc, k)?;
    match check(k, &cert) {
        Ok(gain) => {
            let rows = cert.rows.as_slice().len();
            Ok(Some(CertifiedSection { gain, rows }))
        }
        Err(_) => Ok(None),
    }
}

// Certifies the sections in their order. What stops is the first that is refused.
fn certify_sections(
    alloc: Global,
    sections: &[Coefs; 7],
) -> Result<Vec<CertifiedSection>, Stop<LampFault>>
    ensures accepted { IfOk result (λ found. AllZip IsCertifiedSection sections.now found.items) }
    ensures refused { IfErr result (StopIs (FailsAt sections.now)) }
{
    let mut found = Vec::new(alloc);
    for (i, k) in sections.iter().enumerate() {
        match certify(alloc, k)? {
            Some(section) => found.push(section)?,
            None => return Err(Stop::Fault(LampFault::Section(i + 1))),
        }
    }
    Ok(found)
}

// The gains of seven sections.
fn gains_of(sections: &[CertifiedSection]) -> [Gain; 7]
    requires { length sections.now ≡ 7 }
    ensures { result ≡ gains_in sections.now }
{
    [
        sections[0].gain,
        sections[1].gain,
        sections[2].gain,
        sections[3].gain,
        sections[4].gain,
        sections[5].gain,
        sections[6].gain,
    ]
}

// The bound of the cascade with these gains; None exactly where none can be made, or there is no bound.
fn bounded(gains: &[Gain; 7]) -> Option<Whole>
    ensures some { IfSome result (λ whole. IsBounded gains.now × IsWholeOf gains.now whole) }
    ensures none { IfNone result (¬ IsBounded gains.now) }
{
    if fits(gains) { whole_of(gains) } else { None }
}

/// Certifies the seven sections of a lamp's filter at a sampling rate, and bounds the cascade of them. What stops is
/// the least section whose certificate is refused, or, where all are accepted, that no cascade can be made with their
/// gains or there is no bound of it.
pub fn certify_lamp(alloc: Global, lamp: Lamp, rate: Rate) -> Result<CertifiedLamp, Stop<LampFault>>
    ensures certified { IfOk result (λ found. IsCertifiedLamp lamp rate found.sections.items
        × IsWholeOf (gains_in found.sections.items) found.whole) }
    ensures refused { IfErr result (StopIs (IsRefusedLamp lamp rate)) }
{
    let sections = certify_sections(alloc, &design_at(lamp, rate))?;
    match bounded(&gains_of(sections.as_slice())) {
        Some(whole) => Ok(CertifiedLamp { sections, whole }),
        None => Err(Stop::Fault(LampFault::Cascade)),
    }
}
