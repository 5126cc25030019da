//! The kinds of the sections of a design: which coefficients follow from others, so that a step takes fewer products.

ghost use Rattle.std.specs.Prelude.{◌≡◌, ◌<◌, ◌↔◌, IsTrue};
ghost use Rattle.flk_cert.specs.Gain.{coefs_of};
ghost use Rattle.flk_section.specs.Kinds.{IsOfKind, kind_at, AreOfDesign};

use flk_cert::{Coefs, Gain};

/// What is known of a section's coefficients: `specs/Kinds` says it of each kind.
#[derive(Clone, Copy, Debug, PartialEq, Eq)]
pub enum SectionKind {
    HighPass,
    LowPass,
    BandPass,
    LeadAndLag,
    Lag,
    Any,
}

// Whether the coefficients are of this kind.
fn is_of_kind(kind: SectionKind, k: &Coefs) -> bool
    ensures { IsTrue result ↔ IsOfKind kind k.now }
{
    match kind {
        SectionKind::HighPass => k.b1 == -k.b0 && k.b2 == 0 && k.a2 == 0,
        SectionKind::LowPass => k.b1 == 2 * k.b0 && k.b2 == k.b0,
        SectionKind::BandPass => k.b1 == 0 && k.b2 == -k.b0,
        SectionKind::LeadAndLag => k.b2 == 0 && k.a2 == 0,
        SectionKind::Lag => k.b1 == k.b0 && k.b2 == 0 && k.a2 == 0,
        SectionKind::Any => true,
    }
}

// The kind of a design's section, counted from 0.
fn kind_of_section(i: usize) -> SectionKind
    requires { i < 7 }
    ensures { result ≡ kind_at i }
{
    match i {
        0 => SectionKind::HighPass,
        1 | 2 | 3 => SectionKind::LowPass,
        4 => SectionKind::BandPass,
        5 => SectionKind::LeadAndLag,
        _ => SectionKind::Lag,
    }
}

/// Whether each section has the kind that it has in a design.
pub(crate) fn are_of_design(gains: &[Gain; 7]) -> bool
    ensures { IsTrue result ↔ AreOfDesign gains.now }
{
    for i in 0..7 {
        if !is_of_kind(kind_of_section(i), &gains[i].coefs()) {
            return false;
        }
    }
    true
}
