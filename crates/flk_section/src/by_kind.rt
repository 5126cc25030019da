//! The products that a section takes of an input and of an output, by the kind of the section. Those with b1 and b2 are
//! taken from that with b0 before its upper half is cut, since a product is rounded down whatever its sign.

ghost use Rattle.std.specs.Prelude.{◌≡◌, ◌^◌, ◌<◌};
ghost use Rattle.std.specs.Int.RustNames.{unsigned_abs};
ghost use Rattle.flk_section.specs.declared.kind.SectionKind.TheVariants as kinds;
ghost use Rattle.flk_section.specs.Narrow.{fine_product};
ghost use Rattle.flk_section.specs.Fine.{AreInputProducts, AreOutputProducts};
ghost use Rattle.flk_section.specs.Kinds.{HasKind};

use crate::fine::FineCoefs;
use crate::kind::SectionKind;
use crate::narrow::{product, upper_half, wide_product};
use crate::products::{InputProducts, OutputProducts};

#[inline(always)]
fn high_pass_products(k: &FineCoefs, mid: i64) -> InputProducts
    requires mid { unsigned_abs mid < 2 ^ 60 }
    requires kind { HasKind kinds.HighPass k.now.b0 k.now.b1 k.now.b2 k.now.a2 }
    ensures { AreInputProducts k.now mid result }
{
    let wide = wide_product(k.b0, mid);
    InputProducts {
        b0: upper_half(wide),
        b1: upper_half(-wide),
        b2: 0,
    }
}

#[inline(always)]
fn low_pass_products(k: &FineCoefs, mid: i64) -> InputProducts
    requires mid { unsigned_abs mid < 2 ^ 60 }
    requires kind { HasKind kinds.LowPass k.now.b0 k.now.b1 k.now.b2 k.now.a2 }
    ensures { AreInputProducts k.now mid result }
{
    let wide = wide_product(k.b0, mid);
    let once = upper_half(wide);
    InputProducts {
        b0: once,
        b1: upper_half(2 * wide),
        b2: once,
    }
}

#[inline(always)]
fn band_pass_products(k: &FineCoefs, mid: i64) -> InputProducts
    requires mid { unsigned_abs mid < 2 ^ 60 }
    requires kind { HasKind kinds.BandPass k.now.b0 k.now.b1 k.now.b2 k.now.a2 }
    ensures { AreInputProducts k.now mid result }
{
    let wide = wide_product(k.b0, mid);
    InputProducts {
        b0: upper_half(wide),
        b1: 0,
        b2: upper_half(-wide),
    }
}

#[inline(always)]
fn lead_and_lag_products(k: &FineCoefs, mid: i64) -> InputProducts
    requires mid { unsigned_abs mid < 2 ^ 60 }
    requires kind { HasKind kinds.LeadAndLag k.now.b0 k.now.b1 k.now.b2 k.now.a2 }
    ensures { AreInputProducts k.now mid result }
{
    InputProducts {
        b0: product(k.b0, mid),
        b1: product(k.b1, mid),
        b2: 0,
    }
}

#[inline(always)]
fn lag_products(k: &FineCoefs, mid: i64) -> InputProducts
    requires mid { unsigned_abs mid < 2 ^ 60 }
    requires kind { HasKind kinds.Lag k.now.b0 k.now.b1 k.now.b2 k.now.a2 }
    ensures { AreInputProducts k.now mid result }
{
    let once = product(k.b0, mid);
    InputProducts {
        b0: once,
        b1: once,
        b2: 0,
    }
}

#[inline(always)]
fn any_products(k: &FineCoefs, mid: i64) -> InputProducts
    requires { unsigned_abs mid < 2 ^ 60 }
    ensures { AreInputProducts k.now mid result }
{
    InputProducts {
        b0: product(k.b0, mid),
        b1: product(k.b1, mid),
        b2: product(k.b2, mid),
    }
}

/// The products of the input `mid`.
#[inline(always)]
pub(crate) fn input_products(kind: SectionKind, k: &FineCoefs, mid: i64) -> InputProducts
    requires mid { unsigned_abs mid < 2 ^ 60 }
    requires kind { HasKind kind k.now.b0 k.now.b1 k.now.b2 k.now.a2 }
    ensures { AreInputProducts k.now mid result }
{
    match kind {
        SectionKind::HighPass => high_pass_products(k, mid),
        SectionKind::LowPass => low_pass_products(k, mid),
        SectionKind::BandPass => band_pass_products(k, mid),
        SectionKind::LeadAndLag => lead_and_lag_products(k, mid),
        SectionKind::Lag => lag_products(k, mid),
        SectionKind::Any => any_products(k, mid),
    }
}

// The product with a2, which is 0 where the section is of first order.
#[inline(always)]
fn second_product(kind: SectionKind, k: &FineCoefs, output: i64) -> i64
    requires output { unsigned_abs output < 2 ^ 60 }
    requires kind { HasKind kind k.now.b0 k.now.b1 k.now.b2 k.now.a2 }
    ensures { result ≡ fine_product k.now.a2 output }
{
    match kind {
        SectionKind::HighPass | SectionKind::LeadAndLag | SectionKind::Lag => 0,
        SectionKind::LowPass | SectionKind::BandPass | SectionKind::Any => product(k.a2, output),
    }
}

/// The products of the output.
#[inline(always)]
pub(crate) fn output_products(kind: SectionKind, k: &FineCoefs, output: i64) -> OutputProducts
    requires output { unsigned_abs output < 2 ^ 60 }
    requires kind { HasKind kind k.now.b0 k.now.b1 k.now.b2 k.now.a2 }
    ensures { AreOutputProducts k.now output result }
{
    OutputProducts {
        a1: product(k.a1, output),
        a2: second_product(kind, k, output),
    }
}
