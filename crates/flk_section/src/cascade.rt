//! Seven sections in a row.

ghost use Rattle.std.specs.Prelude.{◌≡◌, ◌^◌, ◌<◌, true, List, [], ◌∷◌, map, IsTrue, ℤ, pos, ◌≤ℤ◌, ◌<ℤ◌};
ghost use Rattle.std.specs.Int.{int_max};
ghost use Rattle.std.specs.Int.RustNames.{unsigned_abs};
ghost use Rattle.std.specs.List.{All, AllZip};
ghost use Rattle.flk_exact.specs.Fraction.{Fraction};
ghost use Rattle.flk_front.specs.declared.point.Point.{Point as PointView};
ghost use Rattle.flk_front.specs.Front.{IsWithin};
ghost use Rattle.flk_design.specs.Lamp.{LampConstants};
ghost use Rattle.flk_design.specs.Design.{IsDesign};
ghost use Rattle.flk_section.specs.Cascade.{IsCascade, IsWeightedSignal};
ghost use Rattle.flk_section.specs.Points.{IsPointInRange, greatest_point};
ghost use Rattle.flk_section.specs.Radius.{FirstStartsAtRest};
ghost use Rattle.flk_section.specs.Filter.{last_radius};
ghost use Rattle.flk_section.specs.Whole.{gains_of, numbers_of};
ghost use Rattle.flk_section.specs.RowSection.{gain_of};
ghost use Rattle.flk_section.specs.Kinds.{AreOfDesign};
ghost use Rattle.flk_section.specs.Row.{StandInRow, AreReached};

use crate::kind::are_of_design;
use crate::row::step_in_row;
use crate::row_section::RowSection;
use crate::section::Section;
use crate::whole::Whole;
use flk_cert::Gain;
use flk_front::Point;
use flk_num::crosses_threads;

// The sections before their first sample: the first starts from one.
fn sections_of(gains: [Gain; 7]) -> [RowSection; 7]
    requires { FirstStartsAtRest gains }
    ensures gains { map gain_of result ≡ gains }
    ensures stand { StandInRow true result [] }
{
    [
        RowSection::new(gains[0], true),
        RowSection::new(gains[1], false),
        RowSection::new(gains[2], false),
        RowSection::new(gains[3], false),
        RowSection::new(gains[4], false),
        RowSection::new(gains[5], false),
        RowSection::new(gains[6], false),
    ]
}

// The same number in 64 bits.
#[inline(always)]
fn narrow(mid: i128) -> i64
    requires { unsigned_abs mid < 2 ^ 60 }
    ensures { result ≡ mid }
{
    mid as i64
}

/// The weighting filter of the flickermeter, IEC 61000-4-15, block 3: seven sections in a row. Values are in units of
/// 2^-48.
#[derive(Clone, Copy)]
pub struct Cascade {
    whole: Whole,
    sections: [RowSection; 7],
    // Whether the sections have the kinds of a design.
    pub(crate) of_design: bool,
    // The greatest radius of the points so far, and the radius behind the last section that follows from it.
    greatest: i128,
    radius: i128,
    ghost design: { IsTrue of_design → ∥ AreOfDesign (gains_of whole) ∥₁ },
    ghost greatest_low: { pos 0 ≤ℤ greatest },
    ghost greatest_high: { greatest ≤ℤ pos greatest_point },
    ghost follows: { radius ≡ last_radius (numbers_of whole) greatest },
    ghost reached: { ∥ AreReached (gains_of whole) sections ∥₁ },
}

impl Cascade {
    ghost use Rattle.flk_section.specs.Answer.{whole_in, CascadeStands, IsAnswer};

    /// The cascade with this bound and the gains that it holds, before its first point. The first section starts from
    /// one, the others from zeros.
    pub fn new(whole: Whole) -> Cascade
        ensures whole { whole_in result ≡ whole }
        ensures stands { CascadeStands result [] }
    {
        let gains = whole.gains();
        Cascade {
            whole,
            sections: sections_of(gains),
            of_design: are_of_design(&gains),
            greatest: 0,
            radius: whole.last_radius(0),
        }
    }

    // Keeps the greatest radius so far, and the one that follows from it.
    #[inline(always)]
    fn take_radius(&mut self, radius: i128)
        requires low { pos 0 ≤ℤ radius }
        requires high { radius ≤ℤ pos greatest_point }
        ensures whole { self.new.whole ≡ self.old.whole }
        ensures sections { self.new.sections ≡ self.old.sections }
        ensures greatest { self.new.greatest ≡ int_max radius self.old.greatest }
    {
        if radius > self.greatest {
            let last = self.whole.last_radius(radius);
            self.greatest = radius;
            self.radius = last;
        }
    }

    /// Takes the next point of the adaptor, whose `mid` and `radius` are from 0 to 66 times 2^48 units, and answers the
    /// point of the weighted signal. Its `mid` goes through the sections with rounded products. Its `radius` follows
    /// from the greatest radius of all points so far: that radius times the first gain's input over 2^32, rounded up,
    /// and the gain's rounding; then in the same way by the bound of the other sections in a row. Both `mid` and
    /// `radius` are below 2^60 in size.
    ///
    /// For exact inputs that lie in the points taken, the exact output of the sections in a row lies in the answer.
    /// With the coefficients of a lamp's design this is the lamp's weighted signal.
    #[inline(always)]
    pub fn step(&mut self, p: Point) -> Point
        requires { IsPointInRange p }
        ensures whole { whole_in self.new ≡ whole_in self.old }
        ensures stands { (ps : List PointView) → CascadeStands self.old ps → CascadeStands self.new (p ∷ ps) }
        ensures answer { (ps : List PointView) → CascadeStands self.old ps
            → IsAnswer (numbers_of (whole_in self.old)) ps p result }
        ensures mid_small { unsigned_abs result.mid < 2 ^ 60 }
        ensures radius_low { pos 0 ≤ℤ result.radius }
        ensures radius_small { result.radius <ℤ pos (2 ^ 60) }
        ensures enclosure { (ps : List PointView) (xs ys : List Fraction) (y : Fraction) → CascadeStands self.old ps
            → AllZip IsWithin (p ∷ ps) xs → IsCascade (numbers_of (whole_in self.old)).coefs xs (y ∷ ys)
            → IsWithin result y }
        ensures signal { (ps : List PointView) (T : Fraction) (c : LampConstants) (xs ws : List Fraction) (w : Fraction)
            → CascadeStands self.old ps → AllZip IsWithin (p ∷ ps) xs
            → IsDesign T c (numbers_of (whole_in self.old)).coefs
            → IsWeightedSignal T c xs (w ∷ ws) → IsWithin result w }
        ensures width { (ps : List PointView) (r : ℤ) → CascadeStands self.old ps → All (λ q. q.radius ≤ℤ r) (p ∷ ps)
            → result.radius ≤ℤ last_radius (numbers_of (whole_in self.old)) r }
    {
        self.take_radius(p.radius);
        let mid = narrow(p.mid);
        Point {
            mid: i128::from(step_in_row(&mut self.sections, self.of_design, mid)),
            radius: self.radius,
        }
    }
}

// A section, the bound of a whole cascade and a cascade can be handed to another thread, and seen by several at once.
fn section_crosses_threads(section: &Section) {
    crosses_threads(section);
}

fn whole_crosses_threads(whole: &Whole) {
    crosses_threads(whole);
}

fn cascade_crosses_threads(cascade: &Cascade) {
    crosses_threads(cascade);
}
