//! The coefficients for 2400 samples a second. Each is a whole number over 2^32.

ghost use Rattle.flk_num.specs.Rate.{sampling_interval};
ghost use Rattle.flk_num.specs.declared.rate.Rate.TheVariants.{R2400};
ghost use Rattle.flk_design.specs.Lamp.{constants_of};
ghost use Rattle.flk_design.specs.Design.{IsDesign};

use flk_cert::Coefs;
use flk_num::Lamp;

// The high-pass at 0.05 Hz, of both lamps.
const HIGH_PASS: Coefs = Coefs {
    b0: 4_294_686_209,
    b1: -4_294_686_209,
    b2: 0,
    a1: -4_294_405_123,
    a2: 0,
};

// The low-pass at 35 Hz.
const LOW_PASS_35_FIRST: Coefs = Coefs {
    b0: 8_788_291,
    b1: 17_576_582,
    b2: 8_788_291,
    a1: -8_356_192_996,
    a2: 4_096_378_865,
};

const LOW_PASS_35_SECOND: Coefs = Coefs {
    b0: 8_449_932,
    b1: 16_899_864,
    b2: 8_449_932,
    a1: -8_034_470_111,
    a2: 3_773_302_543,
};

const LOW_PASS_35_THIRD: Coefs = Coefs {
    b0: 8_266_186,
    b1: 16_532_372,
    b2: 8_266_186,
    a1: -7_859_758_383,
    a2: 3_597_855_830,
};

// The weighting filter of the 230 V lamp.
const BAND_PASS_230: Coefs = Coefs {
    b0: 89_011_712,
    b1: 0,
    b2: -89_011_712,
    a1: -8_497_168_044,
    a2: 4_204_641_676,
};

const LEAD_LAG_230: Coefs = Coefs {
    b0: 2_311_656_171,
    b1: -2_297_900_156,
    b2: 0,
    a1: -4_281_211_281,
    a2: 0,
};

const LAG_230: Coefs = Coefs {
    b0: 119_692_743,
    b1: 119_692_743,
    b2: 0,
    a1: -4_055_581_809,
    a2: 0,
};

// The low-pass at 42 Hz.
const LOW_PASS_42_FIRST: Coefs = Coefs {
    b0: 12_585_615,
    b1: 25_171_230,
    b2: 12_585_615,
    a1: -8_302_595_200,
    a2: 4_057_970_366,
};

const LOW_PASS_42_SECOND: Coefs = Coefs {
    b0: 12_011_612,
    b1: 24_023_224,
    b2: 12_011_612,
    a1: -7_923_931_060,
    a2: 3_677_010_210,
};

const LOW_PASS_42_THIRD: Coefs = Coefs {
    b0: 11_703_440,
    b1: 23_406_880,
    b2: 11_703_440,
    a1: -7_720_633_291,
    a2: 3_472_479_753,
};

// The weighting filter of the 120 V lamp.
const BAND_PASS_120: Coefs = Coefs {
    b0: 82_561_846,
    b1: 0,
    b2: -82_561_846,
    a1: -8_494_842_419,
    a2: 4_202_274_093,
};

const LEAD_LAG_120: Coefs = Coefs {
    b0: 2_041_322_579,
    b1: -2_025_671_472,
    b2: 0,
    a1: -4_279_316_189,
    a2: 0,
};

const LAG_120: Coefs = Coefs {
    b0: 95_189_809,
    b1: 95_189_809,
    b2: 0,
    a1: -4_104_587_678,
    a2: 0,
};

/// The seven sections of the lamp's filter at 2400 samples a second.
pub fn design_2400(lamp: Lamp) -> [Coefs; 7]
    ensures { IsDesign (sampling_interval R2400) (constants_of lamp) result }
{
    match lamp {
        Lamp::L230 => [
            HIGH_PASS,
            LOW_PASS_35_FIRST,
            LOW_PASS_35_SECOND,
            LOW_PASS_35_THIRD,
            BAND_PASS_230,
            LEAD_LAG_230,
            LAG_230,
        ],
        Lamp::L120 => [
            HIGH_PASS,
            LOW_PASS_42_FIRST,
            LOW_PASS_42_SECOND,
            LOW_PASS_42_THIRD,
            BAND_PASS_120,
            LEAD_LAG_120,
            LAG_120,
        ],
    }
}
