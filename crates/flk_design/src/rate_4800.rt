//! The coefficients for 4800 samples a second. Each is a whole number over 2^32.

ghost use Rattle.flk_num.specs.Rate.{sampling_interval};
ghost use Rattle.flk_num.specs.declared.rate.Rate.TheVariants.{R4800};
ghost use Rattle.flk_design.specs.Lamp.{constants_of};
ghost use Rattle.flk_design.specs.Design.{IsDesign};

use flk_cert::Coefs;
use flk_num::Lamp;

// The high-pass at 0.05 Hz, of both lamps.
const HIGH_PASS: Coefs = Coefs {
    b0: 4_294_826_748,
    b1: -4_294_826_748,
    b2: 0,
    a1: -4_294_686_200,
    a2: 0,
};

// The low-pass at 35 Hz.
const LOW_PASS_35_FIRST: Coefs = Coefs {
    b0: 2_226_223,
    b1: 4_452_446,
    b2: 2_226_223,
    a1: -8_480_418_075,
    a2: 4_194_355_671,
};

const LOW_PASS_35_SECOND: Coefs = Coefs {
    b0: 2_181_957,
    b1: 4_363_914,
    b2: 2_181_957,
    a1: -8_311_796_237,
    a2: 4_025_556_771,
};

const LOW_PASS_35_THIRD: Coefs = Coefs {
    b0: 2_157_193,
    b1: 4_314_386,
    b2: 2_157_193,
    a1: -8_217_461_078,
    a2: 3_931_122_555,
};

// The weighting filter of the 230 V lamp.
const BAND_PASS_230: Coefs = Coefs {
    b0: 44_745_882,
    b1: 0,
    b2: -44_745_882,
    a1: -8_543_914_690,
    a2: 4_249_560_917,
};

const LEAD_LAG_230: Coefs = Coefs {
    b0: 2_310_066_851,
    b1: -2_303_183_331,
    b2: 0,
    a1: -4_288_083_777,
    a2: 0,
};

const LAG_230: Coefs = Coefs {
    b0: 60_692_059,
    b1: 60_692_059,
    b2: 0,
    a1: -4_173_583_178,
    a2: 0,
};

// The low-pass at 42 Hz.
const LOW_PASS_42_FIRST: Coefs = Coefs {
    b0: 3_197_541,
    b1: 6_395_082,
    b2: 3_197_541,
    a1: -8_456_720_041,
    a2: 4_174_542_911,
};

const LOW_PASS_42_SECOND: Coefs = Coefs {
    b0: 3_121_739,
    b1: 6_243_478,
    b2: 3_121_739,
    a1: -8_256_241_634,
    a2: 3_973_761_295,
};

const LOW_PASS_42_THIRD: Coefs = Coefs {
    b0: 3_079_589,
    b1: 6_159_178,
    b2: 3_079_589,
    a1: -8_144_765_068,
    a2: 3_862_116_129,
};

// The weighting filter of the 120 V lamp.
const BAND_PASS_120: Coefs = Coefs {
    b0: 41_509_231,
    b1: 0,
    b2: -41_509_231,
    a1: -8_542_728_606,
    a2: 4_248_364_370,
};

const LEAD_LAG_120: Coefs = Coefs {
    b0: 2_039_267_604,
    b1: -2_031_434_915,
    b2: 0,
    a1: -4_287_134_607,
    a2: 0,
};

const LAG_120: Coefs = Coefs {
    b0: 48_128_240,
    b1: 48_128_240,
    b2: 0,
    a1: -4_198_710_816,
    a2: 0,
};

/// The seven sections of the lamp's filter at 4800 samples a second.
pub fn design_4800(lamp: Lamp) -> [Coefs; 7]
    ensures { IsDesign (sampling_interval R4800) (constants_of lamp) result }
{
    match lamp {
        Lamp::L230 => [
            HIGH_PASS,
            LOW_PASS_35_FIRST,
            LOW_PASS_35_SECOND,
            LOW_PASS_35_THIRD,
            BAND_PASS_230,
            LEAD_LAG_230,
            LAG_230,
        ],
        Lamp::L120 => [
            HIGH_PASS,
            LOW_PASS_42_FIRST,
            LOW_PASS_42_SECOND,
            LOW_PASS_42_THIRD,
            BAND_PASS_120,
            LEAD_LAG_120,
            LAG_120,
        ],
    }
}
