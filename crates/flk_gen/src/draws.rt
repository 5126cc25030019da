//! The draws: a linear congruential generator modulo 2^32.

ghost use Rattle.std.specs.Prelude.{◌≡◌, ◌<◌};
ghost use Rattle.flk_gen.specs.Workload.{next_draw, depth_of};

/// The draw after this one.
pub(crate) fn next_draw(draw: u32) -> u32
    ensures { result ≡ next_draw draw }
{
    ((1_664_525 * u64::from(draw) + 1_013_904_223) % (1 << 32)) as u32
}

/// By how many thousandths a draw lowers a channel: two bits of it, three times.
pub(crate) fn depth(draw: u32, channel: u32) -> u32
    requires { channel < 3 }
    ensures value { result ≡ depth_of draw channel }
    ensures small { result < 10 }
{
    3 * ((draw >> (16 + 2 * channel)) % 4)
}
