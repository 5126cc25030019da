//! What is known of a window.

ghost use Rattle.std.specs.Prelude.{◌≡◌, ◌^◌, ◌<◌, length};
ghost use Rattle.flk_change.specs.Resolutions.{doubtful_count};

/// Whether the window that ends with a half-period is steady: whether no two of its values differ by more than
/// 4,000,000 billionths of nominal.
#[derive(Clone, Copy, Debug, PartialEq, Eq)]
pub enum Flag {
    /// There are fewer half-periods so far than a window has.
    Early,
    /// Steady, whichever values the intervals hold.
    Sure,
    /// Not steady, whichever values the intervals hold.
    Not,
    /// Neither is certain.
    Doubtful,
}

/// How many of the flags are Doubtful.
pub(crate) fn count_doubtful(flags: &[Flag]) -> u32
    requires { length flags.now < 2 ^ 32 }
    ensures { result ≡ doubtful_count flags.now }
{
    let mut count = 0;
    for flag in flags {
        if *flag == Flag::Doubtful {
            count += 1;
        }
    }
    count
}
