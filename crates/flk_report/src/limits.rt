//! The limits of IEC 61000-3-3, clause 5.

ghost use Rattle.std.specs.Prelude.{◌≡◌, ◌≤◌};
ghost use Rattle.flk_report.specs.Limits.{dmax_limit as limit_of_dmax, tmax_limit as limit_of_tmax};

use flk_job::Job;
use flk_num::Lamp;

/// The limit of dc, in billionths of nominal: 3.3 percent.
pub const DC: i128 = 33_000_000;

/// The limit of Pst, in billionths: 1.0.
pub const PST: i128 = 1_000_000_000;

/// The limit of Plt, in billionths: 0.65.
pub const PLT: i128 = 650_000_000;

/// The limit of dmax, in billionths of nominal.
pub fn dmax_limit(job: &Job) -> i128
    ensures { result ≡ limit_of_dmax job.now }
{
    10_000_000 * i128::from(job.dmax_percent)
}

/// The limit of Tmax in half-periods: 500 ms.
pub fn tmax_limit(lamp: Lamp) -> i128
    ensures { result ≡ limit_of_tmax lamp }
{
    lamp.window() as i128 / 2
}
