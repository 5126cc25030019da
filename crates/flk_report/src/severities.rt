//! The judged severities of a channel.

ghost use Rattle.std.specs.Prelude.{◌≡◌, take};

use flk_num::Interval;
use flk_result::PhaseResult;

/// The short-term severities of the intervals that were judged, in billionths.
pub fn severities_of(channel: &PhaseResult) -> &[Interval]
    ensures { result.now ≡ take channel.now.count channel.now.pst }
{
    let count = usize::from(channel.count).min(channel.pst.len());
    &channel.pst[..count]
}
