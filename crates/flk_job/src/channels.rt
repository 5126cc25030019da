//! The channels of a job.

ghost use Rattle.std.specs.Prelude.{◌≡◌, ◌↔◌, ◌+◌, ◌<◌, ◌≤◌, pos, Some, List, ℕ, map, length, IfOk, IfSome, IfNone, IsTrue, MatchResult, option_map};
ghost use Rattle.std.specs.List.{Contains};
ghost use Rattle.toml.specs.Data.{array, get_member};
ghost use Rattle.toml.specs.View.{items_view, table_view};
ghost use Rattle.flk_job.specs.Table.{key_number, key_name, integer_items, AreChannels};
ghost use Rattle.flk_job.specs.Reading.{integers, NoChannels};
ghost use Rattle.flk_num.specs.Stop.{StopIs};

use crate::key::Key;
use crate::kind::{Fault, Kind};
use crate::values::{fault, value_at};
use flk_num::{List, Stop};
use std::alloc::{AllocError, Global};
use toml::{Table, Value};

// The most channels of a job, and the greatest number of one.
const MOST_CHANNELS: usize = 6;

const GREATEST_CHANNEL: u16 = 256;

// The integers of an array, where each item is one.
fn integers_of(alloc: Global, items: &[Value]) -> Result<Option<Vec<i64>>, AllocError>
    ensures { IfOk result (λ o. option_map (λ v. v.items) o ≡ integers (items_view items.now)) }
{
    let mut all = Vec::new(alloc);
    for value in items {
        match value.as_integer() {
            Some(number) => all.push(number)?,
            None => return Ok(None),
        }
    }
    Ok(Some(all))
}

// The integer as the number of a channel.
fn channel_of(number: i64) -> Option<u16>
    ensures some { IfSome result (λ n. (number ≡ pos n) × (1 ≤ n) × (n ≤ 256)) }
    ensures none { IfNone result ((n : ℕ) → number ≡ pos n → 1 ≤ n → ¬ (n ≤ 256)) }
{
    match u16::try_from(number) {
        Ok(n) if 1 <= n && n <= GREATEST_CHANNEL => Some(n),
        _ => None,
    }
}

fn contains(channels: &[u16], channel: u16) -> bool
    ensures { IsTrue result ↔ Contains channels.now channel }
{
    channels.contains(&channel)
}

// The channels of these numbers, where they are 1 to 6 different ones from 1 to 256.
fn channels_of(alloc: Global, numbers: &[i64]) -> Result<Option<List<u16>>, AllocError>
    ensures some { IfOk result (λ o. IfSome o (λ cs. (map (λ n. pos n) cs ≡ numbers.now) × AreChannels cs)) }
    ensures none { IfOk result (λ o. IfNone o ((cs : List ℕ) → map (λ n. pos n) cs ≡ numbers.now → ¬ AreChannels cs)) }
{
    if numbers.is_empty() || numbers.len() > MOST_CHANNELS {
        return Ok(None);
    }
    let mut channels = List::new(alloc);
    for &number in numbers {
        let Some(channel) = channel_of(number) else {
            return Ok(None);
        };
        if contains(channels.as_slice(), channel) {
            return Ok(None);
        }
        channels.push(channel)?;
    }
    Ok(Some(channels))
}

/// The channels at a key that has no default.
pub fn channels_in(alloc: Global, table: &Table, key: Key) -> Result<List<u16>, Stop<Fault>>
    ensures { MatchResult result
        (λ cs. (get_member (key_name key) (table_view table.now) ≡ Some (array (integer_items (map (λ n. pos n) cs))))
        × AreChannels cs)
        (λ s. StopIs
        (λ f. (f.key ≡ key_number key) × NoChannels (get_member (key_name key) (table_view table.now)) f.kind) s) }
{
    let Some(value) = value_at(table, key) else {
        return Err(Stop::Fault(fault(key, Kind::Absent)));
    };
    let Some(items) = value.as_array() else {
        return Err(Stop::Fault(fault(key, Kind::OtherType)));
    };
    let Some(numbers) = integers_of(alloc, items.as_slice())? else {
        return Err(Stop::Fault(fault(key, Kind::OtherType)));
    };
    match channels_of(alloc, numbers.as_slice())? {
        Some(channels) => Ok(channels),
        None => Err(Stop::Fault(fault(key, Kind::Range))),
    }
}
