//! The fields of a line.

ghost use Rattle.std.specs.Prelude.{◌≡◌, ◌+◌, ◌-◌, ◌<◌, ◌≤◌, length, drop, get_or, MatchOption, [], ◌⊎◌};
ghost use Rattle.std.specs.List.{prefix_len, suffix_len, position_or_len, before_first};
ghost use Rattle.flk_text.specs.Lines.{is_byte};
ghost use Rattle.flk_text.specs.Fields.{trimmed as trimmed_of, fields};

use crate::scan::position_of;

/// The number of fields of a line: one more than the number of its commas.
pub fn field_count(line: &[u8]) -> usize
    ensures { result ≡ length (fields line.now) }
{
    let mut count = 0;
    for each in line {
        if *each == b',' {
            count += 1;
        }
    }
    count + 1
}

/// The field at a place, counted from 1, without the spaces at both its ends. None exactly where there is no such
/// field.
pub fn field(line: &[u8], i: usize) -> Option<&[u8]>
    ensures { MatchOption result ((i ≡ 0) ⊎ (length (fields line.now) < i))
        (λ f. (0 < i) × (i ≤ length (fields line.now)) × (f.now ≡ get_or (fields line.now) (i - 1) [])) }
{
    if i == 0 {
        return None;
    }
    let mut rest = line;
    for _ in 1..i {
        match after_comma(rest) {
            Some(after) => rest = after,
            None => return None,
        }
    }
    Some(first_field(rest))
}

/// What follows the first comma, or None where there is no comma.
fn after_comma(rest: &[u8]) -> Option<&[u8]>
    ensures { MatchOption result (length rest.now ≤ position_or_len (is_byte 44) rest.now)
        (λ a. (position_or_len (is_byte 44) rest.now < length rest.now)
        × (a.now ≡ drop (position_or_len (is_byte 44) rest.now + 1) rest.now)) }
{
    let end = position_of(rest, b',');
    if end == rest.len() {
        return None;
    }
    Some(&rest[end + 1..])
}

/// What stands before the first comma, without the spaces at both ends.
fn first_field(rest: &[u8]) -> &[u8]
    ensures { result.now ≡ trimmed_of (before_first (is_byte 44) rest.now) }
{
    trimmed(&rest[..position_of(rest, b',')])
}

/// The bytes without the spaces at both ends.
pub fn trimmed(bytes: &[u8]) -> &[u8]
    ensures { result.now ≡ trimmed_of bytes.now }
{
    let front = &bytes[spaces_in_front(bytes)..];
    &front[..front.len() - spaces_at_end(front)]
}

/// How many spaces the bytes begin with.
fn spaces_in_front(bytes: &[u8]) -> usize
    ensures count { result ≡ prefix_len (is_byte 32) bytes.now }
    ensures within { result ≤ length bytes.now }
{
    let mut count = 0;
    for each in bytes {
        if *each != b' ' {
            return count;
        }
        count += 1;
    }
    count
}

/// How many spaces the bytes end with.
fn spaces_at_end(bytes: &[u8]) -> usize
    ensures count { result ≡ suffix_len (is_byte 32) bytes.now }
    ensures within { result ≤ length bytes.now }
{
    let mut count = 0;
    while count < bytes.len() && bytes[bytes.len() - 1 - count] == b' ' {
        count += 1;
    }
    count
}
