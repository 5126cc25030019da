//! The values of a document at a job's keys.

ghost use Rattle.std.specs.Prelude.{◌≡◌, ◌≢◌, ◌↔◌, ◌≤◌, pos, Some, IfOk, IfErr, IfSome, IfNone, IsTrue, option_map};
ghost use Rattle.toml.specs.Data.{integer, string, get_member};
ghost use Rattle.toml.specs.View.{view, table_view};
ghost use Rattle.flk_num.specs.declared.lamp.Lamp.{Lamp as LampView};
ghost use Rattle.flk_job.specs.Table.{key_number, key_name, value_of, lamp_name, IsDmax};
ghost use Rattle.flk_job.specs.Reading.{NoLamp, NoInteger, NoIntegerFrom, NoDmax};

use crate::key::Key;
use crate::kind::{Fault, Kind};
use flk_num::Lamp;
use toml::{Table, Value};

/// The fault of a key.
pub fn fault(key: Key, kind: Kind) -> Fault
    ensures key { result.key ≡ key_number key }
    ensures kind { result.kind ≡ kind }
{
    let key = key.number();
    Fault { key, kind }
}

/// The value that the document itself has at a key.
pub fn value_at<'a>(table: &'a Table, key: Key) -> Option<&'a Value>
    ensures { option_map (λ v. view v.now) result ≡ get_member (key_name key) (table_view table.now) }
{
    table.get(key.name())
}

// The lamp of a name.
fn lamp_of(name: &str) -> Option<Lamp>
    ensures some { IfSome result (λ lamp. name.now ≡ lamp_name lamp) }
    ensures none { IfNone result ((lamp : LampView) → name.now ≢ lamp_name lamp) }
{
    match name {
        "230/50" => Some(Lamp::L230),
        "120/60" => Some(Lamp::L120),
        _ => None,
    }
}

/// The lamp at a key that has no default.
pub fn lamp_in(table: &Table, key: Key) -> Result<Lamp, Fault>
    ensures value { IfOk result
        (λ lamp. get_member (key_name key) (table_view table.now) ≡ Some (string (lamp_name lamp))) }
    ensures key { IfErr result (λ f. f.key ≡ key_number key) }
    ensures fault { IfErr result (λ f. NoLamp (get_member (key_name key) (table_view table.now)) f.kind) }
{
    let Some(value) = value_at(table, key) else {
        return Err(fault(key, Kind::Absent));
    };
    let Some(name) = value.as_str() else {
        return Err(fault(key, Kind::OtherType));
    };
    match lamp_of(name) {
        Some(lamp) => Ok(lamp),
        None => Err(fault(key, Kind::Range)),
    }
}

// The integer at a key, or its default.
fn any_integer(table: &Table, key: Key) -> Result<i64, Fault>
    ensures value { IfOk result (λ z. value_of (table_view table.now) key ≡ Some (integer z)) }
    ensures key { IfErr result (λ f. f.key ≡ key_number key) }
    ensures fault { IfErr result (λ f. NoInteger (value_of (table_view table.now) key) f.kind) }
{
    let Some(value) = value_at(table, key) else {
        return match key.default_integer() {
            Some(n) => Ok(n),
            None => Err(fault(key, Kind::Absent)),
        };
    };
    match value.as_integer() {
        Some(n) => Ok(n),
        None => Err(fault(key, Kind::OtherType)),
    }
}

/// The integer at a key, or its default, from the least to the most.
pub fn integer_in(table: &Table, key: Key, least: u32, most: u32) -> Result<u32, Fault>
    ensures value { IfOk result (λ n. value_of (table_view table.now) key ≡ Some (integer (pos n))) }
    ensures least { IfOk result (λ n. least ≤ n) }
    ensures most { IfOk result (λ n. n ≤ most) }
    ensures key { IfErr result (λ f. f.key ≡ key_number key) }
    ensures fault { IfErr result (λ f. NoIntegerFrom least most (value_of (table_view table.now) key) f.kind) }
{
    match u32::try_from(any_integer(table, key)?) {
        Ok(n) if least <= n && n <= most => Ok(n),
        _ => Err(fault(key, Kind::Range)),
    }
}

fn is_dmax(percent: u32) -> bool
    ensures { IsTrue result ↔ IsDmax percent }
{
    percent == 4 || percent == 6 || percent == 7
}

/// The limit of dmax at a key, in percent.
pub fn dmax_in(table: &Table, key: Key) -> Result<u8, Fault>
    ensures value { IfOk result (λ n. value_of (table_view table.now) key ≡ Some (integer (pos n))) }
    ensures set { IfOk result IsDmax }
    ensures key { IfErr result (λ f. f.key ≡ key_number key) }
    ensures fault { IfErr result (λ f. NoDmax (value_of (table_view table.now) key) f.kind) }
{
    let percent = integer_in(table, key, 4, 7)?;
    if !is_dmax(percent) {
        return Err(fault(key, Kind::Range));
    }
    Ok(percent as u8)
}
