//! The values of one channel.

ghost use Rattle.std.specs.Prelude.{◌≡◌, ◌<◌, length, set, slice_index_or, IfOk};
ghost use Rattle.flk_dat.specs.Blocks.{HavePlaces, HavePlace, ChangesPlace, row_in};

use std::alloc::{AllocError, Global};
use std::marker::Model;

/// Values one behind another, of one channel in each record. Contracts see a column as the list of its values.
#[derive(Drop)]
pub struct Column<T> {
    values: Vec<T>,
}

impl<T> Model for Column<T> {
    ghost use Rattle.std.specs.Prelude.{List};

    ghost Value = { List T };

    ghost view = { λ c. c.values.items };
}

impl<T: Copy> Column<T> {
    /// So many times the value.
    pub fn new(alloc: Global, places: usize, value: T) -> Result<Column<T>, AllocError>
        ensures { IfOk result (λ c. length c ≡ places) }
    {
        Ok(Column {
            values: vec![in alloc; value; places]?,
        })
    }

    /// The values.
    pub fn as_slice(&self) -> &[T]
        ensures { result.now ≡ self.now }
    {
        &self.values
    }

    /// The value at a place.
    pub fn get(&self, place: usize) -> T
        requires { place < length self.now }
        ensures { (none : T) → result ≡ slice_index_or self.now place none }
    {
        self.values[place]
    }

    /// Puts a value at a place.
    #[inline(always)]
    pub fn put(&mut self, place: usize, value: T)
        requires { place < length self.old }
        ensures { self.new ≡ set self.old place value }
    {
        self.values[place] = value;
    }
}

/// So many columns of so many places, which all have the value.
pub fn columns_of<T: Copy + Drop>(
    alloc: Global,
    count: usize,
    places: usize,
    value: T,
) -> Result<Vec<Column<T>>, AllocError>
    ensures count { IfOk result (λ columns. length columns.items ≡ count) }
    ensures places { IfOk result (λ columns. HavePlaces places columns.items) }
{
    let mut columns = Vec::with_capacity(alloc, count)?;
    for _ in 0..count {
        columns.push(Column::new(alloc, places, value)?)?;
    }
    Ok(columns)
}

/// Puts a row of values, one for each column, at a place.
pub fn put_row<T: Copy>(columns: &mut Vec<Column<T>>, place: usize, values: &[T])
    requires same { length values.now ≡ length columns.old.items }
    requires places { HavePlace place columns.old.items }
    ensures changed { (none : T) → ChangesPlace place none columns.old.items columns.new.items }
    ensures row { (none : T) → row_in place none columns.new.items ≡ values.now }
{
    for column in 0..values.len() {
        columns[column].put(place, values[column]);
    }
}
