// One file in memory.
ghost use Rattle.std.specs.Prelude.{◌≡◌, ◌++◌, ◌+◌, ◌≤◌, [], min, length, vec_len, vec_capacity, take, drop, string_bytes, IfOk, OnOk, OnErr};

use crate::OutOfMemory;
use crate::place::take_front;
use std::alloc::Global;

/// A file in memory: what was put, how far it was read, what was added, and the place for more.
#[derive(Drop)]
pub(crate) struct File {
    pub(crate) name: String,
    contents: Vec<u8>,
    at: usize,
    added: Vec<u8>,
    room: usize,
    ghost within: { at ≤ vec_len contents },
    ghost fits: { vec_len added + room ≤ vec_capacity added },
}

impl File {
    ghost use Rattle.flk_io.specs.Files.{rest, extra, place};

    /// An empty file of this name.
    pub(crate) fn new(alloc: Global, name: &str) -> Result<File, OutOfMemory>
        ensures name { IfOk result (λ f. string_bytes f.name ≡ name.now) }
        ensures rest { IfOk result (λ f. rest f ≡ []) }
        ensures extra { IfOk result (λ f. extra f ≡ []) }
        ensures place { IfOk result (λ f. place f ≡ 0) }
    {
        Ok(File {
            name: String::from_str(alloc, name)?,
            contents: Vec::new(alloc),
            at: 0,
            added: Vec::new(alloc),
            room: 0,
        })
    }

    /// Begins the file anew with these bytes.
    pub(crate) fn set(&mut self, contents: Vec<u8>)
        ensures name { self.new.name ≡ self.old.name }
        ensures rest { rest self.new ≡ contents.items }
        ensures extra { extra self.new ≡ extra self.old }
        ensures place { place self.new ≡ place self.old }
    {
        self.at = 0;
        self.contents = contents;
    }

    /// Makes place for so many more bytes.
    pub(crate) fn make_room(&mut self, bytes: usize) -> Result<(), OutOfMemory>
        ensures name { self.new.name ≡ self.old.name }
        ensures rest { rest self.new ≡ rest self.old }
        ensures extra { extra self.new ≡ extra self.old }
        ensures ok { OnOk result (place self.new ≡ place self.old + bytes) }
        ensures err { OnErr result (place self.new ≡ place self.old) }
    {
        let Some(room) = self.room.checked_add(bytes) else {
            return Err(OutOfMemory);
        };
        self.added.reserve(room)?;
        self.room = room;
        Ok(())
    }

    /// Gives the next bytes that are left, `most` at most.
    pub(crate) fn give(&mut self, most: usize, buf: &mut [u8]) -> usize
        ensures name { self.new.name ≡ self.old.name }
        ensures count { result ≡ min most (min (length buf.old) (length (rest self.old))) }
        ensures gave { rest self.old ≡ take result buf.new ++ rest self.new }
        ensures extra { extra self.new ≡ extra self.old }
        ensures place { place self.new ≡ place self.old }
    {
        let count = most.min(buf.len().min(self.contents.len() - self.at));
        copy_part(&self.contents, self.at, count, buf);
        self.at += count;
        count
    }

    /// Adds a front of the bytes, `most` at most, as far as there is place.
    pub(crate) fn add(&mut self, most: usize, bytes: &[u8]) -> usize
        ensures name { self.new.name ≡ self.old.name }
        ensures rest { rest self.new ≡ rest self.old }
        ensures count { result ≡ min most (min (length bytes.now) (place self.old)) }
        ensures added { extra self.new ≡ extra self.old ++ take result bytes.now }
        ensures place { place self.new + result ≡ place self.old }
    {
        let count = most.min(bytes.len().min(self.room));
        take_front(&mut self.added, &mut self.room, &bytes[..count]);
        count
    }

    /// What was added.
    pub(crate) fn added(&self) -> &[u8]
        ensures { result.now ≡ extra self.now }
    {
        &self.added
    }
}

fn copy_part(contents: &[u8], at: usize, count: usize, buf: &mut [u8])
    requires there { at + count ≤ length contents.now }
    requires room { count ≤ length buf.old }
    ensures { take count buf.new ≡ take count (drop at contents.now) }
{
    buf[..count].copy_from_slice(&contents[at..at + count]);
}
