// The files that are open, by their paths.
ghost use Rattle.std.specs.Prelude.{◌≡◌, ◌<◌, length, [], map, Contains, IfSome, IfNone, IfOk, OnOk, slice_index_or};
ghost use Rattle.std.specs.Io.{ReadsAtMost, WritesAtMost};
ghost use Rattle.flk_io.specs.OpenFiles.{name_of, names_of, OpensOnce};

use crate::tries::{read_some, write_some};
use std::alloc::Global;
use std::fs::File;
use std::{fs, io};

/// How a file is opened.
#[derive(Clone, Copy)]
enum Opening {
    /// As it stands, to be read from its start.
    ToRead,
    /// Made, or emptied, to be written.
    Empty,
}

/// A file and the path under which it was opened.
#[derive(Drop)]
struct OpenFile {
    name: String,
    file: File,
}

impl OpenFile {
    /// Reads from the file, which is that of `name`.
    fn read(&mut self, name: &str, buf: &mut [u8]) -> io::Result<usize>
        requires named { name_of self.old ≡ name.now }
        ensures bound { ReadsAtMost result buf.new }
        ensures name { self.new.name ≡ self.old.name }
    {
        let _ = name;
        read_some(&mut self.file, buf)
    }

    /// Writes at least one byte to the file, which is that of `name`.
    fn write(&mut self, name: &str, bytes: &[u8]) -> io::Result<usize>
        requires named { name_of self.old ≡ name.now }
        ensures some { IfOk result (λ n. 0 < n) }
        ensures bound { WritesAtMost result bytes.now }
        ensures name { self.new.name ≡ self.old.name }
    {
        let _ = name;
        write_some(&mut self.file, bytes)
    }
}

/// A table of open files. No name stands in it twice.
#[derive(Drop)]
pub(crate) struct OpenFiles {
    alloc: Global,
    files: Vec<OpenFile>,
}

impl OpenFiles {
    pub(crate) fn new(alloc: Global) -> OpenFiles
        ensures { names_of result ≡ [] }
    {
        OpenFiles {
            alloc,
            files: Vec::new(alloc),
        }
    }

    /// Reads from the file of a name, which the first read opens.
    pub(crate) fn read(&mut self, rt: &HostRuntime, name: &str, buf: &mut [u8]) -> io::Result<usize>
        ensures bound { ReadsAtMost result buf.new }
        ensures opened { OnOk result (Contains (names_of self.new) name.now) }
        ensures once { OpensOnce name.now (names_of self.old) (names_of self.new) }
    {
        let i = self.find_or_open(rt, name, Opening::ToRead)?;
        self.files[i].read(name, buf)
    }

    /// Writes at least one byte to the file of a name, which the first call makes empty.
    pub(crate) fn append(&mut self, rt: &HostRuntime, name: &str, bytes: &[u8]) -> io::Result<usize>
        ensures some { IfOk result (λ n. 0 < n) }
        ensures bound { WritesAtMost result bytes.now }
        ensures opened { OnOk result (Contains (names_of self.new) name.now) }
        ensures once { OpensOnce name.now (names_of self.old) (names_of self.new) }
    {
        let i = self.find_or_open(rt, name, Opening::Empty)?;
        self.files[i].write(name, bytes)
    }

    /// Where the file of a name is. The memory for one more file is taken before it is opened: with
    /// none, no bytes are taken from the file, and it isn't made empty twice.
    fn find_or_open(&mut self, rt: &HostRuntime, name: &str, opening: Opening) -> io::Result<usize>
        ensures within { IfOk result (λ i. i < length self.new.files.items) }
        ensures named { IfOk result (λ i. slice_index_or (names_of self.new) i [] ≡ name.now) }
        ensures once { OpensOnce name.now (names_of self.old) (names_of self.new) }
    {
        if let Some(i) = place(&self.files, name) {
            return Ok(i);
        }
        let owned = String::from_str(self.alloc, name)?;
        self.files.reserve(1)?;
        let file = match opening {
            Opening::ToRead => fs::open(rt, name)?,
            Opening::Empty => fs::create(rt, name)?,
        };
        let i = self.files.len();
        self.files.push_reserved(OpenFile { name: owned, file });
        Ok(i)
    }
}

fn place(files: &[OpenFile], name: &str) -> Option<usize>
    ensures within { IfSome result (λ i. i < length files.now) }
    ensures named { IfSome result (λ i. slice_index_or (map name_of files.now) i [] ≡ name.now) }
    ensures none { IfNone result (¬ Contains (map name_of files.now) name.now) }
{
    for (i, open) in files.iter().enumerate() {
        if open.name.as_str() == name {
            return Some(i);
        }
    }
    None
}
