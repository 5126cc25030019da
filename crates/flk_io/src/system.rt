// The files and the standard output of the system, of whose content nothing is told.
ghost use Rattle.std.specs.Prelude.{◌≡◌, ◌<◌, [], None, length, Contains, Ok, IfOk, OnOk, OnErr, IsErr};
ghost use Rattle.flk_io.specs.Causes.{one_more, HasCause, Takes, Adds};
ghost use Rattle.flk_io.specs.OpenFiles.{OpensOnce};
ghost use Rattle.flk_io.specs.Told.{OnlyReads, OnlyAppends};

use crate::open_files::OpenFiles;
use crate::tries::write_some;
use crate::{Failed, Shelf, Sink};
use std::alloc::Global;
use std::io;

// The answer of the system, which is told of an error only that the call failed, and counts it.
fn counted(answer: io::Result<usize>, faults: &mut u64) -> Result<usize, Failed>
    ensures ok { IfOk answer (λ n. result ≡ Ok n) }
    ensures err { OnErr answer (IsErr result) }
    ensures cause { HasCause faults.old faults.new result }
    ensures counted { OnErr result (faults.new ≡ one_more faults.old) }
{
    match answer {
        Ok(count) => Ok(count),
        Err(_) => {
            *faults = faults.saturating_add(1);
            Err(Failed)
        }
    }
}

/// Files by their paths. The first read of a name opens its file, and the first append makes it
/// empty. A file that can't be opened, an error of the system, and want of memory for a name are
/// each a failed call.
#[derive(Drop)]
pub struct FileShelf<'a> {
    rt: &'a HostRuntime,
    reading: OpenFiles,
    adding: OpenFiles,
    read_faults: u64,
    append_faults: u64,
}

impl<'a> FileShelf<'a> {
    ghost use Rattle.flk_io.specs.System.{file_read_faults, file_append_faults, opened_to_read, opened_to_add};

    /// No file is open yet.
    pub fn new(rt: &'a HostRuntime, alloc: Global) -> FileShelf<'a>
        ensures read_faults { file_read_faults result ≡ 0 }
        ensures append_faults { file_append_faults result ≡ 0 }
        ensures opened_to_read { opened_to_read result ≡ [] }
        ensures opened_to_add { opened_to_add result ≡ [] }
    {
        FileShelf {
            rt,
            reading: OpenFiles::new(alloc),
            adding: OpenFiles::new(alloc),
            read_faults: 0,
            append_faults: 0,
        }
    }
}

impl<'a> Shelf for FileShelf<'a> {
    ghost use Rattle.flk_io.specs.System.{file_read_faults, file_append_faults, opened_to_read, opened_to_add, shelf_told};

    ghost told = { shelf_told };

    fn read(&mut self, name: &str, buf: &mut [u8]) -> Result<usize, Failed>
        requires { 0 < length buf.old }
        ensures takes { Takes None None result buf.new }
        ensures only_reads { OnlyReads (shelf_told self.old) (shelf_told self.new) }
        ensures cause { HasCause (file_read_faults self.old) (file_read_faults self.new) result }
        ensures counted { OnErr result (file_read_faults self.new ≡ one_more (file_read_faults self.old)) }
        ensures opened { OnOk result (Contains (opened_to_read self.new) name.now) }
        ensures once { OpensOnce name.now (opened_to_read self.old) (opened_to_read self.new) }
        ensures not_to_add { opened_to_add self.new ≡ opened_to_add self.old }
    {
        counted(self.reading.read(self.rt, name, buf), &mut self.read_faults)
    }

    fn append(&mut self, name: &str, bytes: &[u8]) -> Result<usize, Failed>
        requires { 0 < length bytes.now }
        ensures adds { Adds None None result bytes.now }
        ensures only_appends { OnlyAppends (shelf_told self.old) (shelf_told self.new) }
        ensures cause { HasCause (file_append_faults self.old) (file_append_faults self.new) result }
        ensures counted { OnErr result (file_append_faults self.new ≡ one_more (file_append_faults self.old)) }
        ensures opened { OnOk result (Contains (opened_to_add self.new) name.now) }
        ensures once { OpensOnce name.now (opened_to_add self.old) (opened_to_add self.new) }
        ensures not_to_read { opened_to_read self.new ≡ opened_to_read self.old }
    {
        counted(
            self.adding.append(self.rt, name, bytes),
            &mut self.append_faults,
        )
    }
}

/// Standard output.
#[derive(Drop)]
pub struct StdSink<'a> {
    rt: &'a HostRuntime,
    faults: u64,
}

impl<'a> StdSink<'a> {
    ghost use Rattle.flk_io.specs.System.{output_faults};

    /// Nothing is written yet.
    pub fn new(rt: &'a HostRuntime) -> StdSink<'a>
        ensures { output_faults result ≡ 0 }
    {
        StdSink { rt, faults: 0 }
    }
}

impl<'a> Sink for StdSink<'a> {
    ghost use Rattle.flk_io.specs.System.{output_faults, output_told};

    ghost told = { output_told };

    fn write(&mut self, bytes: &[u8]) -> Result<usize, Failed>
        requires { 0 < length bytes.now }
        ensures adds { Adds None None result bytes.now }
        ensures cause { HasCause (output_faults self.old) (output_faults self.new) result }
        ensures counted { OnErr result (output_faults self.new ≡ one_more (output_faults self.old)) }
    {
        counted(
            write_some(&mut io::writer(self.rt), bytes),
            &mut self.faults,
        )
    }
}
