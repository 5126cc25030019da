// Files in memory, by their names.
ghost use Rattle.std.specs.Prelude.{◌≡◌, ◌++◌, ◌+◌, ◌<◌, min, length, take, IfSome, IfNone, IfOk, OnOk, OnErr};
ghost use Rattle.flk_io.specs.Causes.{OthersStay, AllStay};
ghost use Rattle.flk_io.specs.Files.{left_of, added_of, room_of, IsFirst, NoFile};

use crate::OutOfMemory;
use crate::memory_file::File;
use std::alloc::Global;

/// The first file of a name.
pub(crate) fn find(files: &[File], name: &str) -> Option<usize>
    ensures found { IfSome result (IsFirst files.now name.now) }
    ensures within { IfSome result (λ i. i < length files.now) }
    ensures none { IfNone result (NoFile files.now name.now) }
{
    for (i, file) in files.iter().enumerate() {
        if file.name.as_str() == name {
            return Some(i);
        }
    }
    None
}

/// Gives the next bytes under a name, `most` at most.
pub(crate) fn read_from(files: &mut [File], name: &str, most: usize, buf: &mut [u8]) -> usize
    ensures count { result ≡ min most (min (length buf.old) (length (left_of files.old name.now))) }
    ensures gave { left_of files.old name.now ≡ take result buf.new ++ left_of files.new name.now }
    ensures others { OthersStay name.now (left_of files.old) (left_of files.new) }
    ensures added { AllStay (added_of files.old) (added_of files.new) }
    ensures room { AllStay (room_of files.old) (room_of files.new) }
{
    match find(files, name) {
        None => 0,
        Some(i) => files[i].give(most, buf),
    }
}

/// Adds a front of the bytes under a name, `most` at most, as far as there is place.
pub(crate) fn append_to(files: &mut [File], name: &str, most: usize, bytes: &[u8]) -> usize
    ensures count { result ≡ min most (min (length bytes.now) (room_of files.old name.now)) }
    ensures added { added_of files.new name.now ≡ added_of files.old name.now ++ take result bytes.now }
    ensures room { room_of files.new name.now + result ≡ room_of files.old name.now }
    ensures others { OthersStay name.now (added_of files.old) (added_of files.new) }
    ensures other_rooms { OthersStay name.now (room_of files.old) (room_of files.new) }
    ensures left { AllStay (left_of files.old) (left_of files.new) }
{
    match find(files, name) {
        None => 0,
        Some(i) => files[i].add(most, bytes),
    }
}

/// What was added under a name.
pub(crate) fn added_to<'a>(files: &'a [File], name: &str) -> &'a [u8]
    ensures { result.now ≡ added_of files.now name.now }
{
    match find(files, name) {
        None => &[],
        Some(i) => files[i].added(),
    }
}

/// Where the first file of a name is; it is made, empty, where there is none.
fn find_or_make(files: &mut Vec<File>, alloc: Global, name: &str) -> Result<usize, OutOfMemory>
    ensures found { IfOk result (IsFirst files.new.items name.now) }
    ensures within { IfOk result (λ i. i < length files.new.items) }
    ensures left { AllStay (left_of files.old.items) (left_of files.new.items) }
    ensures added { AllStay (added_of files.old.items) (added_of files.new.items) }
    ensures room { AllStay (room_of files.old.items) (room_of files.new.items) }
{
    if let Some(i) = find(files, name) {
        return Ok(i);
    }
    let i = files.len();
    files.push(File::new(alloc, name)?)?;
    Ok(i)
}

fn set_at(files: &mut [File], name: &str, i: usize, contents: Vec<u8>)
    requires there { i < length files.old }
    requires first { IsFirst files.old name.now i }
    ensures put { left_of files.new name.now ≡ contents.items }
    ensures others { OthersStay name.now (left_of files.old) (left_of files.new) }
    ensures added { AllStay (added_of files.old) (added_of files.new) }
    ensures room { AllStay (room_of files.old) (room_of files.new) }
{
    let _ = name;
    files[i].set(contents);
}

fn make_room_at(files: &mut [File], name: &str, i: usize, bytes: usize) -> Result<(), OutOfMemory>
    requires there { i < length files.old }
    requires first { IsFirst files.old name.now i }
    ensures ok { OnOk result (room_of files.new name.now ≡ room_of files.old name.now + bytes) }
    ensures err { OnErr result (AllStay (room_of files.old) (room_of files.new)) }
    ensures others { OthersStay name.now (room_of files.old) (room_of files.new) }
    ensures left { AllStay (left_of files.old) (left_of files.new) }
    ensures added { AllStay (added_of files.old) (added_of files.new) }
{
    let _ = name;
    files[i].make_room(bytes)
}

/// Sets what is left to read under a name.
pub(crate) fn put_to(
    files: &mut Vec<File>,
    alloc: Global,
    name: &str,
    bytes: &[u8],
) -> Result<(), OutOfMemory>
    ensures put { OnOk result (left_of files.new.items name.now ≡ bytes.now) }
    ensures others { OthersStay name.now (left_of files.old.items) (left_of files.new.items) }
    ensures kept { OnErr result (AllStay (left_of files.old.items) (left_of files.new.items)) }
    ensures added { AllStay (added_of files.old.items) (added_of files.new.items) }
    ensures room { AllStay (room_of files.old.items) (room_of files.new.items) }
{
    let contents = Vec::from_slice(alloc, bytes)?;
    let i = find_or_make(files, alloc, name)?;
    set_at(files, name, i, contents);
    Ok(())
}

/// Makes place for so many more bytes under a name.
pub(crate) fn make_room_in(
    files: &mut Vec<File>,
    alloc: Global,
    name: &str,
    bytes: usize,
) -> Result<(), OutOfMemory>
    ensures ok { OnOk result (room_of files.new.items name.now ≡ room_of files.old.items name.now + bytes) }
    ensures others { OthersStay name.now (room_of files.old.items) (room_of files.new.items) }
    ensures kept { OnErr result (AllStay (room_of files.old.items) (room_of files.new.items)) }
    ensures left { AllStay (left_of files.old.items) (left_of files.new.items) }
    ensures added { AllStay (added_of files.old.items) (added_of files.new.items) }
{
    let i = find_or_make(files, alloc, name)?;
    make_room_at(files, name, i, bytes)
}
