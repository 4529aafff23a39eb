// Files by name, read a part at a time. What is read of a file are its bytes up to where it ended when it was opened: one
// that grows meanwhile is read as if it had not, and of one that has become shorter it is said.
#![tactic(auto)]

ghost use Rattle.std.specs.Prelude.{◌≡◌, ◌≢◌, length, IfSome};
ghost use Rattle.std.specs.IoError.{error_kind};
ghost use Rattle.files.specs.declared.Failure.TheVariants.{Shorter, Unreadable};
ghost use Rattle.std.specs.declared.io.ErrorKind.TheVariants.{UnexpectedEof};
ghost use Rattle.files.specs.Parts.{IsReadable, PartRead};

use std::io::{ErrorKind, Seek, SeekFrom};
use std::os::unix::fs::FileExt;
use std::rt::Files;
use std::str::from_utf8;
use std::{fs, io};

// No file is longer: the last offset.
const LONGEST: usize = 0x7fff_ffff_ffff_ffff;

// An open file, and its number of bytes when it was opened.
#[derive(Drop)]
pub struct File {
    pub handle: fs::File,
    pub bytes: usize,
}

// A part of a file that was read: so many bytes, and whether the file ends behind them.
#[derive(Clone, Copy, PartialEq, Eq, Debug)]
pub struct Part {
    pub count: usize,
    pub last: bool,
}

// Why a part of a file is not there.
#[derive(Clone, Copy, PartialEq, Eq, Debug)]
pub enum Failure {
    Unreadable,
    // The file has become shorter.
    Shorter,
}

impl From<io::Error> for Failure {
    ghost from_gives = { λ e failure. (error_kind e ≡ UnexpectedEof → failure ≡ Shorter) × (error_kind e ≢ UnexpectedEof → failure ≡ Unreadable) };

    fn from(e: io::Error) -> Failure {
        match e.kind() {
            ErrorKind::UnexpectedEof => Failure::Shorter,
            _ => Failure::Unreadable,
        }
    }
}

// The file of that name. There may be none, or one that may not be read, or that cannot be read a part at a time, as a pipe.
// Or the name is no text.
pub fn open<R: Files<File = fs::File>>(files: &R, name: &[u8]) -> Option<File>
    ensures { IfSome result IsReadable }
{
    let path = from_utf8(name).ok()?;
    let mut handle = fs::File::open(files, path).ok()?;
    let bytes = handle.seek(SeekFrom::End(0)).ok()? as usize;
    (bytes <= LONGEST).then_some(File { handle, bytes })
}

// The bytes of the file from an offset on, at the front of those lent: as many as fit, or all that there are.
pub fn read_part(file: &File, from: usize, bytes: &mut [u8]) -> Result<Part, Failure>
    ensures { PartRead file.now from (length bytes.old) result }
{
    // `open` gives no longer one, but a `File` that kept this as a fact would ask more of whoever makes one.
    if LONGEST < file.bytes {
        return Err(Failure::Unreadable);
    }
    let left = file.bytes.saturating_sub(from);
    let room = bytes.len();
    let count = left.min(room);
    file.handle.read_exact_at(&mut bytes[..count], from as u64)?;
    Ok(Part {
        count,
        last: left <= room,
    })
}
