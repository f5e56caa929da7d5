//! What is cut off a torn file is kept in one beside.

ghost use Rattle.std.specs.Prelude.{◌≡◌};
ghost use Rattle.title_file.specs.Openings.{kept_calls};

use crate::record::{Note, Record};
use std::alloc::Global;
use std::fs::{self, File, Metadata, OpenOptions};
use std::io::{self, ErrorKind};
use std::os::fd::AsRawFd;
use std::os::unix::fs::{FileExt, MetadataExt, OpenOptionsExt};
use std::path::PathBuf;

/// Keeps the bytes that will be cut off a file, where there are any, and answers whether they are kept. An opening goes on where they
/// aren't, since they don't count.
pub(crate) fn keep_tail(
    rt: &HostRuntime,
    alloc: Global,
    path: &str,
    found: &Metadata,
    tail: &[u8],
    record: &mut Record,
) -> bool
    ensures kept { record.new.calls ≡ kept_calls tail.now result record.old.calls }
{
    if tail.is_empty() {
        return false;
    }
    let is_kept = keep(rt, alloc, path, found, tail).is_ok();
    *record = record.then(&Note::Kept(tail, is_kept));
    is_kept
}

// Puts bytes behind those of the file whose name is this path's and `.cut`, so that none that stood there is lost; where it ends with
// them already, as an opening that was broken off leaves it, nothing is put. They are on the disk then. The file is made where there
// is none, for those who may read the plant's.
fn keep(
    rt: &HostRuntime,
    alloc: Global,
    path: &str,
    found: &Metadata,
    bytes: &[u8],
) -> io::Result<()> {
    let name = format!(in alloc; "{path}.cut")?;
    // A file that is open for reading too doesn't block at its opening, whatever it is.
    let file = OpenOptions::new()
        .read(true)
        .write(true)
        .create(true)
        .mode(found.mode() & 0o666)
        .open(rt, name.as_str())?;
    let file = lock(file)?;
    let there = file.metadata()?;
    if !there.is_file() {
        return Err(ErrorKind::Unsupported.into());
    }
    if !ends_with(alloc, &file, there.len(), bytes)? {
        put_behind(&file, there.len(), bytes)?;
    }
    file.sync_all()?;
    sync_folder(rt, fs::canonicalize(rt, name.as_str())?)
}

/// Locks a file.
pub(crate) fn lock(file: File) -> io::Result<File> {
    let file = above_streams(file)?;
    file.try_lock()?;
    Ok(file)
}

/// A file whose descriptor is above those of the standard streams: what is meant for one that was closed must not land in it.
pub(crate) fn above_streams(file: File) -> io::Result<File> {
    if file.as_raw_fd() <= 2 {
        return file.try_clone();
    }
    Ok(file)
}

// Whether a file of this length ends with these bytes.
fn ends_with(alloc: Global, file: &File, len: u64, bytes: &[u8]) -> io::Result<bool> {
    let Some(start) = len.checked_sub(bytes.len() as u64) else {
        return Ok(false);
    };
    let mut there = vec![in alloc; 0u8; bytes.len()]?;
    file.read_exact_at(&mut there, start)?;
    Ok(there.as_slice() == bytes)
}

// Puts bytes behind those of a file of this length, or leaves it as it was.
fn put_behind(file: &File, len: u64, bytes: &[u8]) -> io::Result<()> {
    let put = file.write_all_at(bytes, len);
    if put.is_err() {
        let _ = file.set_len(len);
    }
    put
}

/// Brings the name of a file onto the disk, which is at this path.
pub(crate) fn sync_folder(rt: &HostRuntime, mut path: PathBuf) -> io::Result<()> {
    path.pop();
    File::open(rt, path.as_str())?.sync_all()
}
