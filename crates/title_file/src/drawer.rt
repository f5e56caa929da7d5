//! Where plants' files lie: the file system.

ghost use Rattle.std.specs.{Prelude.{◌≡◌, ◌∷◌, ◌≤◌, ◌<◌, ◌-◌, ◌^◌, false, length, take, drop, true, IfOk, OnOk}, IoError.{error_kind}};
ghost use Rattle.title_disk.specs.Crashes.{Only};
ghost use Rattle.title_disk.specs.declared.cabinet.OpenFault.TheVariants as fault;
ghost use Rattle.title_file.specs.Files.{calls_of, file_name, file_seen, file_may_leave, file_has_failed};
ghost use Rattle.title_file.specs.Files.{hold_of, shared_has_failed, shared_name};
ghost use Rattle.title_file.specs.Holds.{keeps_writers_off};
ghost use Rattle.title_file.specs.Openings.{IsOpening, IsSecured, again_calls, gate_calls, loose_of, tail_calls};

use crate::gates::{Gates, find_gates};
use crate::holding::{Held, Hold};
use crate::keeping::{keep_tail, lock, sync_folder};
use crate::plant_file::PlantFile;
use crate::record::{Note, Record};
use crate::shared_file::SharedFile;
use std::alloc::Global;
use std::fs::{self, File, Metadata, OpenOptions};
use std::hash::{BuildHasher, RandomState};
use std::io::{self, ErrorKind, Read};
use std::os::unix::fs::{FileExt, MetadataExt};
use std::path::PathBuf;
use title_disk::{Cabinet, OpenFault};

/// The file system as a cabinet. A file that isn't there is made where it is to be written; one handle has it open for writing, or else
/// any number of them share it.
#[derive(Drop)]
pub struct Drawer {
    rt: HostRuntime,
    fresh: &'static [u8],
    has_kept: bool,
    record: Record,
}

impl Drawer {
    ghost use Rattle.title_file.specs.{Calls.{names_of}, Files.{asked_of, keeps_of}};

    /// A drawer whose new files are these bytes: their first row, and a closed gate.
    pub fn new(rt: &HostRuntime, fresh: &'static [u8]) -> Drawer {
        Drawer {
            rt: *rt,
            fresh,
            has_kept: false,
            record: Record::new(),
        }
    }

    // The calls of before, and that the file of this name is asked for.
    fn asked_for(&self, path: &str) -> Record
        ensures asked { names_of result.calls ≡ path.now ∷ asked_of self.now }
    {
        self.record.then(&Note::Asked(path))
    }

    /// Whether the file that was opened last had bytes behind its blocks that don't count, and they were put into a file beside.
    pub fn has_kept(&self) -> bool
        ensures kept { result ≡ keeps_of self.now }
    {
        self.has_kept
    }
}

impl Cabinet for Drawer {
    ghost use Rattle.title_file.specs.Files.{asked_of, first_row_of, keeps_of};

    type File = PlantFile;

    type Shared = SharedFile;

    ghost asked = { asked_of };

    ghost name = { file_name };

    ghost shared_name = { shared_name };

    // What the system shows of a name, and what it refuses, isn't known here.
    ghost shows = { λ path bytes. Unit {0} };

    ghost refuses = { λ path why. Unit {0} };

    /// Before anything of a file is written again, what lies behind its blocks is put behind the bytes of the file whose name has
    /// `.cut` more, but for a closed gate alone. Where that fails, the file is opened all the same.
    fn open(&mut self, alloc: Global, path: &str) -> Result<PlantFile, OpenFault>
        ensures asked { asked_of self.new ≡ path.now ∷ asked_of self.old }
        ensures named { IfOk result (λ file. file_name file ≡ path.now) }
        ensures durable { IfOk result (λ file. Only (file_seen file) (file_may_leave file)) }
        ensures works { IfOk result (λ file. file_has_failed file ≡ false) }
        ensures kept { IfOk result (λ file. IsOpening path.now (first_row_of self.old) (keeps_of self.new) (calls_of file)) }
    {
        self.record = self.asked_for(path);
        match open(&self.rt, alloc, path, self.fresh) {
            Ok(opened) => {
                self.has_kept = opened.is_kept;
                Ok(opened.file)
            }
            Err(error) => {
                self.has_kept = false;
                Err(fault_of(&error))
            }
        }
    }

    /// What is read is on the disk, but for what a sync that failed has left in doubt: only `open` writes that again.
    fn share(&mut self, alloc: Global, path: &str) -> Result<SharedFile, OpenFault>
        ensures asked { asked_of self.new ≡ path.now ∷ asked_of self.old }
        ensures named { IfOk result (λ file. shared_name file ≡ path.now) }
        ensures works { IfOk result (λ file. shared_has_failed file ≡ false) }
        ensures held { IfOk result (λ file. keeps_writers_off (hold_of file) ≡ true) }
    {
        self.record = self.asked_for(path);
        match share(&self.rt, alloc, path) {
            Ok(file) => Ok(file),
            Err(error) => Err(fault_of(&error)),
        }
    }

    /// Takes no lock and changes nothing.
    fn look(&mut self, alloc: Global, path: &str) -> Result<Vec<u8>, OpenFault> {
        self.record = self.asked_for(path);
        match look(&self.rt, alloc, path) {
            Ok(bytes) => Ok(bytes),
            Err(error) => Err(fault_of(&error)),
        }
    }
}

// A file that is open, and whether what lies behind its blocks is kept.
#[derive(Drop)]
struct Opened {
    file: PlantFile,
    is_kept: bool,
}

// The calls on a file that may be opened, and whether what lies behind its blocks is kept.
#[derive(Drop)]
struct Secured {
    record: Record,
    is_kept: bool,
}

// Only a lock that another holds answers `WouldBlock`.
fn fault_of(error: &io::Error) -> OpenFault
    ensures memory { error_kind error.now ≡ ErrorKind.OutOfMemory → result ≡ fault.Memory }
    ensures in_use { error_kind error.now ≡ ErrorKind.WouldBlock → result ≡ fault.InUse }
{
    match error.kind() {
        ErrorKind::OutOfMemory => OpenFault::Memory,
        ErrorKind::WouldBlock => OpenFault::InUse,
        _ => OpenFault::Unopened,
    }
}

fn open(rt: &HostRuntime, alloc: Global, path: &str, fresh: &[u8]) -> io::Result<Opened>
    ensures named { IfOk result (λ opened. file_name opened.file ≡ path.now) }
    ensures durable { IfOk result (λ opened. Only (file_seen opened.file) (file_may_leave opened.file)) }
    ensures works { IfOk result (λ opened. file_has_failed opened.file ≡ false) }
    ensures kept { IfOk result
        (λ opened. IsOpening path.now (take (length fresh.now - 1) fresh.now) opened.is_kept (calls_of opened.file)) }
{
    let file = match take(rt, path) {
        Err(error) if error.kind() == ErrorKind::NotFound => make(rt, alloc, path, fresh)?,
        found => found?,
    };
    settle(rt, alloc, path, file, head_of(fresh))
}

// Opens and locks the file of this name. What is no regular file stays shut, since opening it might block.
fn take(rt: &HostRuntime, path: &str) -> io::Result<File> {
    if !fs::metadata(rt, path)?.is_file() {
        return Err(ErrorKind::Unsupported.into());
    }
    lock(OpenOptions::new().read(true).write(true).open(rt, path)?)
}

// Makes and locks a file of this name. It has the name once its bytes are on the disk, and until then one with digits behind it. Of
// two makers one loses, and opens what the other has made.
fn make(rt: &HostRuntime, alloc: Global, path: &str, fresh: &[u8]) -> io::Result<File> {
    let digits = RandomState::new(rt)?.hash_one(&0u8);
    let other = format!(in alloc; "{path}.{digits}")?;
    let file = OpenOptions::new()
        .read(true)
        .write(true)
        .create_new(true)
        .open(rt, other.as_str())?;
    let named = fill_and_name(rt, file, fresh, other.as_str(), path);
    let _ = fs::remove_file(rt, other.as_str());
    match named {
        Err(error) if error.kind() == ErrorKind::AlreadyExists => take(rt, path),
        found => found,
    }
}

// A new file that has a name is locked, gets these bytes, and then its other name.
fn fill_and_name(
    rt: &HostRuntime,
    file: File,
    bytes: &[u8],
    name: &str,
    path: &str,
) -> io::Result<File> {
    let file = lock(file)?;
    file.write_all_at(bytes, 0)?;
    file.sync_all()?;
    fs::hard_link(rt, name, path)?;
    Ok(file)
}

// The first row of new files, with its line feed.
fn head_of(fresh: &[u8]) -> &[u8]
    ensures { result.now ≡ take (length fresh.now - 1) fresh.now }
{
    &fresh[..fresh.len().saturating_sub(1)]
}

// Sees that the name still means this file, reads it, and brings it onto the disk as it was read, once its tail is kept.
fn settle(
    rt: &HostRuntime,
    alloc: Global,
    path: &str,
    mut file: File,
    head: &[u8],
) -> io::Result<Opened>
    ensures named { IfOk result (λ opened. file_name opened.file ≡ path.now) }
    ensures durable { IfOk result (λ opened. Only (file_seen opened.file) (file_may_leave opened.file)) }
    ensures works { IfOk result (λ opened. file_has_failed opened.file ≡ false) }
    ensures kept { IfOk result (λ opened. IsOpening path.now head.now opened.is_kept (calls_of opened.file)) }
{
    let canonical = canonical_path(rt, path, &file)?;
    let found = file.metadata()?;
    let bytes = read_all(alloc, &mut file)?;
    let Secured { record, is_kept } = secure(rt, alloc, path, &file, &found, head, &bytes)?;
    file.sync_all()?;
    sync_folder(rt, canonical)?;
    let record = record.then(&Note::Synced(true));
    Ok(Opened {
        file: PlantFile::opened(file, path, bytes, &record),
        is_kept,
    })
}

// Where a file lies that is a regular one, and that its name still means.
fn canonical_path(rt: &HostRuntime, path: &str, file: &File) -> io::Result<PathBuf> {
    let canonical = fs::canonicalize(rt, path)?;
    let (found, named) = (
        file.metadata()?,
        fs::symlink_metadata(rt, canonical.as_str())?,
    );
    if !found.is_file() || found.dev() != named.dev() || found.ino() != named.ino() {
        return Err(ErrorKind::Unsupported.into());
    }
    Ok(canonical)
}

// Keeps what will be cut off, and then writes again what may be other on the disk. What is no plant isn't written to.
fn secure(
    rt: &HostRuntime,
    alloc: Global,
    path: &str,
    file: &File,
    found: &Metadata,
    head: &[u8],
    bytes: &[u8],
) -> io::Result<Secured>
    requires fits { length bytes.now < 2 ^ 63 }
    ensures secured { IfOk result (λ secured. IsSecured head.now bytes.now secured.is_kept secured.record.calls) }
{
    let mut record = Record::new();
    let Some(gates) = find_gates(head, bytes) else {
        return Ok(Secured {
            record,
            is_kept: false,
        });
    };
    let is_kept = keep_tail(rt, alloc, path, found, loose(gates, bytes), &mut record);
    write_again(file, gates, bytes, &mut record)?;
    Ok(Secured { record, is_kept })
}

// What lies behind the blocks, but for a closed gate alone, which a file at rest has there.
fn loose(gates: Gates, bytes: &[u8]) -> &[u8]
    requires within { gates.end ≤ length bytes.now }
    ensures loose { result.now ≡ loose_of (drop gates.end bytes.now) }
{
    let tail = &bytes[gates.end..];
    if tail == b"-".as_slice() { &[] } else { tail }
}

// Writes again, as it was read, what a sync that failed may have left other on the disk than the system shows it: the gate that was
// opened last, and what lies behind the blocks, or else the length.
fn write_again(file: &File, gates: Gates, bytes: &[u8], record: &mut Record) -> io::Result<()>
    requires within { gates.end ≤ length bytes.now }
    ensures again { OnOk result (record.new.calls ≡ again_calls gates bytes.now record.old.calls) }
{
    gate_again(file, gates.opened, record)?;
    tail_again(file, gates.end, &bytes[gates.end..], record)
}

fn gate_again(file: &File, opened: Option<usize>, record: &mut Record) -> io::Result<()>
    ensures again { OnOk result (record.new.calls ≡ gate_calls opened record.old.calls) }
{
    if let Some(offset) = opened {
        file.write_all_at(b"+", offset as u64)?;
        *record = record.then(&Note::Written(offset, b"+", true));
    }
    Ok(())
}

fn tail_again(file: &File, end: usize, tail: &[u8], record: &mut Record) -> io::Result<()>
    ensures again { OnOk result (record.new.calls ≡ tail_calls end tail.now record.old.calls) }
{
    if tail.is_empty() {
        file.set_len(end as u64)?;
        *record = record.then(&Note::Cut(end, true));
    } else {
        file.write_all_at(tail, end as u64)?;
        *record = record.then(&Note::Written(end, tail, true));
    }
    Ok(())
}

// Room for the whole file is taken at once, so that it doesn't grow on the way; its end is found in the byte behind.
fn read_all(alloc: Global, file: &mut File) -> io::Result<Vec<u8>> {
    let len = file.metadata()?.len() as usize;
    let mut bytes = Vec::with_capacity(alloc, len.saturating_add(1))?;
    file.read_to_end(&mut bytes)?;
    Ok(bytes)
}

// Opens a file for reading. What is no regular file stays shut, since opening it might block.
fn open_to_read(rt: &HostRuntime, path: &str, hold: Hold) -> io::Result<Held>
    ensures hold { IfOk result (λ held. held.hold ≡ hold) }
{
    if !fs::metadata(rt, path)?.is_file() {
        return Err(ErrorKind::Unsupported.into());
    }
    Held::new(File::open(rt, path)?, hold)
}

// Shares a file, and reads it once it is on the disk.
fn share(rt: &HostRuntime, alloc: Global, path: &str) -> io::Result<SharedFile>
    ensures named { IfOk result (λ file. shared_name file ≡ path.now) }
    ensures works { IfOk result (λ file. shared_has_failed file ≡ false) }
{
    let mut held = open_to_read(rt, path, Hold::Shared)?;
    let canonical = canonical_path(rt, path, &held.file)?;
    held.file.sync_all()?;
    sync_folder(rt, canonical)?;
    let bytes = read_all(alloc, &mut held.file)?;
    Ok(SharedFile::new(held, path, bytes))
}

fn look(rt: &HostRuntime, alloc: Global, path: &str) -> io::Result<Vec<u8>> {
    let mut held = open_to_read(rt, path, Hold::Loose)?;
    read_all(alloc, &mut held.file)
}
