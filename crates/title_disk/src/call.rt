//! What a disk was asked.

/// A call of a disk.
#[derive(Drop)]
pub enum DiskCall {
    /// The file was read.
    Read,
    /// These bytes were written at this offset.
    Write(usize, Vec<u8>),
    /// The file was cut to this length.
    Cut(usize),
    /// The file was synced.
    Sync,
}

/// A call, and the bytes that a read returned before it.
#[derive(Drop)]
pub struct KeptCall {
    pub call: DiskCall,
    pub before: Vec<u8>,
}
