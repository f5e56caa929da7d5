//! The source of a reader and the sink of a writer.

ghost use Rattle.std.specs.Prelude.{◌≡◌, false};

use crate::fault::Failed;
use crate::sink::Sink;
use crate::source::Source;
use std::io::{Read, Write};

/// A source where it wraps a reader, and a sink where it wraps a writer. Any error of these, and a
/// write that takes none of some bytes, is a failed call.
#[derive(Drop)]
pub struct Device<T> {
    inner: T,
    failed: bool,
}

impl<T> Device<T> {
    ghost use Rattle.title_device.specs.Devices.{is_failed, wrapped_by};

    /// A device that wraps this reader or writer, and hasn't failed.
    pub fn new(inner: T) -> Device<T>
        ensures wraps { wrapped_by result ≡ inner }
        ensures works { is_failed result ≡ false }
    {
        Device {
            inner,
            failed: false,
        }
    }

    /// The reader or writer that the device wraps.
    pub fn into_inner(self) -> T
        ensures wrapped { result ≡ wrapped_by self }
    {
        let Device { inner, failed: _ } = self;
        inner
    }
}

impl<T: Read> Source for Device<T> {
    ghost use Rattle.title_device.specs.Devices.{is_failed, wrapped_by};

    ghost left = { λ device. T.remaining (wrapped_by device) };

    ghost has_failed = { is_failed };

    fn pull(&mut self, buf: &mut [u8]) -> Result<usize, Failed> {
        match self.inner.read(buf) {
            Ok(count) => Ok(count),
            Err(_) => {
                self.failed = true;
                Err(Failed)
            }
        }
    }

    fn failed(&self) -> bool {
        self.failed
    }
}

impl<T: Write> Sink for Device<T> {
    ghost use Rattle.title_device.specs.Devices.{is_failed, wrapped_by};

    ghost taken = { λ device. T.contents (wrapped_by device) };

    ghost has_failed = { is_failed };

    fn push(&mut self, buf: &[u8]) -> Result<usize, Failed> {
        match self.inner.write(buf) {
            Ok(count) if count > 0 || buf.is_empty() => Ok(count),
            _ => {
                self.failed = true;
                Err(Failed)
            }
        }
    }

    fn failed(&self) -> bool {
        self.failed
    }
}
