//! A file on a disk.

ghost use Rattle.std.specs.{Prelude.{◌≡◌, ◌≤◌, ◌<◌, ◌^◌, ℕ, List, Bool, false, length, take, IfOk, OnOk}, Result.{is_err}};
ghost use Rattle.title_disk.specs.Crashes.{Holds, Torn, Cut, Follows, Only, Elapses, is_failure};

use crate::fault::{DiskFailed, DiskFault};
use std::alloc::Global;

/// A file that is read whole, written at an offset, cut, and synced. What a crash may leave is any content that
/// the calls since the last sync allow. After a call has failed nothing more is asked of a disk.
pub trait Disk {
    // The bytes that a read returns.
    ghost seen: { Self → List ℕ };

    // What a crash at this moment may leave.
    ghost may_leave: { Self → List ℕ → Type 0 };

    // The moment, as a number that doesn't fall.
    ghost moment: { Self → ℕ };

    // What a crash at some moment from that one on might have left, during a call or between two.
    ghost left_since: { Self → ℕ → List ℕ → Type 0 };

    // Whether a call has failed.
    ghost has_failed: { Self → Bool };

    /// All the bytes. `Memory` where they can't be held; the disk may then be asked again.
    fn read(&mut self, alloc: Global) -> Result<Vec<u8>, DiskFault>
        requires works { has_failed self.old ≡ false }
        ensures bytes { IfOk result (λ bytes. bytes.items ≡ seen self.old) }
        ensures seen { seen self.new ≡ seen self.old }
        ensures crash { (c : List ℕ) → may_leave self.new c → may_leave self.old c }
        ensures time { Elapses (moment self.old) (moment self.new)
            (left_since self.old) (left_since self.new) (may_leave self.new) }
        ensures failed { has_failed self.new ≡ is_failure result };

    /// Writes over what is there, and past the end. Until a sync a crash may leave any bytes in the range.
    fn write_at(&mut self, at: usize, bytes: &[u8]) -> Result<(), DiskFailed>
        requires works { has_failed self.old ≡ false }
        requires within { at ≤ length (seen self.old) }
        ensures written { OnOk result (Holds (seen self.old) at bytes.now (seen self.new)) }
        ensures fits { OnOk result (length (seen self.new) < 2 ^ 63) }
        ensures crash { Follows (Torn at (length bytes.now)) (may_leave self.old) (may_leave self.new) }
        ensures time { Elapses (moment self.old) (moment self.new)
            (left_since self.old) (left_since self.new) (may_leave self.new) }
        ensures failed { has_failed self.new ≡ is_err result };

    /// Cuts the file to a length. Until a sync a crash may leave it longer.
    fn cut(&mut self, len: usize) -> Result<(), DiskFailed>
        requires works { has_failed self.old ≡ false }
        requires within { len ≤ length (seen self.old) }
        ensures cut { OnOk result (seen self.new ≡ take len (seen self.old)) }
        ensures crash { Follows (Cut len) (may_leave self.old) (may_leave self.new) }
        ensures time { Elapses (moment self.old) (moment self.new)
            (left_since self.old) (left_since self.new) (may_leave self.new) }
        ensures failed { has_failed self.new ≡ is_err result };

    /// From its return on, a crash leaves what a read returns.
    fn sync(&mut self) -> Result<(), DiskFailed>
        requires works { has_failed self.old ≡ false }
        ensures durable { OnOk result (Only (seen self.old) (may_leave self.new)) }
        ensures seen { seen self.new ≡ seen self.old }
        ensures crash { (c : List ℕ) → may_leave self.new c → may_leave self.old c }
        ensures time { Elapses (moment self.old) (moment self.new)
            (left_since self.old) (left_since self.new) (may_leave self.new) }
        ensures failed { has_failed self.new ≡ is_err result };

    // This moment is one of those since an earlier one.
    ghost counts_now: { (file : Self) (t : ℕ) (c : List ℕ) → t ≤ moment file → may_leave file c → left_since file t c };

    // Since this moment there is no other.
    ghost only_now: { (file : Self) (c : List ℕ) → left_since file (moment file) c → may_leave file c };
}
