//! Single changes of a file, each on the disk before it is answered.

ghost use Rattle.std.specs.{Prelude.{◌≡◌, ◌≤◌, ◌<◌, ◌^◌, false, length, take, OnOk}, Result.{is_err}};
ghost use Rattle.title_disk.specs.Crashes.{Holds, Torn, Cut, Only, LeavesOnly};

use title_disk::{Disk, DiskFailed};

/// Writes bytes at an offset. A crash meanwhile may leave any bytes in their range.
pub fn write_through<D: Disk>(disk: &mut D, at: usize, bytes: &[u8]) -> Result<(), DiskFailed>
    requires works { D.has_failed disk.old ≡ false }
    requires within { at ≤ length (D.seen disk.old) }
    requires durable { Only (D.seen disk.old) (D.may_leave disk.old) }
    ensures written { OnOk result (Holds (D.seen disk.old) at bytes.now (D.seen disk.new)) }
    ensures fits { OnOk result (length (D.seen disk.new) < 2 ^ 63) }
    ensures durable { OnOk result (Only (D.seen disk.new) (D.may_leave disk.new)) }
    ensures any_moment { LeavesOnly D.moment D.left_since disk.old disk.new (Torn at (length bytes.now) (D.seen disk.old)) }
    ensures failed { D.has_failed disk.new ≡ is_err result }
{
    disk.write_at(at, bytes)?;
    disk.sync()
}

/// Cuts the file to a length. A crash meanwhile may leave it longer.
pub fn cut_through<D: Disk>(disk: &mut D, len: usize) -> Result<(), DiskFailed>
    requires works { D.has_failed disk.old ≡ false }
    requires within { len ≤ length (D.seen disk.old) }
    requires durable { Only (D.seen disk.old) (D.may_leave disk.old) }
    ensures cut { OnOk result (D.seen disk.new ≡ take len (D.seen disk.old)) }
    ensures durable { OnOk result (Only (D.seen disk.new) (D.may_leave disk.new)) }
    ensures any_moment { LeavesOnly D.moment D.left_since disk.old disk.new (Cut len (D.seen disk.old)) }
    ensures failed { D.has_failed disk.new ≡ is_err result }
{
    disk.cut(len)?;
    disk.sync()
}
