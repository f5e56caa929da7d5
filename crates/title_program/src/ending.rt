//! How a command ends.

ghost use Rattle.std.specs.Prelude.{◌≡◌, None};
ghost use Rattle.title_program.specs.declared.status.Status.TheVariants as status;

use crate::status::Status;
use title_aliquot::DescFault;
use title_counter::CounterFault;
use title_day::OfficeFault;
use title_disk::OpenFault;
use title_kept_office::KeptOfficeFault;
use title_lasting::{LastingFault, TellFault};
use title_script::{RunFault, Schedule};

/// Why a command failed: a script by its schedule, an office's script by the number of its examiners, rows at a desk, a description, a
/// plant's file that isn't opened, a script on top of one by its schedule, rows at a desk on top of one, an office's script on top of one
/// by the number of its examiners, a script or rows that look at one, what stands in one, or want of memory.
#[derive(Clone, Copy, Debug)]
pub enum Why {
    Run(Schedule, RunFault),
    Office(u32, OfficeFault),
    Desk(CounterFault),
    Description(DescFault),
    Unopened(OpenFault),
    Kept(Schedule, LastingFault),
    KeptDesk(LastingFault),
    KeptOffice(u32, KeptOfficeFault),
    Look(LastingFault),
    LookDesk(LastingFault),
    Untold(TellFault),
    Memory,
}

/// The status of the program after a command, and why this failed, if it did; and how many bytes at the end of a plant's file didn't
/// count and were cut off.
#[derive(Clone, Copy, Debug)]
pub struct Ending {
    pub status: Status,
    pub why: Option<Why>,
    pub cut: usize,
}

impl Ending {
    /// The end of a command that didn't fail.
    pub fn success() -> Ending
        ensures status { result.status ≡ status.Success }
        ensures why { result.why ≡ None }
        ensures uncut { result.cut ≡ 0 }
    {
        Ending {
            status: Status::Success,
            why: None,
            cut: 0,
        }
    }

    /// The end of a command with this status, which failed for this reason, if for any.
    pub fn told(status: Status, why: Option<Why>) -> Ending
        ensures status { result.status ≡ status }
        ensures why { result.why ≡ why }
        ensures uncut { result.cut ≡ 0 }
    {
        Ending {
            status,
            why,
            cut: 0,
        }
    }

    /// Whether a script counts of which not all of the report was written.
    pub fn counts_untold(self) -> bool {
        match self.why {
            Some(Why::Kept(_, LastingFault::Write)) => true,
            Some(Why::KeptOffice(_, KeptOfficeFault::Kept(LastingFault::Write))) => true,
            _ => false,
        }
    }
}
