//! The line of a fault.

ghost use Rattle.std.specs.{Prelude.{◌≡◌, IfOk, Some}, String.{string_bytes}};
ghost use Rattle.title_program.specs.Faults.{number_of_denial, number_of_worker};

use std::alloc::{AllocError, Global};
use std::fmt;
use title_aliquot::DescFault;
use title_counter::CounterFault;
use title_day::OfficeFault;
use title_disk::OpenFault;
use title_lasting::{LastingFault, TellFault};
use title_office::{Fault as WorkerFault, Unsettled};
use title_script::RunFault;
use title_trace::Denial;

/// A fault as its line tells it: its number, and the row of a script, the byte of a text, the examiner or the place of a record
/// where it stands.
#[derive(Clone, Copy, Debug, PartialEq, Eq)]
pub struct Fault {
    pub number: u32,
    pub detail: Option<u64>,
}

impl Fault {
    ghost use Rattle.title_program.specs.Faults.{fault_line, memory};

    /// Memory ran out.
    pub fn memory() -> Fault
        ensures memory { result ≡ memory }
    {
        Fault {
            number: 6,
            detail: None,
        }
    }

    /// The line that tells it, with its end.
    pub fn line(self, alloc: Global) -> Result<String, AllocError>
        ensures line { IfOk result (λ line. string_bytes line ≡ fault_line self) }
    {
        format!(in alloc; "{self}\n")
    }
}

impl fmt::Display for Fault {
    ghost use Rattle.title_program.specs.Faults.{fault_text};

    ghost output = { λ f. Some (fault_text f) };

    fn fmt<W: fmt::Write>(&self, f: &mut fmt::Formatter<W>) -> fmt::Result {
        let number = self.number;
        match self.detail {
            None => write!(f, "fault,{number}"),
            Some(detail) => write!(f, "fault,{number},{detail}"),
        }
    }
}

impl From<DescFault> for Fault {
    ghost use Rattle.title_program.specs.Faults.{of_description};

    ghost from_gives = { λ fault told. told ≡ of_description fault };

    fn from(fault: DescFault) -> Fault {
        let detail = match fault {
            DescFault::BadText(byte) => Some(byte as u64),
            _ => None,
        };
        Fault {
            number: u32::from(fault.number()),
            detail,
        }
    }
}

impl From<RunFault> for Fault {
    ghost use Rattle.title_program.specs.Faults.{of_run};

    ghost from_gives = { λ fault told. told ≡ of_run fault };

    fn from(fault: RunFault) -> Fault {
        let (number, detail) = match fault {
            RunFault::Row(row) => (31, Some(row)),
            RunFault::Read => (32, None),
            RunFault::Write => (33, None),
            RunFault::Party(row) => (34, Some(row)),
            RunFault::Order(row) => (35, Some(row)),
            RunFault::Memory => (6, None),
        };
        Fault { number, detail }
    }
}

impl From<CounterFault> for Fault {
    ghost use Rattle.title_program.specs.Faults.{of_desk};

    ghost from_gives = { λ fault told. told ≡ of_desk fault };

    fn from(fault: CounterFault) -> Fault {
        let number = match fault {
            CounterFault::Read => 32,
            CounterFault::Write => 33,
            CounterFault::Memory => 6,
        };
        Fault {
            number,
            detail: None,
        }
    }
}

impl From<OpenFault> for Fault {
    ghost use Rattle.title_program.specs.Faults.{of_open};

    ghost from_gives = { λ fault told. told ≡ of_open fault };

    fn from(fault: OpenFault) -> Fault {
        let number = match fault {
            OpenFault::Unopened => 36,
            OpenFault::InUse => 37,
            OpenFault::Memory => 6,
        };
        Fault {
            number,
            detail: None,
        }
    }
}

impl From<LastingFault> for Fault {
    ghost use Rattle.title_program.specs.Faults.{of_lasting};

    ghost from_gives = { λ fault told. told ≡ of_lasting fault };

    fn from(fault: LastingFault) -> Fault {
        let (number, detail) = match fault {
            LastingFault::Row(row) => (31, Some(row)),
            LastingFault::Read => (32, None),
            LastingFault::Write => (33, None),
            LastingFault::Party(row) => (34, Some(row)),
            LastingFault::Order(row) => (35, Some(row)),
            LastingFault::NotAPlant(row) => (38, Some(row as u64)),
            LastingFault::Disk => (39, None),
            LastingFault::Unsure => (40, None),
            LastingFault::Joins(place) => (46, Some(place)),
            LastingFault::After(last) => (47, Some(last)),
            LastingFault::Memory => (6, None),
        };
        Fault { number, detail }
    }
}

impl From<TellFault> for Fault {
    ghost use Rattle.title_program.specs.Faults.{of_telling};

    ghost from_gives = { λ fault told. told ≡ of_telling fault };

    fn from(fault: TellFault) -> Fault {
        let (number, detail) = match fault {
            TellFault::Write => (33, None),
            TellFault::Disk => (36, None),
            TellFault::NotAPlant(row) => (38, Some(row as u64)),
            TellFault::NoScript(row) => (48, Some(row)),
            TellFault::Memory => (6, None),
        };
        Fault { number, detail }
    }
}

// The number of a call's refusal.
fn number_of_denial(why: Denial) -> u32
    ensures number { result ≡ number_of_denial why }
{
    match why {
        Denial::NotOpen => 1,
        Denial::AlreadyOpen => 2,
        Denial::Invalid(_) => 3,
        Denial::Conflict(_) => 4,
        Denial::TooLong => 5,
        Denial::NoSuchTownship => 26,
    }
}

// The number of a worker's fault.
fn number_of_worker(fault: WorkerFault) -> u32
    ensures number { result ≡ number_of_worker fault }
{
    match fault {
        WorkerFault::Denied(why) => number_of_denial(why),
        WorkerFault::Memory => 6,
        WorkerFault::Stranger => 7,
        WorkerFault::NoThread => 9,
    }
}

impl From<WorkerFault> for Fault {
    ghost use Rattle.title_program.specs.Faults.{of_worker};

    ghost from_gives = { λ fault told. told ≡ of_worker fault };

    fn from(fault: WorkerFault) -> Fault {
        Fault {
            number: number_of_worker(fault),
            detail: None,
        }
    }
}

impl From<Unsettled> for Fault {
    ghost use Rattle.title_program.specs.Faults.{of_unsettled};

    ghost from_gives = { λ fault told. told ≡ of_unsettled fault };

    fn from(fault: Unsettled) -> Fault {
        let (number, detail) = match fault {
            Unsettled::Open(examiner) => (41, Some(u64::from(examiner))),
            Unsettled::Unknown(place) => (42, Some(place)),
            Unsettled::Missing(place) => (43, Some(place)),
            Unsettled::Doubled(place) => (44, Some(place)),
            Unsettled::Different(place) => (45, Some(place)),
            Unsettled::Memory => (6, None),
        };
        Fault { number, detail }
    }
}

impl From<OfficeFault> for Fault {
    ghost use Rattle.title_program.specs.Faults.{of_office};

    ghost from_gives = { λ fault told. told ≡ of_office fault };

    fn from(fault: OfficeFault) -> Fault {
        match fault {
            OfficeFault::Run(why) => Fault::from(why),
            OfficeFault::Worker(why) => Fault::from(why),
            OfficeFault::Unsettled(why) => Fault::from(why),
        }
    }
}
