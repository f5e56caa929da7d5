//! How many command lines gave what is stored.

use std::fmt;
use std::process::ExitCode;

/// How many command lines gave what is stored, and how many didn't.
#[derive(Clone, Copy, Default)]
pub struct Tally {
    passed: u32,
    failed: u32,
}

impl Tally {
    /// Counts a command line.
    pub fn count(&mut self, is_same: bool) {
        if is_same {
            self.passed = self.passed.saturating_add(1);
        } else {
            self.failed = self.failed.saturating_add(1);
        }
    }

    /// 1 where one didn't give what is stored.
    pub fn exit_code(self) -> ExitCode {
        ExitCode::from(u8::from(self.failed > 0))
    }
}

impl fmt::Display for Tally {
    fn fmt<W: fmt::Write>(&self, f: &mut fmt::Formatter<W>) -> fmt::Result {
        let (passed, failed) = (self.passed, self.failed);
        write!(f, "{passed} passed, {failed} failed")
    }
}
