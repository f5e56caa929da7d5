//! How many hold a node in each mode, in a worked case.

use title_land::{Node, Quarter, Section, Township, Tract, Within};
use title_lock::{Access, Guards, LockFault, NodeLocks};

/// How many examiners have each mode, IS, IX, S, SIX and X, at the nodes of the case.
#[derive(Clone, Copy)]
pub struct Counts {
    pub plant: [u64; 5],
    pub section: [u64; 5],
    pub quarter: [u64; 5],
    pub corner: [u64; 5],
    pub beside: [u64; 5],
}

/// The nodes of the case: a quarter section, the square in its corner and the one beside that.
#[derive(Clone, Copy)]
pub struct Case {
    section: Node,
    quarter: Node,
    corner: Node,
    beside: Node,
}

// A square of section 5 of T3N R2W; all of the plant where there is none.
fn square(quarters: &[Quarter]) -> Node {
    let within = Within::named(quarters);
    match (Township::new(3, true, 2, false), within) {
        (Some(township), Some(within)) => match Section::new(township, 5) {
            Some(section) => Node::Part(section, within),
            None => Node::Everything,
        },
        _ => Node::Everything,
    }
}

impl Case {
    /// Section 5, its NE1/4, the NE1/4NE1/4NE1/4 and the SE1/4NE1/4NE1/4.
    pub fn new() -> Case {
        let (northeast, southeast) = (Quarter::Northeast, Quarter::Southeast);
        Case {
            section: square(&[]),
            quarter: square(&[northeast]),
            corner: square(&[northeast, northeast, northeast]),
            beside: square(&[southeast, northeast, northeast]),
        }
    }

    /// Examiner 1 reads the quarter and posts in its corner; examiner 2 reads beside the corner.
    pub fn ask(&self, locks: &mut NodeLocks) -> Result<(), LockFault> {
        locks.ask(1, &Tract::of(self.quarter), Access::Read)?;
        locks.ask(1, &Tract::of(self.corner), Access::Post)?;
        locks.ask(2, &Tract::of(self.beside), Access::Read)
    }

    /// The counts at its nodes.
    pub fn counts(&self, locks: &NodeLocks) -> Counts {
        Counts {
            plant: locks.counts(&Node::Everything),
            section: locks.counts(&self.section),
            quarter: locks.counts(&self.quarter),
            corner: locks.counts(&self.corner),
            beside: locks.counts(&self.beside),
        }
    }
}
