//! How many scripts were tried, and what came of them.

use crate::program::Came;
use std::fmt;

/// How many scripts were tried, how many gave a report or a fault of each number, and how many differ from the second reading.
#[derive(Clone, Copy, Default)]
pub struct Tally {
    tried: u32,
    reports: u32,
    rows: u32,
    parties: u32,
    orders: u32,
    others: u32,
    differ: u32,
}

fn one_more(count: &mut u32) {
    *count = count.saturating_add(1);
}

impl Tally {
    fn count_kind(&mut self, came: &Came) {
        if came.is_report() {
            return one_more(&mut self.reports);
        }
        match came.fault() {
            31 => one_more(&mut self.rows),
            34 => one_more(&mut self.parties),
            35 => one_more(&mut self.orders),
            _ => one_more(&mut self.others),
        }
    }

    /// Counts what came of a script.
    pub fn count(&mut self, came: &Came, is_same: bool) {
        one_more(&mut self.tried);
        self.count_kind(came);
        if !is_same {
            one_more(&mut self.differ);
        }
    }

    /// Whether all so far are as the second reading has them.
    pub fn is_clean(self) -> bool {
        self.differ == 0
    }
}

impl fmt::Display for Tally {
    fn fmt<W: fmt::Write>(&self, f: &mut fmt::Formatter<W>) -> fmt::Result {
        let (tried, reports, rows) = (self.tried, self.reports, self.rows);
        let (parties, orders) = (self.parties, self.orders);
        let (others, differ) = (self.others, self.differ);
        write!(f, "{tried} tried, {reports} reports, {rows} fault 31, ")?;
        write!(f, "{parties} fault 34, {orders} fault 35, ")?;
        write!(f, "{others} other faults, {differ} differ")
    }
}
