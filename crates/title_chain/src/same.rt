//! Whether two steps, or two records, are one.

ghost use Rattle.std.specs.Prelude.{◌≡◌, ◌↔◌, true};

use crate::ask::{Answer, Ask, Entry, Posting, Step, Terms};
use crate::record::Record;
use crate::same_parts::{Same, same_estate, same_lists, same_rule, same_tract};
use crate::same_sheets::same_sheets;

impl Terms {
    fn same(&self, other: &Terms) -> bool
        ensures same { (result ≡ true) ↔ (self.now ≡ other.now) }
    {
        self.doc == other.doc
            && same_tract(&self.tract, &other.tract)
            && self.instrument.is(&other.instrument)
    }
}

impl Posting {
    fn same(&self, other: &Posting) -> bool
        ensures same { (result ≡ true) ↔ (self.now ≡ other.now) }
    {
        self.terms().same(other.terms())
    }
}

impl Ask {
    fn same(&self, other: &Ask) -> bool
        ensures same { (result ≡ true) ↔ (self.now ≡ other.now) }
    {
        match (self, other) {
            (Ask::Sheet(a), Ask::Sheet(b)) => same_tract(a, b),
            (Ask::Chain(a), Ask::Chain(b)) => same_tract(a, b),
            (Ask::Post(a), Ask::Post(b)) => a.same(b),
            _ => false,
        }
    }
}

impl Same for Entry {
    fn is_one(&self, other: &Entry) -> bool {
        self.place == other.place && self.posting.same(&other.posting)
    }
}

impl Answer {
    fn same(&self, other: &Answer) -> bool
        ensures same { (result ≡ true) ↔ (self.now ≡ other.now) }
    {
        match (self, other) {
            (Answer::Rows(a), Answer::Rows(b)) => same_sheets(a, b),
            (Answer::Entries(a), Answer::Entries(b)) => same_lists(a.as_slice(), b.as_slice()),
            (Answer::Posted, Answer::Posted) => true,
            (Answer::Refused(rule, estate, node), Answer::Refused(other, part, other_node)) => {
                same_rule(*rule, *other) && same_estate(*estate, *part) && node.is(other_node)
            }
            _ => false,
        }
    }
}

impl Step {
    /// Whether both are the same ask with the same answer.
    pub fn same(&self, other: &Step) -> bool
        ensures same { (result ≡ true) ↔ (self.now ≡ other.now) }
    {
        self.ask.same(&other.ask) && self.answer.same(&other.answer)
    }
}

impl Same for Step {
    fn is_one(&self, other: &Step) -> bool {
        self.same(other)
    }
}

/// Whether two lists have the same steps, in order.
pub fn same_steps(a: &[Step], b: &[Step]) -> bool
    ensures same { (result ≡ true) ↔ (a.now ≡ b.now) }
{
    same_lists(a, b)
}

impl Record {
    /// Whether both are of the same examiner, with the same steps in order.
    pub fn same(&self, other: &Record) -> bool
        ensures same { (result ≡ true) ↔ (self.now ≡ other.now) }
    {
        self.examiner == other.examiner && same_steps(self.steps.as_slice(), other.steps.as_slice())
    }
}
