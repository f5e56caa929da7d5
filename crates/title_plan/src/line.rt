//! The steps of a script.

use title_aliquot::DescFault;
use title_chain::Ask;
use title_trace::Request;

/// How the transactions of a script come: their steps interleaved; one transaction after another; or, in an office of so
/// many examiners, numbered from 1, the rows of each as a script of its own.
#[derive(Clone, Copy, Debug, PartialEq, Eq)]
pub enum Schedule {
    Interleaved,
    Serial,
    Office(u32),
}

/// A step row: it asks something as it stands, or an examiner's ask is a transaction of its own, or its examiner gave a
/// description that is none. Of an office's steps each asks something as it stands.
#[derive(Debug, Drop)]
pub enum Line {
    Asks(Request),
    Alone(u32, Ask),
    Described(u32, DescFault),
}
