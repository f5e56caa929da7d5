//! Gates.

use std::sync::Wait;

/// What a worker does before and after each of its calls to the office: of its examiner, the calls numbered from 0, those tried
/// again too. A number that has reached 2^64 - 1 stays.
pub trait Gate {
    fn before<R: Wait>(&self, rt: &R, examiner: u32, call: u64);

    fn after<R: Wait>(&self, rt: &R, examiner: u32, call: u64);
}

/// Holds nobody up.
#[derive(Clone, Copy, Debug)]
pub struct OpenGate;

impl Gate for OpenGate {
    fn before<R: Wait>(&self, _rt: &R, _examiner: u32, _call: u64) {}

    fn after<R: Wait>(&self, _rt: &R, _examiner: u32, _call: u64) {}
}
