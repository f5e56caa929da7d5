//! What a plant's file has.

/// The offset in bytes of the gate behind the last block that counts.
#[derive(Clone, Copy, Debug, PartialEq, Eq)]
pub struct Gate {
    pub offset: usize,
}

/// What lies behind the last block that counts.
#[derive(Clone, Copy, Debug, PartialEq, Eq)]
pub enum Tail {
    /// A closed gate alone: the file is at rest.
    Closed,
    /// Bytes that don't count, or none: as many as this.
    Torn(usize),
}

/// The blocks that stand in a plant's file, in order, each as its rows; the gate behind them, and what lies from there on.
#[derive(Drop)]
pub struct Blocks {
    pub texts: Vec<Vec<u8>>,
    pub gate: Gate,
    pub tail: Tail,
}
