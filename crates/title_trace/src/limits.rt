//! The limits of a plant and of a transaction.

/// The most parties of a plant, party 0 among them.
pub const MOST_PARTIES: u32 = 65_536;

/// The most townships of a plant.
pub const MOST_TOWNSHIPS: usize = 64;

/// The most steps of a transaction.
pub const MOST_STEPS: usize = 10_000;
