//! Laws of what stands in a plant's file. Each function does nothing: its clause is the law, proved.

ghost use Rattle.title_standing.specs.StandingLaws.{CommittedAreServed, KeptAreSerial, ReplayedAreCommitted, SerialAreServed};

/// The law of what is kept: where reads and refused posts are left out of serial records, the records stay serial, the plant
/// stays as it was, and so does each tract's chain.
pub fn kept_records_are_serial()
    ensures law { KeptAreSerial }
{}

/// The law of replays: calls that serve records commit these records, in their order, and leave nobody open.
pub fn replayed_records_are_committed()
    ensures law { ReplayedAreCommitted }
{}

/// The law of another day: where there may be the most parties, the calls that serve serial records are due, if no record has
/// more steps than a transaction may have; and those that serve what is kept of committed records always are.
pub fn kept_records_are_served_again()
    ensures serial { SerialAreServed }
    ensures committed { CommittedAreServed }
{}
