//! Laws between two depths: what a text says where each section is quartered once more. Each function does nothing: its
//! clause is the law, proved, for every depth.

ghost use Rattle.title_aliquot.specs.DepthLaws.{LandDoubles, FaultStays};

/// A text that describes a land describes the doubled land.
pub fn land_doubles()
    ensures law { LandDoubles }
{}

/// A text that has a fault has the same, unless its parts were too small.
pub fn fault_stays()
    ensures law { FaultStays }
{}
