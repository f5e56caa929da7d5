//! Where the lists ask and post.

use crate::wanted::Wanted;
use std::alloc::Global;
use title_aliquot::{DescFault, read};
use title_land::{Township, Tract};

/// A parcel in the plant of T3N R2W, and one outside it.
#[derive(Clone, Copy)]
pub enum Parcel {
    Everything,
    Section,
    NextSection,
    Quarter,
    Corner,
    BesideCorner,
    AroundCorner,
    TwoNodes,
    Undeclared,
}

/// The one township of the plant.
pub fn township() -> Option<Township> {
    Township::new(3, true, 2, false)
}

impl Parcel {
    fn text(self) -> &'static str {
        match self {
            Parcel::Everything => "everything",
            Parcel::Section => "T3N R2W sec 5",
            Parcel::NextSection => "T3N R2W sec 6",
            Parcel::Quarter => "T3N R2W sec 5 NE1/4",
            Parcel::Corner => "T3N R2W sec 5 NE1/4NE1/4NE1/4",
            Parcel::BesideCorner => "T3N R2W sec 5 SE1/4NE1/4NE1/4",
            Parcel::AroundCorner => {
                "T3N R2W sec 5 NW1/4NE1/4NE1/4, SW1/4NE1/4NE1/4, SE1/4NE1/4NE1/4"
            }
            Parcel::TwoNodes => "T3N R2W sec 5 SE1/4, NW1/4NE1/4",
            Parcel::Undeclared => "T4N R2W sec 5",
        }
    }

    /// Its tract, read again where a growth was refused.
    pub fn tract(self, alloc: Global, wanted: &mut Wanted) -> Result<Tract, DescFault> {
        match read(alloc, self.text()) {
            Err(DescFault::Memory) => {
                wanted.count();
                read(alloc, self.text())
            }
            answer => answer,
        }
    }
}
