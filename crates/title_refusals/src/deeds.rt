//! Deeds of the surface by party 0.

use crate::parcels::Parcel;
use crate::wanted::Wanted;
use anyhow::{Result, bail};
use std::alloc::Global;
use title_chain::{Ask, Posting, Terms};
use title_instrument::{Deed, Estates, Instrument, Quantum};
use title_share::Share;

/// All of an estate in a cell, in units.
pub const WHOLE: u64 = 4_294_967_296;

/// Half of an estate in a cell, in units.
pub const HALF: u64 = 2_147_483_648;

/// A deed of party 0 to another party: its number, and how many units of the surface pass where.
#[derive(Clone, Copy)]
pub struct Sale {
    pub doc: u64,
    pub grantee: u32,
    pub units: u64,
    pub parcel: Parcel,
}

/// What an examiner asks for in a transaction.
#[derive(Clone, Copy)]
pub enum Wish {
    Sheet(Parcel),
    Chain(Parcel),
    Post(Sale),
}

impl Sale {
    fn instrument(self, share: Share) -> Instrument {
        let estates = Estates {
            s: true,
            o: false,
            m: false,
        };
        Instrument::Deed(Deed {
            grantor: 0,
            grantee: self.grantee,
            estates,
            warranty: false,
            quantum: Quantum::Whole(share),
            reserve: [None, None, None],
        })
    }

    /// The deed as it is posted.
    pub fn posting(self, alloc: Global, wanted: &mut Wanted) -> Result<Posting> {
        let Some(share) = Share::new(self.units) else {
            bail!("a deed passes some units, and not more than all");
        };
        let tract = self.parcel.tract(alloc, wanted)?;
        let (doc, instrument) = (self.doc, self.instrument(share));
        Ok(wanted.again(|| {
            let tract = tract.copy(alloc)?;
            let terms = Terms {
                doc,
                tract,
                instrument,
            };
            Posting::new(alloc, terms)
        })?)
    }
}

impl Wish {
    /// The ask for it.
    pub fn ask(self, alloc: Global, wanted: &mut Wanted) -> Result<Ask> {
        Ok(match self {
            Wish::Sheet(parcel) => Ask::Sheet(parcel.tract(alloc, wanted)?),
            Wish::Chain(parcel) => Ask::Chain(parcel.tract(alloc, wanted)?),
            Wish::Post(sale) => Ask::Post(sale.posting(alloc, wanted)?),
        })
    }
}
