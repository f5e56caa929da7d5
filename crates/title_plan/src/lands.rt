//! What a text says of land.

ghost use Rattle.std.specs.Prelude.{◌≡◌, IfOk};
ghost use Rattle.title_plan.specs.Lands.{land_in, said_township};

use std::alloc::{AllocError, Global};
use title_aliquot::{DescFault, read};
use title_land::{Land, Township, Tract};

/// The tract that a text describes, or the text's fault. `Err` is Memory.
pub fn read_tract(alloc: Global, text: &str) -> Result<Result<Tract, DescFault>, AllocError>
    ensures said { IfOk result (λ said. said ≡ land_in text.now) }
{
    let why = match read(alloc, text) {
        Ok(tract) => return Ok(Ok(tract)),
        Err(why) => why,
    };
    match why {
        DescFault::Memory => Err(AllocError),
        _ => Ok(Err(why)),
    }
}

/// The whole township that a text says, where it says one.
pub fn said_township(said: Result<Tract, DescFault>) -> Option<Township>
    ensures township { result ≡ said_township said }
{
    match said {
        Ok(tract) => match tract.land() {
            Land::Township(township) => Some(township),
            _ => None,
        },
        Err(_) => None,
    }
}
