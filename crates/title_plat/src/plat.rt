//! The parts of a sheet, with the land that is drawn for them.

ghost use Rattle.std.specs.Prelude.{◌≡◌, IfOk, MatchResult, true};
ghost use Rattle.title_plat.specs.{Drawn.{land_drawn, land_of}, Once.{is_sheet, IsRefusal}, Parts.{parts_of}};

use crate::fault::PlatFault;
use crate::frame::{Frame, frame_of};
use crate::once::{are_whole, is_once_on};
use crate::parts::{Part, parts_of};
use crate::row::Row;
use std::alloc::Global;

/// The parts of a sheet, with the land that is drawn for them.
#[derive(Drop)]
pub struct Plat {
    pub parts: Vec<Part>,
    pub frame: Frame,
}

/// The plat of a sheet's rows. `NotASheet` exactly where a cell of the land that is drawn lies in a part of one estate and in
/// none of another, or in two of one, or where the shares of a part aren't a whole; a sheet of no rows is none. Else `Memory`.
pub fn plat_of(alloc: Global, rows: &[Row]) -> Result<Plat, PlatFault>
    ensures parts { IfOk result (λ plat. plat.parts.items ≡ parts_of rows.now) }
    ensures land { IfOk result (λ plat. land_of plat.frame ≡ land_drawn (parts_of rows.now)) }
    ensures sheet { MatchResult result (λ plat. is_sheet rows.now ≡ true) (IsRefusal rows.now) }
{
    let parts = parts_of(alloc, rows)?;
    let frame = frame_of(alloc, parts.as_slice())?;
    if are_whole(rows, parts.as_slice()) && is_once_on(parts.as_slice(), &frame) {
        Ok(Plat { parts, frame })
    } else {
        Err(PlatFault::NotASheet)
    }
}
