//! Sheets of a report as pictures: who owns which share of an estate, part by part, drawn as a plat in SVG.
#![tactic(auto)]

mod acres;
mod canvas;
mod escape;
mod fault;
mod frame;
mod label;
pub mod laws;
mod legend;
mod once;
mod owners;
mod paint;
mod parts;
mod picture;
mod plat;
mod positions;
mod report;
mod row;
mod section;
mod sheet;
mod squares;
mod table;
mod township;
mod width;

pub use acres::{NetAcres, net_units, ten_thousandths};
pub use escape::escaped;
pub use fault::PlatFault;
pub use frame::Frame;
pub use parts::{Part, owners_of, parts_of};
pub use picture::{draw, draw_sheet};
pub use plat::{Plat, plat_of};
pub use positions::{Position, position_of};
pub use report::read_sheet;
pub use row::{ESTATES, Row};
pub use sheet::{Extent, Sheet, Wanted, sheet_in};
pub use squares::square_in;
