//! Reading descriptions of land, as `T3N R2W sec 5 NE1/4SW1/4`, exactly.
#![tactic(auto)]

pub mod depth_laws;
pub mod describe;
pub mod fault;
pub mod laws;
mod letters;
mod meaning;
mod reader;
mod squares;
mod syntax;

pub use describe::read;
pub use fault::DescFault;
pub use title_land::{
    Acres, Cell, DEPTH, Grid, Half, Land, Node, Quarter, Rectangle, SIDE, Section, Step, Township,
    Tract, Within, cells_of,
};
