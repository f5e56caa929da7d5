//! Land of the public survey as sets of cells: townships, sections, their quarters down to cells, and tracts.
#![tactic(auto)]

pub mod acres;
pub mod cells;
pub mod cover;
pub mod doubled;
pub mod grid;
pub mod laws;
pub mod lists;
pub mod node;
pub mod numbers;
pub mod rectangle;
pub mod sharing;
pub mod survey;
pub mod tract;
pub mod walks;

pub use acres::Acres;
pub use cells::cells_of;
pub use grid::Grid;
pub use lists::{children_of, node_cells};
pub use node::{Node, Within};
pub use numbers::{is_square_number, number_above, section_of_square, township_of_section};
pub use rectangle::{DEPTH, Half, Quarter, Rectangle, SIDE, Step};
pub use survey::{Cell, Section, Township};
pub use tract::{Land, Tract};
