//! Plans: what the rows of a script declare and ask for, or the first fault among them.
#![tactic(auto)]

pub mod declaring;
pub mod fault;
pub mod fields;
pub mod lands;
pub mod laws;
pub mod line;
pub mod numbers;
pub mod onto;
pub mod plan;
pub mod readings;
pub mod requests;
pub mod row;
pub mod script;
pub mod terms;

pub use declaring::{FIRST_PARTY, add_party, add_township, is_full, is_refused};
pub use fault::ScriptFault;
pub use fields::{DOCUMENTS, EXAMINERS, NAME_LIMIT};
pub use lands::{read_tract, said_township};
pub use line::{Line, Schedule};
pub use numbers::numbered;
pub use onto::Declared;
pub use plan::{Plan, ROWS};
pub use readings::Readings;
pub use requests::request_of;
pub use row::{Act, Row, read_row};
pub use script::{read_script, read_script_onto};
