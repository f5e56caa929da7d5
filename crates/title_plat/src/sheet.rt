//! The sheets of a report.

ghost use Rattle.std.specs.Prelude.{◌≡◌, slice_range};
ghost use Rattle.title_plat.specs.Sheets.{sheet_in};

use crate::row::{Row, rows_between};

/// Which sheet of a report is wanted.
#[derive(Clone, Copy, Debug, PartialEq, Eq)]
pub enum Wanted {
    /// The sheet with this number, from 1.
    Number(u64),
    Last,
}

/// Where the rows of a sheet stand among those of all sheets of a report: from `first` to before `end`.
#[derive(Clone, Copy, Debug, PartialEq, Eq)]
pub struct Extent {
    pub first: usize,
    pub end: usize,
}

/// The sheet that is wanted, of sheets in their order; `None` where there are too few.
pub fn sheet_in(sheets: &[Extent], wanted: Wanted) -> Option<Extent>
    ensures sheet { result ≡ sheet_in sheets.now wanted }
{
    match wanted {
        Wanted::Last => sheets.last().copied(),
        Wanted::Number(0) => None,
        Wanted::Number(number) => sheets.get((number - 1) as usize).copied(),
    }
}

/// A sheet of a report, with its number among the report's sheets, from 1, and how many they are. The rows are those of all sheets.
#[derive(Drop)]
pub struct Sheet {
    pub number: u64,
    pub sheets: u64,
    pub rows: Vec<Row>,
    pub extent: Extent,
}

impl Sheet {
    /// The rows of the sheet, as far as there are any.
    pub fn rows(&self) -> &[Row]
        ensures rows { result.now ≡ slice_range self.now.rows.items self.now.extent.first self.now.extent.end }
    {
        rows_between(self.rows.as_slice(), self.extent.first, self.extent.end)
    }
}
