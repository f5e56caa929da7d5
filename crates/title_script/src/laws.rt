//! Laws of reports. Each function does nothing: its clause is the law, proved.

ghost use Rattle.title_script.specs.ReportLaws.{RowsInOrder};

/// A report has the rows of the first steps, whatever follows them, and then those of the rest.
pub fn rows_stand_in_order()
    ensures law { RowsInOrder }
{}
