//! The tables of stored command lines.

use crate::judge::{judge_advice, judge_cut, judge_run, judge_tract};
use crate::rows::{Rows, field};
use crate::tally::Tally;
use anyhow::Result;
use csv::StringRecord;
use std::fs;
use std::rt::Files;
use std::sync::Wait;
use std::thread::Threads;

// A table: of descriptions, of runs, of what is told on the errors, or of ends of plants' files that were cut off.
#[derive(Clone, Copy)]
enum Table {
    Tracts,
    Runs,
    Advice,
    Cuts,
}

static TABLES: [Table; 4] = [Table::Tracts, Table::Runs, Table::Advice, Table::Cuts];

impl Table {
    fn file(self) -> &'static str {
        match self {
            Table::Tracts => "tracts.csv",
            Table::Runs => "runs.csv",
            Table::Advice => "advice.csv",
            Table::Cuts => "cuts.csv",
        }
    }
}

fn judge_row<R: Files + Print + AllocGlobal + Threads + Wait + Sync>(
    rt: &R,
    table: Table,
    row: &StringRecord,
    tally: &mut Tally,
) -> Result<()> {
    let first = field(row, 0)?;
    let second = field(row, 1)?;
    match table {
        Table::Tracts => judge_tract(rt, first, second, row, tally),
        Table::Runs => judge_run(rt, first, second, row, tally),
        Table::Advice => judge_advice(rt, first, second, row, tally),
        Table::Cuts => judge_cut(rt, first, second, row, tally),
    }
}

fn judge_rows<R: Files + Print + AllocGlobal + Threads + Wait + Sync>(
    rt: &R,
    table: Table,
    rows: &mut Rows,
    tally: &mut Tally,
) -> Result<()> {
    for _row in 0..u64::MAX {
        if !rows.advance()? {
            break;
        }
        judge_row(rt, table, rows.row(), tally)?;
    }
    Ok(())
}

fn judge_table<R: Files + Print + AllocGlobal + Threads + Wait + Sync>(
    rt: &R,
    table: Table,
    tally: &mut Tally,
) -> Result<()> {
    let text = fs::read(rt, table.file())?;
    judge_rows(
        rt,
        table,
        &mut Rows::new(rt.alloc(), text.as_slice()),
        tally,
    )
}

/// Judges each row of each table.
pub fn judge_tables<R: Files + Print + AllocGlobal + Threads + Wait + Sync>(
    rt: &R,
    tally: &mut Tally,
) -> Result<()> {
    for table in &TABLES {
        judge_table(rt, *table, tally)?;
    }
    Ok(())
}
