//! Tracts, their nodes and their cells.

use crate::checks::must;
use crate::survey::{section, square, township};
use std::alloc::{AllocError, Global};
use std::fmt::Write;
use std::process::Abort;
use title_land::{
    Cell, Grid, Half, Land, Node, Quarter, Rectangle, Section, Township, Tract, Within, cells_of,
    children_of, is_square_number, node_cells, number_above, section_of_square,
    township_of_section,
};

const NORTHEAST: Quarter = Quarter::Northeast;

const NORTHWEST: Quarter = Quarter::Northwest;

const SOUTHWEST: Quarter = Quarter::Southwest;

const SOUTHEAST: Quarter = Quarter::Southeast;

/// The south half of section 5, which is no square, from the set of its cells.
fn south_half(rt: &impl Abort, alloc: Global) -> Tract {
    let cells = Grid::of(Rectangle::section().half(Half::South));
    Tract::new(alloc, Land::Part(section(rt, 5), cells)).expect(rt, "there is memory")
}

fn add_node(lines: &mut String, node: &Node) -> Result<(), AllocError> {
    writeln!(lines, "{node}")
}

fn add_nodes(lines: &mut String, nodes: &[Node]) -> Result<(), AllocError> {
    for node in nodes {
        add_node(lines, node)?;
    }
    Ok(())
}

fn add_cell(lines: &mut String, cell: &Cell) -> Result<(), AllocError> {
    let (section, row, column) = (cell.section, cell.row, cell.column);
    writeln!(lines, "{section} row {row} column {column}")
}

/// Adds the cells at these indices of a list; none where it ends before.
fn add_cells(lines: &mut String, cells: &[Cell], indices: &[usize]) -> Result<(), AllocError> {
    for index in indices {
        if let Some(cell) = cells.get(*index) {
            add_cell(lines, cell)?;
        }
    }
    Ok(())
}

fn assert_numbers(rt: &impl Abort, rows: &[(Node, u64)]) {
    for (node, number) in rows {
        must(rt, node.number() == *number, "a node's number");
    }
}

fn assert_quarters(rt: &impl Abort, rows: &[(u16, Quarter, Quarter)]) {
    for (number, quarter, numbered) in rows {
        must(rt, quarter.number() == *number, "a quarter's number");
        must(rt, *numbered == *quarter, "the quarter with a number");
    }
}

/// The quarters have the numbers 0 to 3 from the northeast one on, against the clock.
#[test]
fn quarters_have_numbers(rt: HostRuntime) {
    let rows = [
        (0, NORTHEAST, Quarter::numbered(0)),
        (1, NORTHWEST, Quarter::numbered(1)),
        (2, SOUTHWEST, Quarter::numbered(2)),
        (3, SOUTHEAST, Quarter::numbered(3)),
    ];
    assert_quarters(&rt, &rows);
}

fn assert_above(rt: &impl Abort, rows: &[(u64, u64)]) {
    for (number, above) in rows {
        must(rt, number_above(*number) == *above, "the number above");
    }
}

const ABOVE: [(u64, u64); 3] = [(25_280_773, 4_309_253), (4_309_253, 114_944), (114_944, 0)];

/// A number for each node: T3N R2W is (3 · 2 + 1) · 128 + 2, twice, times 64.
#[test]
fn a_node_has_a_number(rt: HostRuntime) {
    let rows = [
        (Node::Everything, 0),
        (Node::Township(township(&rt, 3)), 114_944),
        (square(&rt, 5, &[]), 4_309_253),
        (square(&rt, 5, &[SOUTHWEST]), 25_280_773),
    ];
    assert_numbers(&rt, &rows);
    assert_above(&rt, &ABOVE);
}

/// The same square's number is 6 · 4,194,304 + 114,949, and its section's 114,944 + 5.
#[test]
fn a_number_tells_where_a_square_lies(rt: HostRuntime) {
    let (section, township) = (section_of_square(25_280_773), township_of_section(114_949));
    must(&rt, section == 114_949, "the square's section");
    must(&rt, township == 114_944, "the section's township");
    must(&rt, is_square_number(4_309_253), "a section is a square");
    must(&rt, !is_square_number(114_944), "a township isn't");
}

/// Whether a node is each of these, and so its land.
fn assert_is(rt: &impl Abort, node: Node, others: &[(Node, bool)]) {
    for (other, wanted) in others {
        must(rt, node.is(other) == *wanted, "nodes that are one");
        let land = Land::of(node).is(&Land::of(*other));
        must(rt, land == *wanted, "lands that are one");
    }
}

#[test]
fn nodes_are_one_in_all_their_parts(rt: HostRuntime) {
    let others = [
        (Node::Everything, false),
        (Node::Township(township(&rt, 3)), false),
        (square(&rt, 5, &[]), false),
        (square(&rt, 5, &[NORTHEAST]), true),
        (square(&rt, 5, &[SOUTHWEST]), false),
        (square(&rt, 5, &[NORTHEAST, NORTHEAST]), false),
        (square(&rt, 6, &[NORTHEAST]), false),
    ];
    assert_is(&rt, square(&rt, 5, &[NORTHEAST]), &others);
}

fn add_above(lines: &mut String, cell: Node) -> Result<(), AllocError> {
    for node in cell.ancestors() {
        add_node(lines, &node)?;
    }
    Ok(())
}

fn lines_above(rt: &impl Abort, alloc: Global, cell: Node) -> String {
    let mut lines = String::new(alloc);
    add_above(&mut lines, cell).expect(rt, "there is memory");
    lines
}

const ABOVE_A_CELL: &str = "T3N R2W sec 5 SW1/4SE1/4NE1/4\n\
    T3N R2W sec 5 SE1/4NE1/4\n\
    T3N R2W sec 5 NE1/4\n\
    T3N R2W sec 5\n\
    T3N R2W\n\
    everything\n";

/// The nodes above a cell, the nearest first.
#[test]
fn a_cell_lies_below_six_nodes(rt: HostRuntime) {
    let cell = square(&rt, 5, &[NORTHEAST, SOUTHWEST, SOUTHEAST, NORTHEAST]);
    let lines = lines_above(&rt, rt.alloc(), cell);
    must(&rt, lines.as_str() == ABOVE_A_CELL, "the nodes above");
    must(&rt, Within::named(&[NORTHEAST; 5]).is_none(), "no cell");
}

/// Indices in lists of cells: the last is past the end of the plant's.
const INDICES: [usize; 9] = [0, 1, 2, 3, 256, 9215, 9216, 18431, 18432];

/// What lies right below the plant, a township, a square and a cell, each before its cells at these indices.
const LISTED: &str = "T4N R2W\n\
    T3N R2W\n\
    T4N R2W sec 1 row 0 column 15\n\
    T4N R2W sec 1 row 0 column 14\n\
    T4N R2W sec 1 row 1 column 14\n\
    T4N R2W sec 1 row 1 column 15\n\
    T4N R2W sec 2 row 0 column 15\n\
    T4N R2W sec 36 row 15 column 15\n\
    T3N R2W sec 1 row 0 column 15\n\
    T3N R2W sec 36 row 15 column 15\n\
    T3N R2W sec 1\nT3N R2W sec 2\nT3N R2W sec 3\nT3N R2W sec 4\nT3N R2W sec 5\nT3N R2W sec 6\n\
    T3N R2W sec 7\nT3N R2W sec 8\nT3N R2W sec 9\nT3N R2W sec 10\nT3N R2W sec 11\nT3N R2W sec 12\n\
    T3N R2W sec 13\nT3N R2W sec 14\nT3N R2W sec 15\nT3N R2W sec 16\nT3N R2W sec 17\nT3N R2W sec 18\n\
    T3N R2W sec 19\nT3N R2W sec 20\nT3N R2W sec 21\nT3N R2W sec 22\nT3N R2W sec 23\nT3N R2W sec 24\n\
    T3N R2W sec 25\nT3N R2W sec 26\nT3N R2W sec 27\nT3N R2W sec 28\nT3N R2W sec 29\nT3N R2W sec 30\n\
    T3N R2W sec 31\nT3N R2W sec 32\nT3N R2W sec 33\nT3N R2W sec 34\nT3N R2W sec 35\nT3N R2W sec 36\n\
    T3N R2W sec 1 row 0 column 15\n\
    T3N R2W sec 1 row 0 column 14\n\
    T3N R2W sec 1 row 1 column 14\n\
    T3N R2W sec 1 row 1 column 15\n\
    T3N R2W sec 2 row 0 column 15\n\
    T3N R2W sec 36 row 15 column 15\n\
    T3N R2W sec 5 NE1/4NE1/4NE1/4NE1/4\n\
    T3N R2W sec 5 NW1/4NE1/4NE1/4NE1/4\n\
    T3N R2W sec 5 SW1/4NE1/4NE1/4NE1/4\n\
    T3N R2W sec 5 SE1/4NE1/4NE1/4NE1/4\n\
    T3N R2W sec 5 row 0 column 15\n\
    T3N R2W sec 5 row 0 column 14\n\
    T3N R2W sec 5 row 1 column 14\n\
    T3N R2W sec 5 row 1 column 15\n\
    T3N R2W sec 5 row 0 column 15\n";

/// Adds what lies right below a node.
fn add_children(
    alloc: Global,
    lines: &mut String,
    townships: &[Township],
    node: Node,
) -> Result<(), AllocError> {
    let children = children_of(alloc, townships, node)?;
    add_nodes(lines, &children)
}

/// Adds a node's cells at these indices.
fn add_cells_in(
    alloc: Global,
    lines: &mut String,
    townships: &[Township],
    node: Node,
    indices: &[usize],
) -> Result<(), AllocError> {
    let cells = node_cells(alloc, townships, node)?;
    add_cells(lines, &cells, indices)
}

/// Adds what lies right below each node, and its cells at some indices, a line each.
fn add_listed(
    alloc: Global,
    lines: &mut String,
    townships: &[Township],
    nodes: &[Node],
) -> Result<(), AllocError> {
    for node in nodes {
        add_children(alloc, lines, townships, *node)?;
        add_cells_in(alloc, lines, townships, *node, &INDICES)?;
    }
    Ok(())
}

fn listed(rt: &impl Abort, alloc: Global, townships: &[Township], nodes: &[Node]) -> String {
    let mut lines = String::new(alloc);
    add_listed(alloc, &mut lines, townships, nodes).expect(rt, "there is memory");
    lines
}

/// Townships come as declared, sections by their numbers and quarters as they are listed.
#[test]
fn nodes_and_cells_are_listed(rt: HostRuntime) {
    let nodes = [
        Node::Everything,
        Node::Township(township(&rt, 3)),
        square(&rt, 5, &[NORTHEAST; 3]),
        square(&rt, 5, &[NORTHEAST; 4]),
    ];
    let townships = [township(&rt, 4), township(&rt, 3)];
    let lines = listed(&rt, rt.alloc(), &townships, &nodes);
    must(&rt, lines.as_str() == LISTED, "what is listed");
}

/// Adds the node of a tract that has a cell, where one has.
fn add_node_of(lines: &mut String, tract: &Tract, cell: Cell) -> Result<(), AllocError> {
    match tract.node_of(cell) {
        Some(node) => add_node(lines, &node),
        None => writeln!(lines, "none"),
    }
}

/// Adds whether a tract has each of a section's cells, and the node that has it.
fn add_nodes_of(
    lines: &mut String,
    tract: &Tract,
    section: Section,
    cells: &[(u8, u8)],
) -> Result<(), AllocError> {
    for (row, column) in cells {
        let (row, column) = (*row, *column);
        let cell = Cell {
            section,
            row,
            column,
        };
        write!(lines, "{} ", tract.has_cell(cell))?;
        add_node_of(lines, tract, cell)?;
    }
    Ok(())
}

/// Adds the cells at some indices of a tract's, in a township.
fn add_cells_of(
    alloc: Global,
    lines: &mut String,
    tract: &Tract,
    township: Township,
) -> Result<(), AllocError> {
    let cells = cells_of(alloc, &[township], tract)?;
    add_cells(lines, &cells, &[0, 63, 64, 127, 128])
}

/// Adds the cover of a half of section 5, its cells at some indices, and the nodes of cells in sections 5 and 6.
fn add_half(
    rt: &impl Abort,
    alloc: Global,
    lines: &mut String,
    half: &Tract,
) -> Result<(), AllocError> {
    add_nodes(lines, half.cover())?;
    add_cells_of(alloc, lines, half, township(rt, 3))?;
    let indices = [(7, 7), (8, 7), (15, 0), (15, 8), (8, 16)];
    add_nodes_of(lines, half, section(rt, 5), &indices)?;
    add_nodes_of(lines, half, section(rt, 6), &[(8, 7)])
}

fn lines_of(rt: &impl Abort, alloc: Global, half: &Tract) -> String {
    let mut lines = String::new(alloc);
    add_half(rt, alloc, &mut lines, half).expect(rt, "there is memory");
    lines
}

fn cells_in(rt: &impl Abort, alloc: Global, townships: &[Township], tract: &Tract) -> usize {
    let cells = cells_of(alloc, townships, tract);
    cells.expect(rt, "there is memory").len()
}

/// A half of a section meets everything, and has no cell in another township.
fn assert_in_its_township(rt: &impl Abort, alloc: Global, half: &Tract) {
    let elsewhere = [township(rt, 4)];
    must(rt, half.meets(&Tract::of(Node::Everything)), "it meets all");
    must(rt, !half.is_in(&elsewhere), "it isn't in another township");
    let cells = cells_in(rt, alloc, &elsewhere, half);
    must(rt, cells == 0, "no cell in another township");
}

const HALF: &str = "T3N R2W sec 5 SW1/4\n\
    T3N R2W sec 5 SE1/4\n\
    T3N R2W sec 5 row 8 column 7\n\
    T3N R2W sec 5 row 15 column 7\n\
    T3N R2W sec 5 row 8 column 15\n\
    T3N R2W sec 5 row 15 column 15\n\
    false none\n\
    true T3N R2W sec 5 SW1/4\n\
    true T3N R2W sec 5 SW1/4\n\
    true T3N R2W sec 5 SE1/4\n\
    false none\n\
    false none\n";

fn copy_of(rt: &impl Abort, alloc: Global, tract: &Tract) -> Tract {
    tract.copy(alloc).expect(rt, "there is memory")
}

/// A half has its cover and its cells, none of them in another township.
fn assert_half(rt: &impl Abort, alloc: Global, half: &Tract) {
    let lines = lines_of(rt, alloc, half);
    must(rt, lines.as_str() == HALF, "a half's nodes and cells");
    assert_in_its_township(rt, alloc, half);
}

/// So has a copy of it.
#[test]
fn a_half_is_two_nodes(rt: HostRuntime) {
    let copy = copy_of(&rt, rt.alloc(), &south_half(&rt, rt.alloc()));
    assert_half(&rt, rt.alloc(), &copy);
}

/// A half of a square of section 5, which isn't a cell.
fn half_of(rt: &impl Abort, alloc: Global, which: Half, quarters: &[Quarter]) -> Tract {
    let within = Within::named(quarters).expect(rt, "no more quarters than there are");
    if within.is_cell() {
        panic!(rt; "a cell has no halves");
    }
    Tract::of_half(alloc, section(rt, 5), which, within).expect(rt, "there is memory")
}

/// Made as a half of the section it is the same.
#[test]
fn a_half_is_made_of_its_square(rt: HostRuntime) {
    let half = half_of(&rt, rt.alloc(), Half::South, &[]);
    assert_half(&rt, rt.alloc(), &half);
}

fn cover_lines(rt: &impl Abort, alloc: Global, tract: &Tract) -> String {
    let mut lines = String::new(alloc);
    add_nodes(&mut lines, tract.cover()).expect(rt, "there is memory");
    lines
}

/// Whether a tract has each of these cells of section 5.
fn assert_cells(rt: &impl Abort, tract: &Tract, cells: &[(u8, u8, bool)]) {
    for (row, column, wanted) in cells {
        let cell = Cell {
            section: section(rt, 5),
            row: *row,
            column: *column,
        };
        must(rt, tract.has_cell(cell) == *wanted, "a cell of the tract");
    }
}

/// Whether a tract shares a cell with each node.
fn assert_meets(rt: &impl Abort, tract: &Tract, others: &[(Node, bool)]) {
    for (other, wanted) in others {
        must(
            rt,
            tract.meets(&Tract::of(*other)) == *wanted,
            "cells shared",
        );
    }
}

#[test]
fn tracts_share_cells(rt: HostRuntime) {
    let others = [
        (Node::Everything, true),
        (Node::Township(township(&rt, 3)), true),
        (Node::Township(township(&rt, 4)), false),
        (Node::Part(section(&rt, 6), Within::section()), false),
        (square(&rt, 5, &[SOUTHEAST]), false),
        (square(&rt, 5, &[SOUTHWEST, NORTHEAST]), true),
    ];
    assert_meets(&rt, &Tract::of(square(&rt, 5, &[NORTHEAST])), &others);
}

const NORTH_HALF: &str = "T3N R2W sec 5 NE1/4\n\
    T3N R2W sec 5 NW1/4\n";

/// The corners of the north half, rows 0 to 7, and the cells right below them.
const NORTH_CELLS: [(u8, u8, bool); 6] = [
    (0, 0, true),
    (0, 15, true),
    (7, 0, true),
    (7, 15, true),
    (8, 0, false),
    (8, 15, false),
];

/// The north half of a section is its two northern quarters, the eastern first.
#[test]
fn a_north_half_is_two_quarters(rt: HostRuntime) {
    let others = [
        (square(&rt, 5, &[NORTHEAST]), true),
        (square(&rt, 5, &[NORTHWEST]), true),
        (square(&rt, 5, &[SOUTHWEST]), false),
        (square(&rt, 5, &[SOUTHEAST]), false),
        (square(&rt, 5, &[SOUTHEAST, NORTHWEST]), true),
        (square(&rt, 6, &[NORTHEAST]), false),
    ];
    let half = half_of(&rt, rt.alloc(), Half::North, &[]);
    let lines = cover_lines(&rt, rt.alloc(), &half);
    must(&rt, lines.as_str() == NORTH_HALF, "the half's cover");
    assert_cells(&rt, &half, &NORTH_CELLS);
    assert_meets(&rt, &half, &others);
}

const WEST_HALF: &str = "T3N R2W sec 5 NW1/4NE1/4\n\
    T3N R2W sec 5 SW1/4NE1/4\n";

/// The corners of W1/2NE1/4, rows 0 to 7 of columns 8 to 11, and a cell beside each.
const WEST_CELLS: [(u8, u8, bool); 8] = [
    (0, 8, true),
    (0, 11, true),
    (7, 8, true),
    (7, 11, true),
    (0, 7, false),
    (0, 12, false),
    (8, 8, false),
    (8, 11, false),
];

/// The west half of a quarter is its two western quarters, the northern first.
#[test]
fn a_west_half_of_a_quarter_is_two_squares(rt: HostRuntime) {
    let others = [
        (square(&rt, 5, &[NORTHWEST, NORTHEAST]), true),
        (square(&rt, 5, &[SOUTHWEST, NORTHEAST]), true),
        (square(&rt, 5, &[NORTHEAST, NORTHEAST]), false),
        (square(&rt, 5, &[SOUTHEAST, NORTHEAST]), false),
        (square(&rt, 5, &[NORTHEAST]), true),
        (square(&rt, 5, &[NORTHWEST]), false),
    ];
    let half = half_of(&rt, rt.alloc(), Half::West, &[NORTHEAST]);
    let lines = cover_lines(&rt, rt.alloc(), &half);
    must(&rt, lines.as_str() == WEST_HALF, "the half's cover");
    assert_cells(&rt, &half, &WEST_CELLS);
    assert_meets(&rt, &half, &others);
}

fn meets_half(rt: &impl Abort, alloc: Global, tract: &Tract, which: Half) -> bool {
    tract.meets(&half_of(rt, alloc, which, &[]))
}

/// Whether two halves of the section share a cell.
fn assert_halves_meet(rt: &impl Abort, alloc: Global, rows: &[(Half, Half, bool)]) {
    for (first, second, wanted) in rows {
        let meets = meets_half(rt, alloc, &half_of(rt, alloc, *first, &[]), *second);
        must(rt, meets == *wanted, "halves that share cells");
    }
}

const MET: [(Half, Half, bool); 4] = [
    (Half::North, Half::North, true),
    (Half::North, Half::South, false),
    (Half::East, Half::West, false),
    (Half::West, Half::South, true),
];

/// A half meets a half by their squares, and the set of a half's cells by its own.
#[test]
fn halves_share_cells(rt: HostRuntime) {
    assert_halves_meet(&rt, rt.alloc(), &MET);
    let set = south_half(&rt, rt.alloc());
    must(
        &rt,
        meets_half(&rt, rt.alloc(), &set, Half::East),
        "E1/2 meets it",
    );
    must(
        &rt,
        !meets_half(&rt, rt.alloc(), &set, Half::North),
        "N1/2 doesn't",
    );
}
