//! A sheet as a picture.

use crate::acres::half_acres_of;
use crate::canvas::{Area, Canvas};
use crate::fault::PlatFault;
use crate::frame::Frame;
use crate::legend::add_legend;
use crate::owners::{Keyed, keyed_parts};
use crate::paint::add_pattern;
use crate::parts::Part;
use crate::plat::{Plat, plat_of};
use crate::report::read_sheet;
use crate::row::{ESTATES, Row};
use crate::section::{PANEL, add_section};
use crate::sheet::{Sheet, Wanted};
use crate::table::add_table;
use crate::township::add_township;
use std::alloc::{AllocError, Global};
use title_aliquot::{Acres, Node, Section, Township};
use title_instrument::Estate;

// The picture's width, the margins, and what lies between two panels.
const WIDTH: u32 = 1280;

const MARGIN: u32 = 40;

const GAP: u32 = 24;

// Where the table of net acres begins, to the right of the key.
const TABLE: u32 = 680;

// The classes of lines and texts.
const STYLE: &str = "<style>\
text{font-family:Helvetica,Arial,'Liberation Sans','DejaVu Sans',sans-serif;fill:#111}\
.title{font-size:28px;font-weight:bold}.sub{font-size:14px;fill:#444}.town{font-size:19px;font-weight:bold}\
.estate{font-size:16px;font-weight:bold}\
.note{font-size:11px;fill:#444}.head,.rhead{font-size:13px;font-weight:bold}.l13,.r13,.c13{font-size:13px}.c12{font-size:12px}\
.c10{font-size:10px}.c9,.number{font-size:9px}.c8{font-size:8px}.c7{font-size:7px}.k20{font-size:20px}.k17{font-size:17px}\
.k14{font-size:14px}.k12{font-size:12px}.k10{font-size:10px}.k9{font-size:9px}.k8{font-size:8px}\
.k20,.k17,.k14,.k12,.k10,.k9,.k8{font-weight:bold}\
.k20,.k17,.k14,.k12,.k10,.k9,.k8,.c13,.c12,.c10,.c9,.c8,.c7,.north{text-anchor:middle}.r13,.rhead{text-anchor:end}\
.north{font-size:15px;font-weight:bold}.paper{fill:#fff}.land{fill:#fff;stroke:none}.halo{fill:#fff;fill-opacity:.82}\
.part{stroke:#333;stroke-width:.7}.quarter{stroke:#999;stroke-width:.7;stroke-dasharray:5 4}\
.section{fill:none;stroke:#222;stroke-width:1}.outline{fill:none;stroke:#000;stroke-width:2.6}.rule{stroke:#111;stroke-width:1}\
</style>\n";

// The name of an estate.
fn estate_name(estate: Estate) -> &'static str {
    match estate {
        Estate::S => "Surface",
        Estate::O => "Oil and gas",
        Estate::M => "Other minerals",
    }
}

// Whether all parts are of one node.
fn are_all_in(parts: &[Part], node: &Node) -> bool {
    for part in parts {
        if !part.node.is(node) {
            return false;
        }
    }
    true
}

// What the picture shows, as its title tells it.
fn title_of(alloc: Global, frame: &Frame, parts: &[Part]) -> Result<String, AllocError> {
    if let Some(first) = parts.first() {
        if are_all_in(parts, &first.node) {
            return format!(in alloc; "{}", first.node);
        }
    }
    match frame {
        Frame::Section(section) => format!(in alloc; "{section}"),
        Frame::Townships(townships) => match townships.as_slice() {
            [township] => format!(in alloc; "{township}"),
            _ => format!(in alloc; "{} townships", townships.len()),
        },
        Frame::Everything => String::from_str(alloc, "everything"),
    }
}

// The half acres of the land that is drawn.
fn half_acres_drawn(parts: &[Part], townships: u32) -> u32 {
    let mut sum: u64 = 0;
    for part in parts {
        if part.estate == Estate::S {
            sum = sum.saturating_add(half_acres_of(part.node, townships));
        }
    }
    sum.min(4_000_000_000) as u32
}

// Draws the arrow to the north.
fn add_north(canvas: &mut Canvas) -> Result<(), AllocError> {
    canvas.raw(
        "<path d=\"M1222 28l9 30l-9 -7l-9 7z\" fill=\"#111\"/><path d=\"M1222 51v24\" stroke=\"#111\" stroke-width=\"1.6\"/>\n",
    )?;
    canvas.text(1222, 24, "north", "N")
}

// What land a row of panels shows.
#[derive(Clone, Copy)]
enum Shown {
    Section(Section),
    Township(Township),
    Everything,
}

// Draws an estate's panel.
fn add_panel(
    canvas: &mut Canvas,
    panel: Area,
    shown: &Shown,
    parts: &[Keyed<'_>],
    estate: Estate,
) -> Result<(), AllocError> {
    match shown {
        Shown::Section(section) => add_section(canvas, panel, Some(*section), parts, estate),
        Shown::Township(township) => add_township(canvas, panel, *township, parts, estate),
        Shown::Everything => add_section(canvas, panel, None, parts, estate),
    }
}

// Draws the three panels of some land from this height on, and answers where they end.
fn add_panels(
    canvas: &mut Canvas,
    top: u32,
    parts: &[Keyed<'_>],
    shown: &Shown,
) -> Result<u32, AllocError> {
    let mut x = MARGIN;
    for estate in ESTATES {
        canvas.text(x, top, "estate", estate_name(estate))?;
        let panel = Area::square(x, top.saturating_add(10), PANEL);
        add_panel(canvas, panel, shown, parts, estate)?;
        x = x.saturating_add(PANEL + GAP);
    }
    Ok(top.saturating_add(PANEL + 10))
}

// Draws each of some townships from this height on, and answers where the last ends.
fn add_townships(
    canvas: &mut Canvas,
    top: u32,
    parts: &[Keyed<'_>],
    townships: &[Township],
) -> Result<u32, AllocError> {
    let mut y = top;
    for (i, township) in townships.iter().enumerate() {
        if i > 0 {
            y = y.saturating_add(44);
        }
        if townships.len() > 1 {
            let name = format!(in canvas.alloc; "{township}")?;
            canvas.text(MARGIN, y, "town", name.as_str())?;
            y = y.saturating_add(28);
        }
        y = add_panels(canvas, y, parts, &Shown::Township(*township))?;
    }
    Ok(y)
}

// Draws the land of a frame from this height on, and answers where it ends.
fn add_land(
    canvas: &mut Canvas,
    top: u32,
    parts: &[Keyed<'_>],
    frame: &Frame,
) -> Result<u32, AllocError> {
    match frame {
        Frame::Section(section) => add_panels(canvas, top, parts, &Shown::Section(*section)),
        Frame::Townships(townships) => add_townships(canvas, top, parts, townships.as_slice()),
        Frame::Everything => add_panels(canvas, top, parts, &Shown::Everything),
    }
}

// The number of townships that the whole plant counts for.
fn townships_in(frame: &Frame) -> u32 {
    match frame {
        Frame::Section(_) => 1,
        Frame::Townships(townships) => townships.len().min(9_801) as u32,
        Frame::Everything => 0,
    }
}

// What stands above the panels.
fn add_heading(
    canvas: &mut Canvas,
    sheet: &Sheet,
    title: &str,
    half_acres: u32,
) -> Result<(), AllocError> {
    canvas.text(MARGIN, 52, "title", title)?;
    let acres = Acres { half_acres };
    let (number, sheets) = (sheet.number, sheet.sheets);
    let told = if half_acres == 0 {
        format!(in canvas.alloc; "Sheet {number} of {sheets}")?
    } else {
        format!(in canvas.alloc; "Sheet {number} of {sheets}, {acres} acres")?
    };
    canvas.text(MARGIN, 78, "sub", told.as_str())?;
    add_north(canvas)
}

// The picture's patterns, one for each key.
fn add_patterns(canvas: &mut Canvas, keys: usize) -> Result<(), AllocError> {
    canvas.raw("<defs>\n")?;
    for key in 0..keys {
        add_pattern(canvas, key)?;
    }
    canvas.raw("</defs>\n")
}

// The key and the table below the panels, from this height on, and where they end.
fn add_lists(
    canvas: &mut Canvas,
    top: u32,
    rows: &[Row],
    parts: &[Keyed<'_>],
    townships: u32,
) -> Result<u32, PlatFault> {
    let left = add_legend(canvas, MARGIN, top, parts)?;
    let right = if townships == 0 {
        top
    } else {
        add_table(canvas, TABLE, top, rows, townships)?
    };
    let foot = left.max(right).saturating_add(24);
    canvas.text(MARGIN, foot, "note", NOTE)?;
    Ok(foot.saturating_add(28))
}

// The page round the elements of a picture.
fn page_of(body: Canvas, height: u32, keys: usize) -> Result<String, AllocError> {
    let mut page = Canvas::new(body.alloc);
    let head = format!(in page.alloc;
        "<svg xmlns=\"http://www.w3.org/2000/svg\" width=\"{WIDTH}\" height=\"{height}\" viewBox=\"0 0 {WIDTH} {height}\">\n"
    )?;
    page.raw(head.as_str())?;
    page.raw(STYLE)?;
    add_patterns(&mut page, keys)?;
    let paper = Area {
        x: 0,
        y: 0,
        width: WIDTH,
        height,
    };
    page.rect(paper, "paper")?;
    let text = body.into_text();
    page.raw(text.as_str())?;
    page.raw("</svg>\n")?;
    Ok(page.into_text())
}

/// The picture of a sheet, as SVG. `NotASheet` where its rows leave out land of an estate, or name it twice, or its shares
/// aren't a whole.
pub fn draw_sheet(alloc: Global, sheet: &Sheet) -> Result<String, PlatFault> {
    let rows = sheet.rows();
    let Plat { parts, frame } = plat_of(alloc, rows)?;
    let (keyed, keys) = keyed_parts(alloc, rows, parts.as_slice())?;
    let townships = townships_in(&frame);
    let mut body = Canvas::new(alloc);
    let title = title_of(alloc, &frame, parts.as_slice())?;
    let half_acres = half_acres_drawn(parts.as_slice(), townships);
    add_heading(&mut body, sheet, title.as_str(), half_acres)?;
    let bottom = add_land(&mut body, 116, keyed.as_slice(), &frame)?;
    let top = bottom.saturating_add(46);
    let height = add_lists(&mut body, top, rows, keyed.as_slice(), townships)?;
    Ok(page_of(body, height, keys)?)
}

// What stands below.
const NOTE: &str =
    "Acres are nominal, 640 a section. Net acres are acres times share, rounded to four decimals. No survey.";

/// The picture of the sheet of a report that is wanted.
pub fn draw(alloc: Global, report: &[u8], wanted: Wanted) -> Result<String, PlatFault> {
    let sheet = read_sheet(alloc, report, wanted)?;
    draw_sheet(alloc, &sheet)
}
