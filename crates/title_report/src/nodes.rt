//! The texts of numbers and nodes, put together on lines.

ghost use Rattle.std.specs.{Prelude.{◌≡◌, ◌≤◌, ◌+◌, ◌*◌, ◌++◌, false, cond, codes, length}, Fmt.{decimal}};
ghost use Rattle.csv.specs.Writing.{field_text};
ghost use Rattle.title_land.specs.Texts.{node_text, path_text, quarter_text, quarters_text, section_text, township_text};
ghost use Rattle.title_page.specs.Rows.{row_writer};
ghost use Rattle.title_report.specs.{Fronts.{start_text}, Puts.{IsPut}};

use itoa::{Buffer, Integer};
use title_device::{Failed, Sink};
use title_land::{Node, Quarter, Section, Township, Within};
use title_page::{Line, Page};

// A number in decimal stands without quotes. The function does nothing: its clause is the law.
pub(crate) fn number_is_plain(number: u64)
    ensures plain { field_text row_writer (decimal number) ≡ decimal number }
{}

// Adds a text for which there is room.
#[inline(always)]
pub(crate) fn add(line: &mut Line, text: &[u8])
    requires room { length line.old + length text.now ≤ 64 }
    ensures added { line.new ≡ line.old ++ text.now }
    ensures long { length line.new ≡ length line.old + length text.now }
{
    line.add(text);
}

// Adds a number in decimal.
pub(crate) fn add_number<I: Integer>(line: &mut Line, number: I)
    requires room { length line.old + I.MAX_STR_LEN ≤ 64 }
    ensures added { line.new ≡ line.old ++ I.text number }
    ensures long { length line.new ≤ length line.old + I.MAX_STR_LEN }
{
    let mut digits = Buffer::new();
    add(line, digits.format(number).as_bytes());
}

// Begins a row of an examiner anew, by his number and a word.
pub(crate) fn start_row(line: &mut Line, examiner: u32, word: &[u8])
    requires short { length word.now ≤ 5 }
    ensures made { line.new ≡ start_text examiner word.now }
    ensures long { length line.new ≤ length word.now + 12 }
{
    line.clear();
    add_number(line, examiner);
    add(line, b",");
    add(line, word);
    add(line, b",");
}

// The letter of the side of the base line that a township is on.
fn side_letter(township: Township) -> &'static [u8]
    ensures letter { result.now ≡ cond township.north (codes "N") (codes "S") }
    ensures one { length result.now ≡ 1 }
{
    if township.north { b"N" } else { b"S" }
}

// The letter of the side of the meridian that its range is on.
fn range_letter(township: Township) -> &'static [u8]
    ensures letter { result.now ≡ cond township.east (codes "E") (codes "W") }
    ensures one { length result.now ≡ 1 }
{
    if township.east { b"E" } else { b"W" }
}

// Adds a township.
fn add_township(line: &mut Line, township: Township)
    requires room { length line.old + 11 ≤ 64 }
    ensures added { line.new ≡ line.old ++ township_text township }
    ensures long { length line.new ≤ length line.old + 11 }
{
    add(line, b"T");
    add_number(line, township.number);
    add(line, side_letter(township));
    add(line, b" R");
    add_number(line, township.range);
    add(line, range_letter(township));
}

// Adds a section.
pub(crate) fn add_section(line: &mut Line, section: Section)
    requires room { length line.old + 19 ≤ 64 }
    ensures added { line.new ≡ line.old ++ section_text section }
    ensures long { length line.new ≤ length line.old + 19 }
{
    add_township(line, section.township);
    add(line, b" sec ");
    add_number(line, section.number);
}

// The name of a quarter, with its mark.
fn quarter_bytes(which: Quarter) -> &'static [u8]
    ensures name { result.now ≡ quarter_text which }
    ensures five { length result.now ≡ 5 }
{
    match which {
        Quarter::Northeast => b"NE1/4",
        Quarter::Northwest => b"NW1/4",
        Quarter::Southwest => b"SW1/4",
        Quarter::Southeast => b"SE1/4",
    }
}

// Adds the quarters of a square, the innermost first.
#[inline]
fn add_quarters(line: &mut Line, within: Within)
    requires room { length line.old + 5 * length within ≤ 64 }
    ensures added { line.new ≡ line.old ++ quarters_text within }
    ensures long { length line.new ≡ length line.old + 5 * length within }
{
    let Some(parts) = within.split() else {
        return;
    };
    add(line, quarter_bytes(parts.0));
    add_quarters(line, parts.1);
}

// Adds what a square's quarters add to its section's text.
#[tactic(auto, using(title_land::specs::Laws::Sides::depth_is))]
#[inline(always)]
pub(crate) fn add_path(line: &mut Line, within: Within)
    requires room { length line.old + 21 ≤ 64 }
    ensures added { line.new ≡ line.old ++ path_text within }
    ensures long { length line.new ≤ length line.old + 21 }
{
    let Some((_, _)) = within.split() else {
        return;
    };
    add(line, b" ");
    add_quarters(line, within);
}

// Adds a node.
pub(crate) fn add_node(line: &mut Line, node: &Node)
    requires room { length line.old + 40 ≤ 64 }
    ensures added { line.new ≡ line.old ++ node_text node.now }
    ensures long { length line.new ≤ length line.old + 40 }
{
    match node {
        Node::Everything => add(line, b"everything"),
        Node::Township(township) => add_township(line, *township),
        Node::Part(section, within) => {
            add_section(line, *section);
            add_path(line, *within);
        }
    }
}

// Writes a number in decimal.
pub(crate) fn put_number<S: Sink>(page: &mut Page, sink: &mut S, number: u64) -> Result<(), Failed>
    requires works { S.has_failed sink.old ≡ false }
    ensures put { IsPut result (S.taken sink.old) page.old (S.taken sink.new) page.new (S.has_failed sink.new)
        (field_text row_writer (decimal number)) }
{
    let mut digits = Buffer::new();
    page.put(sink, digits.format(number).as_bytes())
}

// Writes a node.
pub(crate) fn put_node<S: Sink>(page: &mut Page, sink: &mut S, node: &Node) -> Result<(), Failed>
    requires works { S.has_failed sink.old ≡ false }
    ensures put { IsPut result (S.taken sink.old) page.old (S.taken sink.new) page.new (S.has_failed sink.new)
        (field_text row_writer (node_text node.now)) }
{
    let mut line = Line::new();
    add_node(&mut line, node);
    page.put(sink, line.as_bytes())
}
