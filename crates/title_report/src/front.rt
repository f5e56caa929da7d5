//! The text with which rows of a sheet begin, made once for all rows of a node and an estate.

ghost use Rattle.std.specs.Prelude.{◌≡◌, ◌≤◌, ◌+◌, ◌++◌, ℕ, true, codes, length};
ghost use Rattle.title_instrument.specs.Estates.{estate_text};
ghost use Rattle.title_land.specs.Texts.{node_text};
ghost use Rattle.title_report.specs.Fronts.{front_text, head_text, row_start, IsFront, IsHead};

use crate::nodes::{add, add_node, add_path, add_section, start_row};
use title_instrument::Estate;
use title_land::{Node, Section};
use title_page::Line;
use title_store::SheetRow;

// The last section up to which a beginning was made, with that beginning.
#[derive(Drop)]
pub(crate) struct Head {
    pub(crate) section: Option<Section>,
    pub(crate) text: Line,
}

// The last row of which the beginning was made, with that beginning.
#[derive(Drop)]
pub(crate) struct Front {
    pub(crate) head: Head,
    pub(crate) row: Option<SheetRow>,
    pub(crate) text: Line,
}

// Makes the beginning up to the section anew.
fn make_head(line: &mut Line, examiner: u32, section: Section)
    ensures made { line.new ≡ head_text examiner section }
    ensures long { length line.new ≤ 34 }
{
    start_row(line, examiner, b"row");
    add_section(line, section);
}

// The letter of an estate.
fn letter_bytes(estate: Estate) -> &'static [u8]
    ensures letter { result.now ≡ estate_text estate }
    ensures one { length result.now ≡ 1 }
{
    estate.letter().as_bytes()
}

// Adds the estate's letter between two commas.
fn add_estate(line: &mut Line, estate: Estate)
    requires room { length line.old + 3 ≤ 64 }
    ensures added { line.new ≡ line.old ++ codes "," ++ estate_text estate ++ codes "," }
{
    add(line, b",");
    add(line, letter_bytes(estate));
    add(line, b",");
}

impl Head {
    // Whether it is that of this section.
    fn serves(&self, section: Section) -> bool
        ensures serves { result ≡ true → (e : ℕ) → IsHead e self.now → self.now.text ≡ head_text e section }
    {
        match self.section {
            Some(last) => last.is(section),
            None => false,
        }
    }

    // Makes it that of this section.
    #[inline(always)]
    fn make_for(&mut self, examiner: u32, section: Section)
        requires head { IsHead examiner self.old }
        ensures head { IsHead examiner self.new }
        ensures text { self.new.text ≡ head_text examiner section }
    {
        if self.serves(section) {
            return;
        }
        make_head(&mut self.text, examiner, section);
        self.section = Some(section);
    }
}

// Makes the beginning up to the node anew.
#[inline(always)]
fn make_node(line: &mut Line, head: &mut Head, examiner: u32, node: &Node)
    requires head { IsHead examiner head.old }
    ensures head { IsHead examiner head.new }
    ensures made { line.new ≡ row_start examiner ++ node_text node.now }
    ensures long { length line.new ≤ 55 }
{
    match node {
        Node::Part(section, within) => {
            head.make_for(examiner, *section);
            line.clear();
            add(line, head.text.as_bytes());
            add_path(line, *within);
        }
        _ => {
            start_row(line, examiner, b"row");
            add_node(line, node);
        }
    }
}

impl Front {
    // A front with no beginning made.
    pub(crate) fn new() -> Front
        ensures front { (e : ℕ) → IsFront e result }
    {
        Front {
            head: Head {
                section: None,
                text: Line::new(),
            },
            row: None,
            text: Line::new(),
        }
    }

    // Whether a row begins as the last one did.
    fn serves(&self, row: &SheetRow) -> bool
        ensures serves { result ≡ true → (e : ℕ) → IsFront e self.now → self.now.text ≡ front_text e row.now.node row.now.estate }
    {
        match &self.row {
            Some(last) => last.node.is(&row.node) && last.estate == row.estate,
            None => false,
        }
    }

    // Makes the beginning that of a row, anew. Put inline, as what it calls: the rows of one beginning are few.
    #[inline(always)]
    fn make_for(&mut self, examiner: u32, row: &SheetRow)
        requires front { IsFront examiner self.old }
        ensures front { IsFront examiner self.new }
        ensures text { self.new.text ≡ front_text examiner row.now.node row.now.estate }
    {
        make_node(&mut self.text, &mut self.head, examiner, &row.node);
        add_estate(&mut self.text, row.estate);
        self.row = Some(*row);
    }

    // Makes the beginning that of a row.
    pub(crate) fn text_for(&mut self, examiner: u32, row: &SheetRow)
        requires front { IsFront examiner self.old }
        ensures front { IsFront examiner self.new }
        ensures text { self.new.text ≡ front_text examiner row.now.node row.now.estate }
    {
        if self.serves(row) {
            return;
        }
        self.make_for(examiner, row);
    }
}
