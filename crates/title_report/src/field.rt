//! What stands in the rows of a report.

ghost use Rattle.title_report.specs.Fields.{text_of};

use crate::nodes::{put_node, put_number};
use title_device::{Failed, Sink};
use title_land::Node;
use title_page::{Field, Page};

/// What stands in a row: a word or a name, a number, or a node of the tree of tracts.
#[derive(Clone, Copy)]
pub enum ReportField<'a> {
    Text(&'a [u8]),
    Number(u64),
    Node(Node),
}

impl Field for ReportField<'_> {
    ghost text = { text_of };

    fn write<S: Sink>(&self, page: &mut Page, sink: &mut S) -> Result<(), Failed> {
        match self {
            ReportField::Text(text) => page.field(sink, text),
            ReportField::Number(number) => put_number(page, sink, *number),
            ReportField::Node(node) => put_node(page, sink, node),
        }
    }
}
