//! What `tract` prints.

ghost use Rattle.std.specs.{Prelude.{◌≡◌, ◌++◌, IfOk, None, OnOk}, List.{flat_map}, String.{string_bytes}};
ghost use Rattle.title_land.specs.{Acres.{half_acres_of}, Depth.{depth}, Lands.{cover_of}};
ghost use Rattle.title_plan.specs.Lands.{land_in};
ghost use Rattle.title_program.specs.declared.status.Status.TheVariants as status;
ghost use Rattle.title_program.specs.Tracts.{acres_line, node_line, tract_status, tract_text};

use crate::fault::Fault;
use crate::status::Status;
use std::alloc::{AllocError, Global};
use std::fmt::Write;
use title_aliquot::DescFault;
use title_land::{Acres, Node, Tract};
use title_plan::read_tract;

/// A text to print, the status of the program that prints it, and why the text tells a fault, if it does.
#[derive(Debug, Drop)]
pub struct Printout {
    pub text: String,
    pub status: Status,
    pub why: Option<DescFault>,
}

// Adds the line of a node.
fn add_node(lines: &mut String, node: &Node) -> Result<(), AllocError>
    ensures line { OnOk result (string_bytes lines.new ≡ string_bytes lines.old ++ node_line node.now) }
{
    writeln!(lines, "node,{node}")
}

// The lines of some nodes.
fn node_lines(alloc: Global, nodes: &[Node]) -> Result<String, AllocError>
    ensures lines { IfOk result (λ lines. string_bytes lines ≡ flat_map node_line nodes.now) }
{
    let mut lines = String::new(alloc);
    for node in nodes {
        add_node(&mut lines, node)?;
    }
    Ok(lines)
}

// Adds the line of the acres.
fn add_acres(lines: &mut String, half_acres: Option<u32>) -> Result<(), AllocError>
    ensures line { OnOk result (string_bytes lines.new ≡ string_bytes lines.old ++ acres_line half_acres) }
{
    match half_acres {
        Some(half_acres) => writeln!(lines, "acres,{}", Acres { half_acres }),
        None => writeln!(lines, "acres,unknown"),
    }
}

// The lines of a tract.
fn tract_lines(alloc: Global, tract: &Tract) -> Result<String, AllocError>
    ensures lines { IfOk result (λ lines.
        string_bytes lines ≡ flat_map node_line (cover_of depth tract.now) ++ acres_line (half_acres_of depth tract.now)) }
{
    let mut lines = node_lines(alloc, tract.cover())?;
    add_acres(&mut lines, tract.half_acres())?;
    Ok(lines)
}

/// What `tract` prints for a text: a line for each node of its cover, in order, and one for its acres, or the line of its
/// fault. `Err` is Memory.
pub fn tract_printout(alloc: Global, text: &str) -> Result<Printout, AllocError>
    ensures text { IfOk result (λ p. string_bytes p.text ≡ tract_text depth (land_in text.now)) }
    ensures status { IfOk result (λ p. p.status ≡ tract_status (land_in text.now)) }
    ensures quiet { IfOk result (λ p. p.status ≡ status.Success → p.why ≡ None) }
{
    match read_tract(alloc, text)? {
        Ok(tract) => Ok(Printout {
            text: tract_lines(alloc, &tract)?,
            status: Status::Success,
            why: None,
        }),
        Err(why) => Ok(Printout {
            text: Fault::from(why).line(alloc)?,
            status: Status::Failure,
            why: Some(why),
        }),
    }
}
