//! What land is drawn.

ghost use Rattle.std.specs.{Prelude.{◌≡◌, fold, IfOk, OnOk}, List.{list_all}};
ghost use Rattle.title_plat.specs.Drawn.{land_drawn, land_of, lies_in, section_in, sole_section, township_in, townships_of, with_township};

use crate::parts::Part;
use std::alloc::{AllocError, Global};
use title_aliquot::{Node, Section, Township};

/// The land that is drawn for a sheet.
#[derive(Drop)]
pub enum Frame {
    /// The one section in which all parts lie.
    Section(Section),
    /// Each township in which a part lies, in the order of their first parts.
    Townships(Vec<Township>),
    /// The whole plant, where no part names a township.
    Everything,
}

// The section in which a node lies.
fn section_in(node: &Node) -> Option<Section>
    ensures section { result ≡ section_in node.now }
{
    match node {
        Node::Part(section, _) => Some(*section),
        _ => None,
    }
}

// The township in which a node lies.
fn township_in(node: &Node) -> Option<Township>
    ensures township { result ≡ township_in node.now }
{
    match node {
        Node::Part(section, _) => Some(section.township),
        Node::Township(township) => Some(*township),
        Node::Everything => None,
    }
}

// Whether a part lies in a section.
fn lies_in(part: &Part, section: Section) -> bool
    ensures lies { result ≡ lies_in section part.now }
{
    match section_in(&part.node) {
        Some(other) => section.is(other),
        None => false,
    }
}

// Whether all of some parts lie in a section.
fn all_lie_in(parts: &[Part], section: Section) -> bool
    ensures lie { result ≡ list_all (lies_in section) parts.now }
{
    parts.iter().all(|part| lies_in(part, section))
}

// The one section in which all parts lie.
fn sole_section(parts: &[Part]) -> Option<Section>
    ensures sole { result ≡ sole_section parts.now }
{
    let (first, rest) = parts.split_first()?;
    let section = section_in(&first.node)?;
    if all_lie_in(rest, section) {
        Some(section)
    } else {
        None
    }
}

// Adds the township in which a node lies, unless it is there.
fn add_township(townships: &mut Vec<Township>, node: &Node) -> Result<(), AllocError>
    ensures added { OnOk result (townships.new.items ≡ with_township townships.old.items node.now) }
{
    if let Some(township) = township_in(node) {
        if !township.is_among(townships.as_slice()) {
            townships.push(township)?;
        }
    }
    Ok(())
}

// The townships in which parts lie.
fn townships_of(alloc: Global, parts: &[Part]) -> Result<Vec<Township>, AllocError>
    ensures townships { IfOk result (λ townships. townships.items ≡ townships_of parts.now) }
{
    let mut townships = Vec::new(alloc);
    for part in parts {
        add_township(&mut townships, &part.node)?;
    }
    Ok(townships)
}

/// The land that is drawn for these parts.
pub(crate) fn frame_of(alloc: Global, parts: &[Part]) -> Result<Frame, AllocError>
    ensures land { IfOk result (λ frame. land_of frame ≡ land_drawn parts.now) }
{
    if let Some(section) = sole_section(parts) {
        return Ok(Frame::Section(section));
    }
    let townships = townships_of(alloc, parts)?;
    if townships.is_empty() {
        return Ok(Frame::Everything);
    }
    Ok(Frame::Townships(townships))
}
