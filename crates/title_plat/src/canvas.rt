//! Elements of SVG, written one after another.

use crate::escape::escaped;
use crate::paint::key_text;
use std::alloc::{AllocError, Global};

/// A rectangle of the picture, in pixels from its upper left corner.
#[derive(Clone, Copy, Debug, PartialEq, Eq)]
pub(crate) struct Area {
    pub x: u32,
    pub y: u32,
    pub width: u32,
    pub height: u32,
}

impl Area {
    /// A square with its upper left corner at a point.
    pub fn square(x: u32, y: u32, side: u32) -> Area {
        Area {
            x,
            y,
            width: side,
            height: side,
        }
    }

    /// The x of its middle.
    pub fn middle(self) -> u32 {
        self.x.saturating_add(self.width / 2)
    }

    /// The x of its right side.
    pub fn right(self) -> u32 {
        self.x.saturating_add(self.width)
    }

    /// The y of its lower side.
    pub fn bottom(self) -> u32 {
        self.y.saturating_add(self.height)
    }
}

/// A text of SVG that grows.
#[derive(Drop)]
pub(crate) struct Canvas {
    pub alloc: Global,
    text: String,
}

impl Canvas {
    pub fn new(alloc: Global) -> Canvas {
        Canvas {
            alloc,
            text: String::new(alloc),
        }
    }

    pub fn into_text(self) -> String {
        self.text
    }

    /// Adds a text of SVG as it is.
    pub fn raw(&mut self, svg: &str) -> Result<(), AllocError> {
        self.text.push_str(svg)
    }

    /// Adds a rectangle.
    pub fn rect(&mut self, area: Area, class: &str) -> Result<(), AllocError> {
        let Area {
            x,
            y,
            width,
            height,
        } = area;
        let svg = format!(in self.alloc;
            "<rect class=\"{class}\" x=\"{x}\" y=\"{y}\" width=\"{width}\" height=\"{height}\"/>\n"
        )?;
        self.raw(svg.as_str())
    }

    /// Adds a rectangle in the pattern of a key.
    pub fn filled(&mut self, area: Area, key: usize) -> Result<(), AllocError> {
        let Area {
            x,
            y,
            width,
            height,
        } = area;
        let name = key_text(self.alloc, key)?;
        let svg = format!(in self.alloc;
            "<rect class=\"part\" fill=\"url(#{name})\" x=\"{x}\" y=\"{y}\" width=\"{width}\" height=\"{height}\"/>\n"
        )?;
        self.raw(svg.as_str())
    }

    /// Adds a line.
    pub fn line(
        &mut self,
        from: (u32, u32),
        to: (u32, u32),
        class: &str,
    ) -> Result<(), AllocError> {
        let ((x1, y1), (x2, y2)) = (from, to);
        let svg = format!(in self.alloc;
            "<line class=\"{class}\" x1=\"{x1}\" y1=\"{y1}\" x2=\"{x2}\" y2=\"{y2}\"/>\n"
        )?;
        self.raw(svg.as_str())
    }

    /// Adds a text, which is escaped.
    pub fn text(&mut self, x: u32, y: u32, class: &str, text: &str) -> Result<(), AllocError> {
        let text = escaped(self.alloc, text)?;
        let svg = format!(in self.alloc;
            "<text class=\"{class}\" x=\"{x}\" y=\"{y}\">{text}</text>\n"
        )?;
        self.raw(svg.as_str())
    }

    /// Begins a group that shows a text, which is escaped, where it is pointed at.
    pub fn begin(&mut self, tip: &str) -> Result<(), AllocError> {
        let tip = escaped(self.alloc, tip)?;
        let svg = format!(in self.alloc; "<g><title>{tip}</title>\n")?;
        self.raw(svg.as_str())
    }

    /// Ends a group.
    pub fn end(&mut self) -> Result<(), AllocError> {
        self.raw("</g>\n")
    }
}
