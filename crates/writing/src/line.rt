ghost use Rattle.std.specs.Prelude.{ℕ, List};
ghost use Rattle.blocks.specs.Destinations.{overlay_number, OverlayKnown};
ghost use Rattle.blocks.specs.Shape.{accept_block, kept, map_block};
ghost use Rattle.writing.specs.Adding.{Adds, Fits};
ghost use Rattle.writing.specs.Texts.{enter_line, accept_line, map_line, lines, overlay_line, overlay_lines};

use crate::writer::Writer;
use blocks::destination::Destination;
use blocks::stored::{Accepted, Blocks, Mapped};
use frames::kind::Kind;

// What has a line.
pub(crate) trait Line {
    ghost text: { Self → List ℕ };

    fn write(&self, writer: &mut Writer<'_>)
        requires { Fits (text self.now) writer.old }
        ensures { Adds (text self.now) writer.old writer.new };
}

impl Line for Accepted {
    ghost text = { λ x. accept_line (accept_block x) };

    fn write(&self, writer: &mut Writer<'_>) {
        let block = self.block;
        let fields = [
            Kind::Accept.into(),
            block.node.into(),
            block.lo.into(),
            block.hi.into(),
        ];
        writer.line(&fields);
    }
}

impl Line for Mapped {
    ghost text = { λ x. map_line (map_block x) };

    fn write(&self, writer: &mut Writer<'_>) {
        let block = self.block;
        let fields = [
            Kind::Map.into(),
            block.node.into(),
            block.lo.into(),
            block.hi.into(),
            block.destination.into(),
            block.base.into(),
        ];
        writer.line(&fields);
    }
}

impl Writer<'_> {
    pub(crate) fn lines<L: Line>(&mut self, all: &[L])
        requires { Fits (lines L.text all.now) self.old }
        ensures { Adds (lines L.text all.now) self.old self.new }
    {
        // A `for`: of what a closure changes a proof would know nothing.
        for one in all {
            one.write(self);
        }
    }

    pub(crate) fn enter(&mut self, node: u8)
        requires { Fits (enter_line node) self.old }
        ensures { Adds (enter_line node) self.old self.new }
    {
        self.line(&[Kind::Enter.into(), node.into()]);
    }

    // A node without an overlay has no line.
    fn overlay(&mut self, node: u8, overlay: Option<Destination>)
        requires known { OverlayKnown overlay }
        requires room { Fits (overlay_line node (overlay_number overlay)) self.old }
        ensures { Adds (overlay_line node (overlay_number overlay)) self.old self.new }
    {
        match overlay {
            Some(destination) => self.line(&[
                Kind::Over.into(),
                node.into(),
                u8::from(destination).into(),
            ]),
            None => {}
        }
    }

    // The overlays stand by node, from 0.
    pub(crate) fn overlays(&mut self, blocks: &Blocks)
        requires { Fits (overlay_lines 0 (kept blocks.now).overlays) self.old }
        ensures { Adds (overlay_lines 0 (kept blocks.now).overlays) self.old self.new }
    {
        let overlays = &blocks.overlays[..];
        // A `for`: of what a closure changes a proof would know nothing.
        for (node, overlay) in overlays.iter().enumerate() {
            self.overlay(node as u8, *overlay);
        }
    }
}
