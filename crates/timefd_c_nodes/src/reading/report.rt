//! The report on a text that was read.

ghost use Rattle.std.specs.Prelude.{◌≡◌, ◌≤◌, ◌↔◌, IsTrue, length};

use crate::{RawNode, WritePosition};

/// The report on a text that is a description.
#[derive(Debug, Clone, Copy, PartialEq, Eq)]
pub struct ReadReport {
    /// How many items the text has, or in version 3 how many bytes it reserves.
    pub value: usize,
    /// How many bytes the longest rendering has, at most `usize::MAX`.
    pub bytes: usize,
    /// How many nodes the text has.
    pub nodes: usize,
    /// How many bytes the literals have together.
    pub literals: usize,
    /// Whether both buffers had room for everything.
    pub written: bool,
}

/// Whether there is room for everything before a position.
#[inline(always)]
pub fn has_room(end: WritePosition, nodes: &[RawNode], literals: &[u8]) -> bool
    ensures { IsTrue result ↔ ((end.nodes ≤ length nodes.now) × (end.literals ≤ length literals.now)) }
{
    end.nodes <= nodes.len() && end.literals <= literals.len()
}

#[inline(always)]
pub fn report_of(value: usize, bytes: usize, end: WritePosition, written: bool) -> ReadReport
    ensures { result ≡ record {
      value = value;
      bytes = bytes;
      nodes = end.nodes;
      literals =
          end.literals;
      written = written;
    } }
{
    ReadReport {
        value,
        bytes,
        nodes: end.nodes,
        literals: end.literals,
        written,
    }
}
