//! The nodes of a description as objects.

ghost use Rattle.std.specs.Prelude.{◌≡◌, IfOk};
ghost use Rattle.timefd_web.specs.Objects as spec;

use crate::records::Record;
use std::alloc::{AllocError, Global};
use timefd_lint_drawing::json::{push_number, push_text};
use timefd_lint_explain::{NodeKind, ShownNode};

impl Record for ShownNode {
    ghost object_text = { spec.node };

    fn object(&self, alloc: Global) -> Result<Vec<u8>, AllocError> {
        node_object(alloc, self)
    }
}

fn node_object(alloc: Global, node: &ShownNode) -> Result<Vec<u8>, AllocError>
    ensures { IfOk result (λ object. object.items ≡ spec.node node.now) }
{
    let mut out = Vec::new(alloc);
    push_number(alloc, &mut out, "{\"depth\":", node.depth as u64)?;
    push_number(alloc, &mut out, ",\"start\":", node.start as u64)?;
    push_number(alloc, &mut out, ",\"end\":", node.end as u64)?;
    push_number(alloc, &mut out, ",\"bytes\":", node.bytes as u64)?;
    push_text(&mut out, ",\"kind\":", kind_name(node.kind))?;
    push_text(&mut out, ",\"words\":", &node.words)?;
    push_text(&mut out, ",\"example\":", &node.example)?;
    out.extend_from_slice(b"}")?;
    Ok(out)
}

fn kind_name(kind: NodeKind) -> &'static str
    ensures { result.now ≡ spec.kind_name kind }
{
    match kind {
        NodeKind::Literal => "literal",
        NodeKind::Component => "component",
        NodeKind::Optional => "optional",
        NodeKind::First => "first",
        NodeKind::Several => "several",
        NodeKind::Description => "description",
    }
}
