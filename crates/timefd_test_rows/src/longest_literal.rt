//! A caller of `walk`, proved: it looks at each part of a description for the longest literal.

ghost use Rattle.std.specs.Prelude.{◌≡◌};
ghost use Rattle.timefd_items.specs.Description.{description_tree};
ghost use Rattle.timefd_lang_node_list.specs.Views.{view_tree, walked};
ghost use Rattle.timefd_test_rows.specs.Longest.{literal_bytes, longest};

use timefd_items::{FormatDescriptionV3, Shape, View};

/// How many bytes the longest literal has, or 0 if there is none.
pub fn longest_literal(description: &FormatDescriptionV3<'_>) -> usize
    ensures { result ≡ longest (walked (description_tree description.now)) }
{
    let mut bytes = 0;
    'parts: for part in description.view().walk() {
        bytes = bytes.max(literal_len(part));
    }
    bytes
}

/// How many bytes a part has if it is a literal, and otherwise 0.
fn literal_len(part: View<'_, '_>) -> usize
    ensures { result ≡ literal_bytes (view_tree part.entry) }
{
    match part.shape() {
        Shape::Literal(text) => text.len(),
        Shape::Component(_) | Shape::Compound(_) | Shape::Optional { .. } | Shape::First(_) => 0,
    }
}
