//! Literal texts.

ghost use Rattle.std.specs.List.{starts_with};
ghost use Rattle.std.specs.Prelude.{◌≡◌, IfSome, Some, eqb};
ghost use Rattle.timefd_c_nodes.specs.Formatting.Parts.{literal_role};
ghost use Rattle.timefd_lang_node_list.specs.Nodes.{text};

/// The bytes of a literal, if all of them are there.
#[inline(always)]
pub fn literal_of(start: usize, count: usize, literals: &[u8]) -> Option<&[u8]>
    ensures { IfSome result (λ bytes. literal_role start count literals.now ≡ Some (text bytes.now)) }
{
    if start > literals.len() || count > literals.len() - start {
        return None;
    }
    Some(&literals[start..start + count])
}

/// Whether a text begins with a literal. Most literals have one byte.
#[inline(always)]
pub fn begins(left: &[u8], literal: &[u8]) -> bool
    ensures { result ≡ starts_with eqb left.now literal.now }
{
    match (literal, left) {
        ([byte], [first, ..]) => first == byte,
        _ => left.starts_with(literal),
    }
}
