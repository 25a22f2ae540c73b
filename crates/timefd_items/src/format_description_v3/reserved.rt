//! How many bytes a description reserves.

ghost use Rattle.std.specs.Prelude.{◌≡◌, map};
ghost use Rattle.timefd_items.specs.Meaning.{inner_tree};
ghost use Rattle.timefd_lang_component.specs.Reserved.{reserve, reserve_all, within};
ghost use Rattle.timefd_lang_component.specs.Tree.{trees};

use super::content::Content;
use super::inner::FormatDescriptionV3Inner;
use timefd_lang_component::reserved::reserved_bytes;

fn up_to(bytes: usize, limit: usize) -> Option<usize>
    ensures { result ≡ within limit bytes }
{
    if bytes <= limit { Some(bytes) } else { None }
}

impl FormatDescriptionV3Inner<'_> {
    /// The reserved bytes, if they are at most `limit`.
    #[cycle(bytes)]
    pub fn bytes_within(&self, limit: usize) -> Option<usize>
        ensures { result ≡ within limit (reserve (inner_tree self.now)) }
    {
        match self.content() {
            Content::Component(component) => up_to(reserved_bytes(component), limit),
            Content::Literal(text) => up_to(text.len(), limit),
            Content::Compound(items) => Self::sum_within(items, limit),
            Content::Optional { format, item } => {
                if format {
                    item.bytes_within(limit)
                } else {
                    Some(0)
                }
            }
            Content::First(items) => match items {
                [] => Some(0),
                [first, ..] => first.bytes_within(limit),
            },
        }
    }

    #[cycle(bytes)]
    fn sum_within(items: &[Self], limit: usize) -> Option<usize>
        ensures { result ≡ within limit (reserve_all (trees (map inner_tree items.now))) }
    {
        let mut total: usize = 0;
        'items: for at in 0..items.len() {
            total += items[at].bytes_within(limit - total)?;
        }
        Some(total)
    }
}
