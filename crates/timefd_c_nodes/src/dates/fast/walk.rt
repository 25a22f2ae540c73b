//! Nodes that are numbers and literal texts, from the first to the last.

ghost use Rattle.std.specs.Prelude.{◌≡◌, ◌<◌, IfSome};
ghost use Rattle.std.specs.Str.{IsAscii};
ghost use Rattle.timefd_c_nodes.specs.Dates.Shown.{AreShown, IsShown};
ghost use Rattle.timefd_c_nodes.specs.Dates.Taken as spec;
ghost use Rattle.timefd_c_nodes.specs.Dates.Taken.{IsTaken};

use crate::RawNode;
use crate::dates::fast::component::number_of;
use crate::dates::fast::literal::{begins, literal_of};
use timefd_date_moment::Moment;
use timefd_date_moment::fields::{NO_NUMBERS, Numbers, take_leaf};
use timefd_date_moment::reading::moment_of_numbers;
use timefd_lang_node_list::Leaf;

/// The number of literal texts, as a node says what it is.
const LITERAL: u8 = 1;

/// The number of components.
const COMPONENT: u8 = 2;

/// The number of members one after another.
const COMPOUND: u8 = 3;

/// The moment that a date shows by nodes, if each of them is a number, a literal text, or members in
/// turn. `None` says nothing about the nodes and the date.
#[inline(always)]
#[tactic(auto, using(crate::proofs::DatesLemmas::WalkLemmas::moment_read))]
pub fn moment_shown(nodes: &[RawNode], literals: &[u8], date: &[u8]) -> Option<Moment>
    ensures { IfSome result (IsShown nodes.now literals.now date.now) }
{
    if !date.is_ascii() {
        return None;
    }
    let numbers = numbers_shown(nodes, literals, date)?;
    moment_of_numbers(numbers)
}

/// What a node takes.
#[derive(Clone, Copy)]
pub struct Taken {
    /// How many bytes it reads.
    pub len: usize,
    /// The numbers with what it reads.
    pub numbers: Numbers,
    /// How many trees there are after it.
    pub count: usize,
}

/// The numbers that a date shows by nodes.
#[inline(always)]
#[tactic(auto, using(crate::proofs::DatesLemmas::WalkLemmas::none_read, crate::proofs::DatesLemmas::WalkLemmas::all_read))]
fn numbers_shown(nodes: &[RawNode], literals: &[u8], date: &[u8]) -> Option<Numbers>
    requires { IsAscii date.now }
    ensures { IfSome result (AreShown nodes.now literals.now date.now) }
{
    let mut left = date;
    let mut numbers = NO_NUMBERS;
    let mut count = 0;
    'nodes: for node in nodes {
        let taken = take_node(node, literals, left, numbers, count)?;
        left = &left[taken.len..];
        numbers = taken.numbers;
        count = taken.count;
    }
    if left.is_empty() { Some(numbers) } else { None }
}

/// What a node takes at the start, by itself: members of a compound were read before.
#[inline(always)]
#[tactic(auto, using(crate::proofs::DatesLemmas::StepLemmas::literal_taken, crate::proofs::DatesLemmas::StepLemmas::compound_taken))]
fn take_node(
    node: &RawNode,
    literals: &[u8],
    left: &[u8],
    numbers: Numbers,
    count: usize,
) -> Option<Taken>
    requires ascii { IsAscii left.now }
    requires few { count < 18446744073709551615 }
    ensures { IfSome result (IsTaken literals.now node.now left.now numbers count) }
{
    match node.what {
        COMPONENT => {
            let component = number_of(node)?;
            one_more(take_leaf(&Leaf::Component(component), left, numbers), count)
        }
        LITERAL => {
            let bytes = literal_of(node.start, node.count, literals)?;
            if begins(left, bytes) {
                Some(Taken {
                    len: bytes.len(),
                    numbers,
                    count: count + 1,
                })
            } else {
                None
            }
        }
        COMPOUND => {
            if node.count > count {
                return None;
            }
            Some(Taken {
                len: 0,
                numbers,
                count: count - node.count + 1,
            })
        }
        _ => None,
    }
}

/// What one tree more takes.
#[inline(always)]
fn one_more(read: Option<(usize, Numbers)>, count: usize) -> Option<Taken>
    requires { count < 18446744073709551615 }
    ensures { result ≡ spec.one_more read count }
{
    match read {
        Some((len, numbers)) => Some(Taken {
            len,
            numbers,
            count: count + 1,
        }),
        None => None,
    }
}
