//! The members of a part of a description, looked at in place. This is this port's own.

ghost use Rattle.std.specs.Prelude.{◌≡◌, ◌+◌, ◌++◌, ◌∷◌, ◌≤◌, ◌↔◌, [], IsTrue, MatchOption, length, map};
ghost use Rattle.timefd_lang_node_list.specs.Nodes.{Fit, Fit-prop, before, ending, grown_by, part};

use crate::in_turn::InTurn;
use crate::node::Node;
use crate::tally::ending_tally;
use crate::view::View;

/// Descriptions side by side: the members of a compound, or alternatives. They borrow the
/// description, take no memory, and may be copied.
#[derive(Clone, Copy)]
pub struct Members<'v, 'a> {
    // Their nodes, each member's after those of the member before it.
    nodes: &'v [Node<'a>],
    count: usize,
    ghost fit: { Fit [] (map part nodes.now) } by { Fit-prop [] (map part nodes.now) },
    ghost counted: { count ≡ length (grown_by [] (map part nodes.now)) },
}

/// A position among members: how many members there are from it on, and how many nodes those have.
#[derive(Clone, Copy)]
pub struct Mark {
    pub count: usize,
    pub nodes: usize,
}

impl<'v, 'a> Members<'v, 'a> {
    ghost use Rattle.timefd_lang_node_list.specs.Turns.{turn_trees};
    ghost use Rattle.timefd_lang_node_list.specs.Views.{IsMark, member_trees, view_tree};

    pub(crate) fn new(nodes: &'v [Node<'a>], count: usize) -> Self
        requires fit { Fit [] (map part nodes.now) }
        requires counted { count ≡ length (grown_by [] (map part nodes.now)) }
        ensures { member_trees result ≡ grown_by [] (map part nodes.now) }
    {
        Members { nodes, count }
    }

    /// How many members there are.
    pub fn len(self) -> usize
        ensures { result ≡ length (member_trees self.entry) }
    {
        self.count
    }

    /// Whether there are none.
    pub fn is_empty(self) -> bool
        ensures { IsTrue result ↔ (member_trees self.entry ≡ []) }
    {
        self.count == 0
    }

    /// Each member, one after another, from the first on.
    #[inline(never)]
    pub fn in_turn(self) -> InTurn<'v, 'a>
        ensures { turn_trees result ≡ member_trees self.entry }
    {
        InTurn::new(self)
    }

    /// The last member, and those before it. `None` if there are none. It takes the same time
    /// however many members there are.
    pub fn split_last(self) -> Option<(Self, View<'v, 'a>)>
        ensures { MatchOption result (member_trees self.entry ≡ [])
            (λ r. member_trees self.entry ≡ member_trees r.0 ++ view_tree r.1 ∷ []) }
    {
        if self.count == 0 {
            return None;
        }
        let (front, last) = self.split_ending(1);
        Some((front, last.only()))
    }

    pub(crate) fn only(self) -> View<'v, 'a>
        requires { length (member_trees self) ≡ 1 }
        ensures { member_trees self.entry ≡ view_tree result ∷ [] }
    {
        View::new(self.nodes)
    }

    /// Two parts, of which the second has the last `count` members. It goes back over those.
    pub fn split_ending(self, count: usize) -> (Self, Self)
        requires { count ≤ length (member_trees self) }
        ensures front { member_trees result.0 ≡ before count (member_trees self.entry) }
        ensures after { member_trees result.1 ≡ ending count (member_trees self.entry) }
    {
        let nodes = ending_tally(self.nodes, count).nodes;
        self.split_at_mark(Mark { count, nodes })
    }

    /// The members before a mark, and those after it.
    pub(crate) fn split_at_mark(self, mark: Mark) -> (Self, Self)
        requires there { mark.count ≤ length (member_trees self) }
        requires marked { IsMark (member_trees self) mark }
        ensures front { member_trees result.0 ≡ before mark.count (member_trees self.entry) }
        ensures after { member_trees result.1 ≡ ending mark.count (member_trees self.entry) }
    {
        let (front, after) = self.nodes.split_at(self.nodes.len() - mark.nodes);
        (
            Members::new(front, self.count - mark.count),
            Members::new(after, mark.count),
        )
    }

    /// The mark `count` members before another.
    pub(crate) fn mark_before(self, mark: Mark, count: usize) -> Mark
        requires there { mark.count + count ≤ length (member_trees self) }
        requires marked { IsMark (member_trees self) mark }
        ensures count { result.count ≡ mark.count + count }
        ensures marked { IsMark (member_trees self.entry) result }
    {
        let (front, _) = self.split_at_mark(mark);
        Mark {
            count: mark.count + count,
            nodes: mark.nodes + ending_tally(front.nodes, count).nodes,
        }
    }
}
