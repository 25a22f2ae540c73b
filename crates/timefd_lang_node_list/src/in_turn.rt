//! The members of a part of a description, one after another. This is this port's own.

ghost use Rattle.std.specs.Prelude.{◌≡◌, ◌+◌, ◌<◌, ◌≤◌, length};
ghost use Rattle.timefd_lang_node_list.specs.Views.{AreMarks, AreMarks-prop, IsMark, member_trees};

use crate::members::{Mark, Members};
use crate::view::View;

/// How many marks are kept. Each halves what is left, so a million members need no more. The marks are on the
/// stack of every caller that walks members within members.
const MARKS: usize = 20;

/// Members one after another, from the first on. They are found from the last one back, so positions passed
/// on the way are kept, each half as far away as the one before it. All of `n` members take `n log n` steps;
/// of more than a million members, each takes as many steps as a millionth of them. It takes no memory but
/// its own.
#[derive(Clone, Copy)]
pub struct InTurn<'v, 'a> {
    // The members that are left.
    members: Members<'v, 'a>,
    // Where some of them begin, the next one last in the array.
    marks: [Mark; MARKS],
    len: usize,
    ghost size: { length marks ≡ 20 },
    ghost room: { len ≤ 20 },
    ghost marked: { AreMarks (member_trees members) marks } by { AreMarks-prop (member_trees members) marks },
}

impl<'v, 'a> InTurn<'v, 'a> {
    ghost use Rattle.timefd_lang_node_list.specs.Turns.{turn_trees};

    #[tactic(auto, using(crate::proofs::TurnLemmas::end_marks))]
    pub(crate) fn new(members: Members<'v, 'a>) -> Self
        ensures { turn_trees result ≡ member_trees members.entry }
    {
        InTurn {
            members,
            marks: [Mark { count: 0, nodes: 0 }; MARKS],
            len: 0,
        }
    }

    /// Takes the next mark off. If there is none, the mark is the end of all members.
    #[tactic(auto, using(crate::proofs::TurnLemmas::end_mark))]
    fn pop(&mut self) -> Mark
        requires { 0 < length (member_trees self.old.members) }
        ensures there { result.count < length (member_trees self.old.members) }
        ensures marked { IsMark (member_trees self.old.members) result }
        ensures same { self.new.members ≡ self.old.members }
    {
        if self.len > 0 {
            self.len -= 1;
            let mark = self.marks[self.len];
            if mark.count < self.members.len() {
                return mark;
            }
        }
        Mark { count: 0, nodes: 0 }
    }

    /// Keeps a mark, if there is room.
    fn push(&mut self, mark: Mark)
        requires { IsMark (member_trees self.old.members) mark }
        ensures { self.new.members ≡ self.old.members }
    {
        if self.len < MARKS {
            self.marks[self.len] = mark;
            self.len += 1;
        }
    }

    /// The mark after the first member. Marks passed on the way are kept.
    fn after_first(&mut self) -> Mark
        requires { 0 < length (member_trees self.old.members) }
        ensures count { result.count + 1 ≡ length (member_trees self.old.members) }
        ensures marked { IsMark (member_trees self.old.members) result }
        ensures same { self.new.members ≡ self.old.members }
    {
        let mut mark = self.pop();
        'halves: while self.members.len() - mark.count > 1 {
            self.push(mark);
            let left = self.members.len() - mark.count;
            mark = self.members.mark_before(mark, left / 2);
        }
        mark
    }
}

impl<'v, 'a> Iterator for InTurn<'v, 'a> {
    ghost use Rattle.std.specs.Iterator.{YieldsFirstBy, item_count};
    ghost use Rattle.timefd_lang_node_list.specs.Turns.{turn_trees};
    ghost use Rattle.timefd_lang_node_list.specs.Views.{view_tree};

    type Item = View<'v, 'a>;

    ghost next_gives = { YieldsFirstBy view_tree turn_trees };

    ghost remaining = { item_count turn_trees };

    fn next(&mut self) -> Option<View<'v, 'a>> {
        if self.members.is_empty() {
            return None;
        }
        let mark = self.after_first();
        let (first, others) = self.members.split_at_mark(mark);
        self.members = others;
        Some(first.only())
    }
}
