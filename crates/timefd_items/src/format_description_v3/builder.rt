//! Descriptions that are built part by part.

ghost use Rattle.std.specs.Prelude.{◌≡◌, ◌+◌, ◌-◌, ◌^◌, ◌≤◌, length};
ghost use Rattle.timefd_lang_node_list.specs.NodeTrees.{list_trees, node_count, room as list_room};
ghost use Rattle.timefd_lang_node_list.specs.Nodes.{largest};
ghost use Rattle.timefd_lang_node_list.specs.Tallies.{IsSum, IsSum-prop};

use super::FormatDescriptionV3;
use std::alloc::{AllocError, Global};
use timefd_lang_component::Component;
use timefd_lang_node_list::node_list::NodeList;
use timefd_lang_node_list::tally::ending_tally;

/// A description that is built part by part. It holds trees side by side: literals and components
/// are added to them, and the last ones are made into one. An `Err` says that memory ran out, and
/// leaves the trees as they were. This type is this port's own.
#[derive(Drop)]
pub struct DescriptionBuilder<'a> {
    list: NodeList<'a>,
    // How many nodes are inside of trees. Adding a part doesn't change that.
    inner: usize,
    // Whether it is known how many bytes all trees reserve, and if so that number, at most
    // `usize::MAX`.
    known: bool,
    bytes: usize,
    ghost counted: { inner + length (list_trees list) ≡ node_count list },
    // So the sum of what their nodes keep is the sum of what they reserve.
    ghost each_fits: { largest (list_trees list) ≤ 2 ^ 64 - 1 },
    ghost summed: { IsSum (list_trees list) known bytes } by { IsSum-prop (list_trees list) known bytes },
}

impl<'a> DescriptionBuilder<'a> {
    ghost use Rattle.std.specs.Prelude.{◌≡◌, ◌++◌, ◌∷◌, [], ◌+◌, nat_le, IfOk, IsOk, OnErr, OnOk};
    ghost use Rattle.timefd_items.specs.Builder.{built, room};
    ghost use Rattle.timefd_items.specs.Description.{description_tree};
    ghost use Rattle.timefd_lang_component.specs.Modern.{modern};
    ghost use Rattle.timefd_lang_node_list.specs.Nodes.{before, ending};
    ghost use Rattle.timefd_lang_component.specs.Reserved.{reserve_all};
    ghost use Rattle.timefd_lang_component.specs.Tree as spec;
    ghost use Rattle.timefd_lang_component.specs.Tree.{first, literal, optional, pack, trees};

    /// No trees. It takes no memory.
    pub fn new(alloc: Global) -> Self
        ensures { built result ≡ [] }
    {
        DescriptionBuilder::empty(NodeList::new(alloc))
    }

    /// No trees, with room for `count` parts, for a caller who knows how many it will add. An `Err`
    /// says that memory ran out.
    pub fn with_capacity(alloc: Global, count: usize) -> Result<Self, AllocError>
        ensures empty { IfOk result (λ builder. built builder ≡ []) }
        ensures room { IfOk result (λ builder. count ≤ room builder) }
        ensures no_memory { count ≡ 0 → IsOk result }
    {
        let list = NodeList::with_capacity(alloc, count)?;
        Ok(DescriptionBuilder::empty(list))
    }

    fn empty(list: NodeList<'a>) -> Self
        requires trees { list_trees list ≡ [] }
        requires nodes { node_count list ≡ 0 }
        ensures empty { built result ≡ [] }
        ensures room { room result ≡ list_room list.entry }
    {
        DescriptionBuilder {
            list,
            inner: 0,
            known: true,
            bytes: 0,
        }
    }

    /// Makes room for `count` parts at once, for a caller who knows how many it will add: literals,
    /// components, and trees made from the last ones. Without this call the room grows as needed.
    pub fn reserve(&mut self, count: usize) -> Result<(), AllocError>
        ensures kept { built self.new ≡ built self.old }
        ensures no_memory { count ≡ 0 → IsOk result }
        ensures room { OnOk result (count ≤ room self.new) }
        ensures grows { room self.old ≤ room self.new }
        ensures succeeds { count ≤ room self.old → IsOk result }
    {
        self.list.reserve(count)
    }

    /// For how many more parts there is room: this many calls that add a part, or make one from the
    /// last ones, take no memory.
    pub fn room(&self) -> usize
        ensures { result ≡ room self.now }
    {
        self.list.room()
    }

    /// How many trees there are.
    pub fn len(&self) -> usize
        ensures { result ≡ length (built self.now) }
    {
        self.list.node_count() - self.inner
    }

    /// Whether the bytes that the last `count` trees reserve fit a `usize`.
    pub fn fits(&self, count: usize) -> bool
        requires { count ≤ length (built self.now) }
        ensures { result ≡ nat_le (reserve_all (trees (ending count (built self.now)))) usize.MAX }
    {
        ending_tally(self.list.nodes(), count).bytes.is_some()
    }

    /// Adds a literal.
    pub fn literal(&mut self, text: &'a str) -> Result<(), AllocError>
        ensures added { OnOk result (built self.new ≡ built self.old ++ literal text.now ∷ []) }
        ensures kept { OnErr result (built self.new ≡ built self.old) }
        ensures uses { room self.old ≤ room self.new + 1 }
        ensures succeeds { 1 ≤ room self.old → IsOk result }
    {
        self.list.reserve(1)?;
        self.list.literal(text);
        self.bytes = self.bytes.saturating_add(text.len());
        Ok(())
    }

    /// Adds a component, in its modern form.
    pub fn component(&mut self, component: Component) -> Result<(), AllocError>
        ensures added { OnOk result
            (built self.new ≡ built self.old ++ spec.component (modern component) ∷ []) }
        ensures kept { OnErr result (built self.new ≡ built self.old) }
        ensures uses { room self.old ≤ room self.new + 1 }
        ensures succeeds { 1 ≤ room self.old → IsOk result }
    {
        self.list.reserve(1)?;
        let bytes = self.list.component(component);
        self.bytes = self.bytes.saturating_add(bytes);
        Ok(())
    }

    /// Makes the last `count` trees one. A single tree stays as it is and takes no memory; any
    /// other number of trees becomes their compound. The bytes that they reserve have to fit a
    /// `usize`.
    #[tactic(auto, using(crate::proofs::BuilderLemmas::one_stays))]
    pub fn pack(&mut self, count: usize) -> Result<(), AllocError>
        requires there { count ≤ length (built self.old) }
        requires fits { reserve_all (trees (ending count (built self.old))) ≤ usize.MAX }
        ensures packed { OnOk result
            (built self.new ≡ before count (built self.old) ++ pack
            (ending count (built self.old)) ∷ []) }
        ensures kept { OnErr result (built self.new ≡ built self.old) }
        ensures one { count ≡ 1 → IsOk result }
        ensures uses { room self.old ≤ room self.new + 1 }
        ensures succeeds { 1 ≤ room self.old → IsOk result }
    {
        if count == 1 {
            return Ok(());
        }
        self.list.reserve(1)?;
        self.list.compound(count);
        self.inner += count;
        Ok(())
    }

    /// Makes the last tree one that a parser may skip. `format` says whether a formatter writes it.
    pub fn optional(&mut self, format: bool) -> Result<(), AllocError>
        requires { 1 ≤ length (built self.old) }
        ensures made { OnOk result (built self.new ≡ before 1 (built self.old) ++ optional format
            (pack (ending 1 (built self.old))) ∷ []) }
        ensures kept { OnErr result (built self.new ≡ built self.old) }
        ensures uses { room self.old ≤ room self.new + 1 }
        ensures succeeds { 1 ≤ room self.old → IsOk result }
    {
        self.list.reserve(1)?;
        self.list.optional(format);
        self.inner += 1;
        self.known &= format;
        Ok(())
    }

    /// Makes the last `count` trees the alternatives of one tree.
    pub fn first(&mut self, count: usize) -> Result<(), AllocError>
        requires { count ≤ length (built self.old) }
        ensures made { OnOk result (built self.new ≡ before count (built self.old) ++ first
            (trees (ending count (built self.old))) ∷ []) }
        ensures kept { OnErr result (built self.new ≡ built self.old) }
        ensures uses { room self.old ≤ room self.new + 1 }
        ensures succeeds { 1 ≤ room self.old → IsOk result }
    {
        self.list.reserve(1)?;
        self.list.first(count);
        self.inner += count;
        self.known = false;
        Ok(())
    }

    /// The description of all trees as one, whose reserved bytes have to fit a `usize`. A
    /// description of no trees takes no memory. An `Err` says that memory ran out, and drops the
    /// trees.
    pub fn finish(self) -> Result<FormatDescriptionV3<'a>, AllocError>
        requires { reserve_all (trees (built self)) ≤ usize.MAX }
        ensures ok { IfOk result (λ description. description_tree description ≡ pack
            (built self.entry)) }
        ensures empty { built self.entry ≡ [] → IsOk result }
        ensures succeeds { 1 ≤ room self.entry → IsOk result }
    {
        let DescriptionBuilder {
            mut list,
            inner,
            known,
            bytes,
        } = self;
        let len = list.node_count() - inner;
        if len > 1 {
            list.reserve(1)?;
            if known {
                list.compound_of_all(len, bytes);
            } else {
                list.compound(len);
            }
        }
        Ok(FormatDescriptionV3 { list })
    }
}
