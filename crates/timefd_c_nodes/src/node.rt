//! One node, as C sees it.

ghost use Rattle.std.specs.Prelude.{◌≡◌};
ghost use Rattle.timefd_c_nodes.specs.Encoding as spec;

/// What a node is: bytes of the buffer of literals.
pub const LITERAL: u8 = 1;

/// What a node is: a component with its modifiers.
pub const COMPONENT: u8 = 2;

/// What a node is: its members, one after another.
pub const COMPOUND: u8 = 3;

/// What a node is: its one member, which a parser may skip.
pub const OPTIONAL: u8 = 4;

/// What a node is: its members as alternatives.
pub const FIRST: u8 = 5;

/// What a node is: a composite letter of strftime, whose members are elsewhere.
pub const COMPOSITE: u8 = 6;

/// A part of a description. A field that doesn't apply to such a part is 0.
#[repr(C)]
#[derive(Debug, Clone, Copy, PartialEq, Eq)]
pub struct RawNode {
    /// What the node is: one of the six numbers.
    pub what: u8,
    /// Which component: 1 to 37, in the order of `Component`.
    pub component: u8,
    /// The padding of a component: 1 spaces, 2 zeros, 3 none.
    pub padding: u8,
    /// Whether a component always shows its sign: 1 no, 2 yes.
    pub sign_is_mandatory: u8,
    /// Whether a component is read in its own case only: 1 no, 2 yes.
    pub case_sensitive: u8,
    /// Whether a component counts days of the week from one: 1 no, 2 yes.
    pub one_indexed: u8,
    /// Whether a component is shown in capitals: 1 no, 2 yes.
    pub is_uppercase: u8,
    /// The digits of a fraction of a second: 1 to 9, and 10 for one or more.
    pub digits: u8,
    /// What happens to input after the end: 1 it is refused, 2 it is dropped.
    pub trailing_input: u8,
    /// Whether a formatter writes an optional part: 1 no, 2 yes.
    pub format: u8,
    /// How many bytes a parser skips: 1 to 65535.
    pub ignored: u16,
    /// How many bytes are reserved for the node, at most `u32::MAX`.
    pub bytes: u32,
    /// The index of the first byte among the literals (of a literal), or of the first node of the
    /// members (of any other node; its own index if it has none). The members of a composite letter
    /// are among the nodes of another text.
    pub start: usize,
    /// How many bytes a literal has, or how many members any other node has.
    pub count: usize,
}

// `examples/timefd.h` declares it with this size.
const _: () = prove!(size_of::<RawNode>() == 32);

const _: () = prove!(align_of::<RawNode>() == 8);

impl RawNode {
    /// The node with this kind and nothing else.
    #[inline(always)]
    pub const fn blank(what: u8) -> RawNode
        ensures { result ≡ spec.blank what }
    {
        RawNode {
            what,
            component: 0,
            padding: 0,
            sign_is_mandatory: 0,
            case_sensitive: 0,
            one_indexed: 0,
            is_uppercase: 0,
            digits: 0,
            trailing_input: 0,
            format: 0,
            ignored: 0,
            bytes: 0,
            start: 0,
            count: 0,
        }
    }

    /// The node of a literal whose first byte has this index among the literals.
    #[inline(always)]
    pub fn literal(start: usize, len: usize) -> RawNode
        ensures { result ≡ spec.literal_node start len }
    {
        RawNode {
            bytes: shown_bytes(len),
            start,
            count: len,
            ..RawNode::blank(LITERAL)
        }
    }

    /// The node of members one after another.
    #[inline(always)]
    pub fn compound(start: usize, count: usize, bytes: usize) -> RawNode
        ensures { result ≡ spec.compound_node start count bytes }
    {
        RawNode {
            bytes: shown_bytes(bytes),
            start,
            count,
            ..RawNode::blank(COMPOUND)
        }
    }

    /// The node of a member that a parser may skip.
    #[inline(always)]
    pub fn optional(start: usize, format: bool, bytes: usize) -> RawNode
        ensures { result ≡ spec.optional_node start format bytes }
    {
        RawNode {
            format: flag_number(format),
            bytes: shown_bytes(bytes),
            start,
            count: 1,
            ..RawNode::blank(OPTIONAL)
        }
    }

    /// The node of alternatives.
    #[inline(always)]
    pub fn first(start: usize, count: usize, bytes: usize) -> RawNode
        ensures { result ≡ spec.first_node start count bytes }
    {
        RawNode {
            bytes: shown_bytes(bytes),
            start,
            count,
            ..RawNode::blank(FIRST)
        }
    }

    /// The node of a composite letter of strftime.
    #[inline(always)]
    pub fn composite(start: usize, count: usize, bytes: usize) -> RawNode
        ensures { result ≡ spec.composite_node start count bytes }
    {
        RawNode {
            bytes: shown_bytes(bytes),
            start,
            count,
            ..RawNode::blank(COMPOSITE)
        }
    }
}

/// What the `bytes` field of a node says if this many bytes are reserved for it.
#[inline(always)]
fn shown_bytes(bytes: usize) -> u32
    ensures { result ≡ spec.shown_bytes bytes }
{
    u32::try_from(bytes).unwrap_or(u32::MAX)
}

/// The number of a flag. A node without the flag has 0.
#[inline(always)]
pub fn flag_number(flag: bool) -> u8
    ensures { result ≡ spec.flag_number flag }
{
    if flag { 2 } else { 1 }
}
