//! Why a description is not printed.

use std::alloc::AllocError;

/// Why no text of version 3 spells a description. One that was read has no such reason.
#[derive(Debug, Clone, Copy, PartialEq, Eq)]
pub enum Unspelled {
    /// A description is nested in more than 127 others.
    TooDeep,
    /// A member of a compound is a compound.
    InnerCompound,
    /// A compound has only one member.
    LoneMember,
    /// A first has no alternative.
    NoAlternative,
    /// A literal has no bytes.
    EmptyLiteral,
    /// A literal has a `[`, a `]` or a backslash, and other bytes.
    MixedLiteral,
    /// Two literals are side by side, and neither is a `[`, a `]` or a backslash.
    NeighbouringLiterals,
    /// A component is deprecated.
    DeprecatedComponent,
}

/// Why a description is not printed.
#[derive(Debug, Clone, Copy)]
pub enum PrintError {
    /// No text spells the description, for this reason.
    Unspelled(Unspelled),
    /// Memory ran out. Some text spells the description.
    Memory(AllocError),
}
