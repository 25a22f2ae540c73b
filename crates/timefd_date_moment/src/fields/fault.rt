//! Why a text can't be read.

use timefd_lang_component::Component;

/// Why a text can't be read, and where.
#[derive(Debug, Clone, Copy)]
pub struct ReadError {
    pub reason: UnreadReason,
    /// The byte index in the text where the part begins that can't be read.
    pub index: usize,
}

/// Why a text can't be read.
#[derive(Debug, Clone, Copy)]
pub enum UnreadReason {
    /// What follows in the text is nothing that this component reads.
    Unread(Component),
    /// This component was read before, and reads another value here.
    Contradiction(Component),
    /// What follows in the text isn't this literal text of the description.
    Literal,
    /// The description has been read, and text follows.
    Trailing,
}

/// Why a text can't be read, with the number of bytes that were left.
#[derive(Clone, Copy)]
pub(crate) struct FieldFault {
    pub reason: UnreadReason,
    pub left: usize,
}
