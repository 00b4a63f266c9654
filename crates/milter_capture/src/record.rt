//! What a record of a capture is.

use crate::link_type::LinkType;

/// What the next record of a capture is.
#[derive(Clone, Copy)]
pub enum Record<'a> {
    /// There is none.
    End,
    /// A record that has no frame.
    Other,
    /// A frame.
    Frame(Frame<'a>),
}

/// A frame, as the capture has it.
#[derive(Clone, Copy)]
pub struct Frame<'a> {
    /// When it was captured, in nanoseconds since 1970.
    pub time: u64,
    /// What its bytes begin with.
    pub link: LinkType,
    /// Its bytes, up to what was captured of it.
    pub bytes: &'a [u8],
}
