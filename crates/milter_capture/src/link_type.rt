//! Link types: what stands before an IP packet in a frame.

/// What a frame begins with.
#[derive(Clone, Copy, Debug, PartialEq, Eq)]
pub enum LinkType {
    /// The address family as a number of 32 bits, on BSD's loopback.
    Loopback,
    /// Ethernet's addresses and its type.
    Ethernet,
    /// Nothing: the frame is an IP packet.
    Raw,
    /// What Linux has of a frame in a capture of all interfaces.
    Cooked,
    /// The second form of that.
    CookedAgain,
}

impl LinkType {
    /// The link type of this number in a capture; none where it isn't known here.
    pub(crate) fn of(number: u32) -> Option<LinkType> {
        match number {
            0 | 108 => Some(LinkType::Loopback),
            1 => Some(LinkType::Ethernet),
            12 | 14 | 101 | 228 | 229 => Some(LinkType::Raw),
            113 => Some(LinkType::Cooked),
            276 => Some(LinkType::CookedAgain),
            _ => None,
        }
    }
}
