// What is said of interfaces and packets.

/// An interface of a section.
#[derive(Clone, Copy, Debug)]
pub struct InterfaceText<'a> {
    /// Its link type.
    pub link: u16,
    /// Its name (if_name).
    pub name: &'a [u8],
    /// What there is to say of it (if_description).
    pub description: &'a [u8],
}

/// A packet of a section.
#[derive(Clone, Copy, Debug)]
pub struct PacketText<'a> {
    /// The number of its interface, from 0 on.
    pub interface: u32,
    /// Its date in ns since 1970.
    pub stamp: u64,
    /// How many bytes it had.
    pub original: u32,
    /// Its first bytes, as many as were captured.
    pub bytes: &'a [u8],
    /// A line on it (opt_comment); none where it has no byte.
    pub comment: &'a [u8],
}
