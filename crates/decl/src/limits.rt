// How much a declaration may say.

// How many bytes a document has at most. It is held in memory whole, beside its values.
pub(crate) const MOST_BYTES: usize = 1 << 24;

// How many hosts, labels and links there may be each: as many as a problem has clocks, since each host has one or more.
pub(crate) const MOST_ENTRIES: u32 = 65_536;

// How many bytes of a payload belong to the key of a packet at most: as many as a key has room for.
pub(crate) const MOST_PAYLOAD: u64 = 64;

// By how many parts per billion a clock may be short at most: real time never stands still.
pub(crate) const MOST_SHORT: u64 = 999_999_999;

// By how many parts per billion it may be long at most: real time is never more than twice what it shows.
pub(crate) const MOST_LONG: u64 = 1_000_000_000;

// How many subnets a label may give: each is looked at for each address of a packet.
pub(crate) const MOST_SUBNETS: usize = 256;

// Each number of an interface is at most this, for it has four bytes.
pub(crate) const MOST_INTERFACE: u64 = u32::MAX as u64;

// Each number of nanoseconds is below this, as those of `Nano` are.
pub(crate) const NANO_LIMIT: u64 = 1 << 62;
