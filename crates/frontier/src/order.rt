// The order in which nodes come out: by key, and of equal keys by number.
ghost use Rattle.std.specs.Prelude.{◌<◌, length, MatchBool};
ghost use Rattle.frontier.specs.Keys.{IsFirstKey};
ghost use Rattle.frontier.specs.Heap.{ComesOutFirst};

/// Whether the first of two nodes below the room comes out before the second. They differ.
pub fn comes_first(keys: &[i128], node: u32, other: u32) -> bool
    requires node { node < length keys.now }
    requires other { other < length keys.now }
    ensures { MatchBool result (ComesOutFirst keys.now node other) (ComesOutFirst keys.now other node) }
{
    is_before(keys[node as usize], node, keys[other as usize], other)
}

fn is_before(key: i128, node: u32, other_key: i128, other: u32) -> bool
    ensures { MatchBool result (IsFirstKey key node other_key other) (IsFirstKey other_key other key node) }
{
    key < other_key || (key == other_key && node < other)
}
