// What a row says of one node.
ghost use Rattle.std.specs.Prelude.{◌≡◌};
ghost use Rattle.row_pool.specs.Row.{unknown};
ghost use Rattle.row_pool.specs.Reach.{known_reach};

/// What stands for the number of an arc where there is none: a graph has far fewer arcs.
pub const NO_PARENT: u32 = u32::MAX;

/// The distance of one node in a row.
#[derive(Clone, Copy, Debug, PartialEq, Eq)]
pub struct Cell {
    /// In units of 1e-9 ns, where it is known.
    pub value: i128,
    /// The number of the arc between this node and its parent in the tree of shortest paths; `NO_PARENT` at the root
    /// and where there is no path.
    pub parent: u32,
    /// Whether there is a path.
    pub known: bool,
}

impl Cell {
    /// The cell of a node that no path reaches: its value is 0, and it has no parent.
    pub fn unknown() -> Cell
        ensures { result ≡ unknown }
    {
        Cell {
            value: 0,
            parent: NO_PARENT,
            known: false,
        }
    }

    /// The greatest difference that the row tells of the node: its distance, or none where no path reaches it.
    pub fn reach(&self) -> Reach
        ensures { result ≡ known_reach self.now.known self.now.value }
    {
        if self.known {
            Reach::At(self.value)
        } else {
            Reach::Never
        }
    }
}

/// The greatest difference of two real times, over all executions.
#[derive(Clone, Copy, Debug, PartialEq, Eq)]
pub enum Reach {
    /// It is this, in units of 1e-9 ns.
    At(i128),
    /// There is none: executions pass every number.
    Never,
}

/// The greatest differences of two nodes p and q in both directions.
#[derive(Clone, Copy, Debug, PartialEq, Eq)]
pub struct Pair {
    /// Of `x_q - x_p`.
    pub up: Reach,
    /// Of `x_p - x_q`.
    pub down: Reach,
}
