// What a row says of single nodes.
use row_pool::{Cell, Reach};
use std::test::*;

// The distance that a cell tells.
fn told(value: i128, known: bool) -> Reach {
    let cell = Cell {
        value,
        parent: 7,
        known,
    };
    cell.reach()
}

// Whether cells tell their distances, and one that is not known tells none.
fn cells_tell() -> bool {
    Cell::unknown().reach() == Reach::Never
        && Cell::unknown().parent == u32::MAX
        && told(0, true) == Reach::At(0)
        && told(-5, true) == Reach::At(-5)
        && told(5, false) == Reach::Never
}

#[test]
fn cells_tell_distances(rt: HostRuntime) {
    assert!(rt; cells_tell());
}
