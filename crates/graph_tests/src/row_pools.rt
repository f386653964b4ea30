// Rows that are taken, written and given back, and a pool that grows around them.
use row_pool::{Cell, RowId, RowPool};
use std::alloc::AllocError;

// Writes a distance into a row, at a place that it has.
fn write(pool: &mut RowPool, id: &RowId, place: usize, distance: i128) -> bool {
    if !pool.is_taken(id) {
        return false;
    }
    match pool.row_mut(id).get_mut(place) {
        Some(cell) => {
            *cell = Cell {
                value: distance,
                parent: 4,
                known: true,
            };
            true
        }
        None => false,
    }
}

// The distance that stands at a place of a row, if one does.
fn distance_at(pool: &RowPool, id: &RowId, place: usize) -> Option<i128> {
    if !pool.is_taken(id) {
        return None;
    }
    match pool.row(id).get(place) {
        Some(cell) if cell.known => Some(cell.value),
        _ => None,
    }
}

// Whether each cell of a row from a place on is unknown.
fn unknown_from(pool: &RowPool, id: &RowId, place: usize) -> bool {
    if !pool.is_taken(id) {
        return false;
    }
    let row = pool.row(id);
    for k in place..row.len() {
        if row[k] != Cell::unknown() {
            return false;
        }
    }
    true
}

// Puts a distance into the first cell of each of two rows.
fn write_two(pool: &mut RowPool, one: &RowId, two: &RowId) -> bool {
    if one == two || !pool.is_taken(one) || !pool.is_taken(two) {
        return false;
    }
    pool.two_mut(one, two, |from, to| {
        if let Some(cell) = from.first_mut() {
            cell.value = 5;
        }
        if let Some(cell) = to.first_mut() {
            cell.value = 6;
        }
    });
    true
}

// Writes distances into two rows of three cells.
fn fill(pool: &mut RowPool, one: &RowId, two: &RowId) -> bool {
    write(pool, one, 0, 7)
        && write(pool, one, 2, -1)
        && write(pool, two, 0, 8)
        && write(pool, two, 1, 9)
        && write(pool, two, 2, 10)
}

// Whether these distances stand there in wider rows, and all that is new is unknown.
fn is_kept(pool: &RowPool, one: &RowId, two: &RowId) -> bool {
    distance_at(pool, one, 0) == Some(7)
        && distance_at(pool, one, 2) == Some(-1)
        && distance_at(pool, two, 1) == Some(9)
        && distance_at(pool, two, 2) == Some(10)
        && unknown_from(pool, one, 3)
        && unknown_from(pool, two, 3)
}

// Whether two rows of three cells keep their distances in a pool of three rows of five.
fn keeps_rows(pool: &mut RowPool, one: &RowId, two: &RowId) -> Result<bool, AllocError> {
    let filled = fill(pool, one, two);
    pool.reserve(3, 5)?;
    Ok(filled && pool.free() == 1 && pool.width() == 5 && is_kept(pool, one, two))
}

// Two rows of a pool, where so many are free.
fn take_two(pool: &mut RowPool) -> Option<(RowId, RowId)> {
    let one = pool.take()?;
    let two = pool.take()?;
    Some((one, two))
}

// Whether a new pool keeps its two rows as it grows.
fn grows(pool: &mut RowPool) -> Result<bool, AllocError> {
    pool.reserve(2, 3)?;
    if pool.free() != 2 || pool.width() != 3 {
        return Ok(false);
    }
    match take_two(pool) {
        Some((one, two)) => Ok(pool.take().is_none() && keeps_rows(pool, &one, &two)?),
        None => Ok(false),
    }
}

// Old cells stay when more rows and wider ones are made, and all that is new is unknown and free.
#[test]
fn growing_keeps_taken_rows(rt: HostRuntime) {
    let mut pool = RowPool::new(rt.alloc());
    assert!(rt; grows(&mut pool) == Ok(true));
}

// Whether the one row of a pool is free once it is given back.
fn gives_back(pool: &mut RowPool) -> Result<bool, AllocError> {
    pool.reserve(1, 2)?;
    let Some(one) = pool.take() else {
        return Ok(false);
    };
    if !pool.is_taken(&one) || pool.free() != 0 {
        return Ok(false);
    }
    pool.give(one);
    Ok(pool.free() == 1 && pool.take().is_some())
}

// A row that is given back is free, and the next one that is taken.
#[test]
fn a_row_is_given_back(rt: HostRuntime) {
    let mut pool = RowPool::new(rt.alloc());
    assert!(rt; gives_back(&mut pool) == Ok(true));
}

// Whether two rows are written one by one, and then at once.
fn writes_both(pool: &mut RowPool, one: &RowId, two: &RowId) -> bool {
    write(pool, one, 0, 1)
        && write(pool, two, 0, 2)
        && write_two(pool, two, one)
        && !write_two(pool, one, one)
        && distance_at(pool, one, 0) == Some(6)
        && distance_at(pool, two, 0) == Some(5)
}

// The same of the rows of a new pool.
fn writes_two(pool: &mut RowPool) -> Result<bool, AllocError> {
    pool.reserve(2, 2)?;
    match take_two(pool) {
        Some((one, two)) => Ok(writes_both(pool, &one, &two)),
        None => Ok(false),
    }
}

// Two rows are written at once, whichever comes first.
#[test]
fn two_rows_are_written(rt: HostRuntime) {
    let mut pool = RowPool::new(rt.alloc());
    assert!(rt; writes_two(&mut pool) == Ok(true));
}
