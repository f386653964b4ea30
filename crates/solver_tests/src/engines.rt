// A graph of three events to which arcs come and from which they go: what is held of it then.
ghost use Rattle.std.specs.Prelude.{◌≡◌, ◌+◌, ◌<◌, ◌^◌, ◌++◌, ◌∷◌, [], true, All, IfOk, OnOk, length, ℤ, pos, neg_ℤ, ◌<ℤ◌, slice_get, Some};
ghost use Rattle.problem_model.specs.declared.items.Node.TheVariants.{Event};
ghost use Rattle.sync_graph.specs.Graph.{no_graph};
ghost use Rattle.row_pool.specs.Pool.{free_rows};
ghost use Rattle.solver.specs.Current.{IsCurrent};

use crate::fixtures::is_solved;
use atto::Steps;
use problem_model::{Bound, Node};
use row_pool::{Pair, Reach};
use solver::Solver;
use std::alloc::{AllocError, Global};
use std::marker::Brand;
use std::sync::ledger::{Blank, Ledger};
use std::test::*;
use sync_graph::Arc;

// An arc from one event to another, and its weight in units of 1e-9 ns.
type Link = (u32, u32, i32);

// Two messages from event 0 to event 1, of 20 to 30 units and of 20 at most; event 2 is 100 units behind event 0, and at
// most 85 behind event 1.
const LINKS: [Link; 6] = [
    (0, 1, 30),
    (1, 0, -20),
    (0, 1, 20),
    (0, 2, 100),
    (2, 0, -100),
    (1, 2, 85),
];

// Three events without arcs, and room for five rows.
fn begin(s: &mut Solver) -> Result<(), AllocError>
    requires current { IsCurrent s.old }
    requires graph { s.old.graph ≡ no_graph }
    requires rows { s.old.pool.rows ≡ [] }
    ensures current { OnOk result (IsCurrent s.new) }
    ensures nodes { OnOk result (s.new.graph.nodes ≡ Event 0 ∷ Event 1 ∷ Event 2 ∷ []) }
    ensures flags { OnOk result (s.new.graph.in_force ≡ []) }
    ensures free { OnOk result (free_rows s.new.pool ≡ 5) }
{
    s.reserve(5, 3)?;
    s.push_node(Node::Event(0))?;
    s.push_node(Node::Event(1))?;
    s.push_node(Node::Event(2))?;
    Ok(())
}

// Pushes an arc from one event to another.
fn add<L: Ledger>(
    s: &mut Solver,
    from: u32,
    to: u32,
    weight: i128,
    steps: &mut Steps<L>,
) -> Result<u32, AllocError>
    requires current { IsCurrent s.old }
    requires from { slice_get s.old.graph.nodes from ≡ Some (Event from) }
    requires to { slice_get s.old.graph.nodes to ≡ Some (Event to) }
    requires low { neg_ℤ (pos (2 ^ 93)) <ℤ weight }
    requires high { weight <ℤ pos (2 ^ 93) }
    requires few { length s.old.graph.arcs < 100 }
    ensures current { OnOk result (IsCurrent s.new) }
    ensures nodes { OnOk result (s.new.graph.nodes ≡ s.old.graph.nodes) }
    ensures flags { OnOk result (s.new.graph.in_force ≡ s.old.graph.in_force ++ true ∷ []) }
    ensures free { OnOk result (free_rows s.new.pool ≡ free_rows s.old.pool) }
{
    s.push_arc(
        Arc {
            from,
            to,
            weight,
            name: Bound::DelayMost {
                send: from,
                receive: to,
            },
        },
        steps,
    )
}

// Pushes an arc; whether it could be pushed.
fn push<L: Ledger>(s: &mut Solver, link: &Link, steps: &mut Steps<L>) -> Result<bool, AllocError>
    requires current { IsCurrent s.old }
    requires nodes { s.old.graph.nodes ≡ Event 0 ∷ Event 1 ∷ Event 2 ∷ [] }
    requires flags { All (λ flag. flag ≡ true) s.old.graph.in_force }
    ensures current { OnOk result (IsCurrent s.new) }
    ensures nodes { OnOk result (s.new.graph.nodes ≡ s.old.graph.nodes) }
    ensures flags { OnOk result (All (λ flag. flag ≡ true) s.new.graph.in_force) }
    ensures free { OnOk result (free_rows s.new.pool ≡ free_rows s.old.pool) }
{
    let (from, to, weight) = *link;
    if from >= 3 || to >= 3 || s.graph().arcs() >= 100 {
        return Ok(false);
    }
    add(s, from, to, i128::from(weight), steps)?;
    Ok(true)
}

// Pushes arcs; whether all of them could be pushed.
fn push_all<L: Ledger>(
    s: &mut Solver,
    links: &[Link],
    steps: &mut Steps<L>,
) -> Result<bool, AllocError>
    requires current { IsCurrent s.old }
    requires nodes { s.old.graph.nodes ≡ Event 0 ∷ Event 1 ∷ Event 2 ∷ [] }
    requires flags { All (λ flag. flag ≡ true) s.old.graph.in_force }
    ensures current { OnOk result (IsCurrent s.new) }
    ensures nodes { OnOk result (s.new.graph.nodes ≡ s.old.graph.nodes) }
    ensures flags { OnOk result (All (λ flag. flag ≡ true) s.new.graph.in_force) }
    ensures free { OnOk result (free_rows s.new.pool ≡ free_rows s.old.pool) }
{
    for link in links {
        if !push(s, link, steps)? {
            return Ok(false);
        }
    }
    Ok(true)
}

// Takes an arc out of force; whether there is one of this number.
fn take_out<L: Ledger>(
    s: &mut Solver,
    number: u32,
    steps: &mut Steps<L>,
) -> Result<bool, AllocError>
    requires current { IsCurrent s.old }
    requires flags { All (λ flag. flag ≡ true) s.old.graph.in_force }
    ensures current { OnOk result (IsCurrent s.new) }
    ensures nodes { OnOk result (s.new.graph.nodes ≡ s.old.graph.nodes) }
    ensures free { OnOk result (free_rows s.new.pool ≡ free_rows s.old.pool) }
{
    if number >= s.graph().arcs() {
        return Ok(false);
    }
    s.withdraw(&[number], steps)?;
    Ok(true)
}

// Whether this is told of events 0 and q.
fn tells<L: Ledger>(s: &mut Solver, q: u32, pair: &Pair, steps: &mut Steps<L>) -> bool
    requires current { IsCurrent s.old }
    requires nodes { length s.old.graph.nodes ≡ 3 }
    requires node { q < 3 }
    requires free { 0 < free_rows s.old.pool }
    ensures current { IsCurrent s.new }
    ensures graph { s.new.graph ≡ s.old.graph }
    ensures free { free_rows s.new.pool ≡ free_rows s.old.pool }
{
    if !is_solved(s) {
        return false;
    }
    s.pair(0, q, steps) == *pair
}

const EXACT: Pair = Pair {
    up: Reach::At(20),
    down: Reach::At(-20),
};

const LOOSE: Pair = Pair {
    up: Reach::At(30),
    down: Reach::At(-20),
};

const FIXED: Pair = Pair {
    up: Reach::At(100),
    down: Reach::At(-100),
};

// All arcs, and then the second message is withdrawn: what is told of the events before and after.
fn follows<L: Ledger>(s: &mut Solver, steps: &mut Steps<L>) -> Result<bool, AllocError>
    requires current { IsCurrent s.old }
    requires nodes { s.old.graph.nodes ≡ Event 0 ∷ Event 1 ∷ Event 2 ∷ [] }
    requires flags { s.old.graph.in_force ≡ [] }
    requires free { free_rows s.old.pool ≡ 3 }
{
    if !push_all(s, &LINKS, steps)? || !tells(s, 1, &EXACT, steps) {
        return Ok(false);
    }
    if !take_out(s, 2, steps)? {
        return Ok(false);
    }
    Ok(tells(s, 1, &LOOSE, steps) && tells(s, 2, &FIXED, steps))
}

// Three events, of which the first is kept; whether it could be.
fn begin_kept<L: Ledger>(s: &mut Solver, steps: &mut Steps<L>) -> Result<bool, AllocError>
    requires current { IsCurrent s.old }
    requires graph { s.old.graph ≡ no_graph }
    requires rows { s.old.pool.rows ≡ [] }
    ensures current { OnOk result (IsCurrent s.new) }
    ensures nodes { OnOk result (s.new.graph.nodes ≡ Event 0 ∷ Event 1 ∷ Event 2 ∷ []) }
    ensures flags { OnOk result (s.new.graph.in_force ≡ []) }
    ensures free { IfOk result (λ kept. kept ≡ true → free_rows s.new.pool ≡ 3) }
{
    begin(s)?;
    Ok(s.keep(0, steps).is_ok())
}

// Whether the rows of a kept event follow a withdrawal.
fn follows_from_the_start<L: Ledger>(
    s: &mut Solver,
    steps: &mut Steps<L>,
) -> Result<bool, AllocError>
    requires current { IsCurrent s.old }
    requires graph { s.old.graph ≡ no_graph }
    requires rows { s.old.pool.rows ≡ [] }
{
    if !begin_kept(s, steps)? {
        return Ok(false);
    }
    follows(s, steps)
}

fn kept_row_follows<L: Ledger>(alloc: Global, blank: Blank) -> Result<bool, AllocError>
    requires { (blank.name ≡ L.name) × (blank.parts ≡ L.parts) × (0 < L.parts) }
{
    let mut steps = Steps::<L>::open(blank);
    let mut s = Solver::new(alloc);
    follows_from_the_start(&mut s, &mut steps)
}

#[test]
fn a_kept_row_follows_a_withdrawal(rt: HostRuntime) {
    assert!(rt; kept_row_follows::<Brand>(rt.alloc(), Blank::new(1)) == Ok(true));
}

// Whether all values of two solvers are equal.
fn same_values(s: &Solver, t: &Solver) -> bool
    requires first { IsCurrent s.now }
    requires second { IsCurrent t.now }
    requires first_solved { s.now.contradiction ≡ [] }
    requires second_solved { t.now.contradiction ≡ [] }
    requires first_nodes { length s.now.graph.nodes ≡ 3 }
    requires second_nodes { length t.now.graph.nodes ≡ 3 }
{
    s.value(0) == t.value(0) && s.value(1) == t.value(1) && s.value(2) == t.value(2)
}

// Whether two solvers tell the same of events 0 and q.
fn same_pair<L: Ledger>(s: &mut Solver, t: &mut Solver, q: u32, steps: &mut Steps<L>) -> bool
    requires first { IsCurrent s.old }
    requires second { IsCurrent t.old }
    requires first_solved { s.old.contradiction ≡ [] }
    requires second_solved { t.old.contradiction ≡ [] }
    requires first_nodes { length s.old.graph.nodes ≡ 3 }
    requires second_nodes { length t.old.graph.nodes ≡ 3 }
    requires node { q < 3 }
    requires first_free { 0 < free_rows s.old.pool }
    requires second_free { 0 < free_rows t.old.pool }
    ensures first { IsCurrent s.new }
    ensures second { IsCurrent t.new }
    ensures first_solved { s.new.contradiction ≡ [] }
    ensures second_solved { t.new.contradiction ≡ [] }
    ensures first_nodes { length s.new.graph.nodes ≡ 3 }
    ensures second_nodes { length t.new.graph.nodes ≡ 3 }
    ensures first_free { 0 < free_rows s.new.pool }
    ensures second_free { 0 < free_rows t.new.pool }
{
    let one = s.pair(0, q, steps);
    let two = t.pair(0, q, steps);
    one == two
}

// Whether two solvers have the same execution and tell the same of event 0.
fn agree<L: Ledger>(s: &mut Solver, t: &mut Solver, steps: &mut Steps<L>) -> bool
    requires first { IsCurrent s.old }
    requires second { IsCurrent t.old }
    requires first_nodes { length s.old.graph.nodes ≡ 3 }
    requires second_nodes { length t.old.graph.nodes ≡ 3 }
    requires first_free { 0 < free_rows s.old.pool }
    requires second_free { 0 < free_rows t.old.pool }
{
    if !is_solved(s) || !is_solved(t) {
        return false;
    }
    same_values(s, t) && same_pair(s, t, 1, steps) && same_pair(s, t, 2, steps)
}

// Whether a solver says what a new one says, to which all arcs come but the one of a number.
fn is_as_new<L: Ledger>(
    s: &mut Solver,
    t: &mut Solver,
    number: usize,
    steps: &mut Steps<L>,
) -> Result<bool, AllocError>
    requires first { IsCurrent s.old }
    requires first_nodes { length s.old.graph.nodes ≡ 3 }
    requires first_free { 0 < free_rows s.old.pool }
    requires second { IsCurrent t.old }
    requires graph { t.old.graph ≡ no_graph }
    requires rows { t.old.pool.rows ≡ [] }
    requires number { number < 6 }
{
    begin(t)?;
    if !push_all(t, &LINKS[..number], steps)? || !push_all(t, &LINKS[number + 1..], steps)? {
        return Ok(false);
    }
    Ok(agree(s, t, steps))
}

// All arcs, of which the one of a number is withdrawn; whether that could be done.
fn shrink<L: Ledger>(
    s: &mut Solver,
    number: usize,
    steps: &mut Steps<L>,
) -> Result<bool, AllocError>
    requires current { IsCurrent s.old }
    requires graph { s.old.graph ≡ no_graph }
    requires rows { s.old.pool.rows ≡ [] }
    requires number { number < 6 }
    ensures current { OnOk result (IsCurrent s.new) }
    ensures nodes { OnOk result (length s.new.graph.nodes ≡ 3) }
    ensures free { IfOk result (λ done. done ≡ true → free_rows s.new.pool ≡ 3) }
{
    if !begin_kept(s, steps)? || !push_all(s, &LINKS, steps)? {
        return Ok(false);
    }
    take_out(s, number as u32, steps)
}

// Whether a solver from which the arc of a number is withdrawn is as a new one.
fn shrinks<L: Ledger>(
    alloc: Global,
    s: &mut Solver,
    number: usize,
    steps: &mut Steps<L>,
) -> Result<bool, AllocError>
    requires current { IsCurrent s.old }
    requires graph { s.old.graph ≡ no_graph }
    requires rows { s.old.pool.rows ≡ [] }
    requires number { number < 6 }
{
    if !shrink(s, number, steps)? {
        return Ok(false);
    }
    let mut t = Solver::new(alloc);
    is_as_new(s, &mut t, number, steps)
}

// How many arcs there are of which this is so.
fn right_arcs<L: Ledger>(alloc: Global, blank: Blank) -> usize
    requires { (blank.name ≡ L.name) × (blank.parts ≡ L.parts) × (0 < L.parts) }
{
    let mut steps = Steps::<L>::open(blank);
    let mut right = 0;
    for number in 0..6 {
        let mut s = Solver::new(alloc);
        if shrinks(alloc, &mut s, number, &mut steps) == Ok(true) {
            right += 1;
        }
    }
    right
}

#[test]
fn a_withdrawal_leaves_what_a_new_solver_has(rt: HostRuntime) {
    assert_eq!(rt; right_arcs::<Brand>(rt.alloc(), Blank::new(1)), LINKS.len());
}

// Two arcs that leave no execution, of which the second is taken out of force again.
const NO_EXECUTION: [Link; 2] = [(0, 1, -3), (1, 0, 2)];

// Whether the value of event 0 is this.
fn has_value(s: &Solver, value: i128) -> bool
    requires current { IsCurrent s.now }
    requires nodes { length s.now.graph.nodes ≡ 3 }
{
    is_solved(s) && s.value(0) == value
}

fn heals<L: Ledger>(s: &mut Solver, steps: &mut Steps<L>) -> Result<bool, AllocError>
    requires current { IsCurrent s.old }
    requires graph { s.old.graph ≡ no_graph }
    requires rows { s.old.pool.rows ≡ [] }
{
    begin(s)?;
    if !push_all(s, &NO_EXECUTION, steps)? || is_solved(s) {
        return Ok(false);
    }
    Ok(take_out(s, 1, steps)? && has_value(s, 3))
}

fn contradiction_goes<L: Ledger>(alloc: Global, blank: Blank) -> Result<bool, AllocError>
    requires { (blank.name ≡ L.name) × (blank.parts ≡ L.parts) × (0 < L.parts) }
{
    let mut steps = Steps::<L>::open(blank);
    let mut s = Solver::new(alloc);
    heals(&mut s, &mut steps)
}

#[test]
fn a_contradiction_goes_with_its_arc(rt: HostRuntime) {
    assert!(rt; contradiction_goes::<Brand>(rt.alloc(), Blank::new(1)) == Ok(true));
}
