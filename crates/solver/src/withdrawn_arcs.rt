// Arcs that go.
ghost use Rattle.std.specs.Prelude.{◌≡◌, ◌≢◌, ◌<◌, ◌++◌, ◌∷◌, [], ℤ, List, false, true, All, Contains, length, IfOk, OnOk};
ghost use Rattle.sync_graph.specs.Graph.{arc_at};
ghost use Rattle.sync_graph.specs.InForce.{IsEarliestOf};
ghost use Rattle.earliest.specs.Withdrawn.{IsEarliestWith};
ghost use Rattle.repair.specs.RowWithdrawals.{AreWithdrawn};
ghost use Rattle.solver.specs.Changes.{KeepsSlots, AreInForce, AreTakenOut};
ghost use Rattle.solver.specs.Costs.{TakesFewToWithdrawAll};
ghost use Rattle.solver.specs.Current.{IsCurrent, IsSetUp};
ghost use Rattle.solver.specs.Withdrawn.{arcs_numbered, IsCutDown};

use crate::solver::Solver;
use atto::Steps;
use distances::{Search, Side};
use earliest::Inserted;
use earliest::laws::removals;
use problem_model::Bound;
use repair::Withdrawal;
use repair::row_laws::withdrawals;
use std::alloc::{AllocError, Global};
use std::sync::ledger::Ledger;
use sync_graph::{Arc, Graph};

impl Solver {
    /// Takes arcs in force out of force, which are given by their numbers, each once. Where there was an execution there is
    /// one still, and values and rows are repaired. Where a withdrawn arc was one of the contradiction, or has the nodes and
    /// the weight of one of it, they are made anew; else the contradiction stands.
    ///
    /// Where there was an execution there are few steps: two for the values and for each row, and for each node that is
    /// affected there five and two for each arc in force that reaches or leaves it. A node is affected in the values where a
    /// chain of arcs that the values before meet exactly starts at it and ends by a withdrawn one, and in a row where its
    /// path by parents had a withdrawn one. Without numbers there is no step, and nothing is changed.
    pub fn withdraw<L: Ledger>(
        &mut self,
        numbers: &[u32],
        steps: &mut Steps<L>,
    ) -> Result<(), AllocError>
        requires current { IsCurrent self.old }
        requires numbers { AreInForce self.old.graph numbers.now }
        ensures graph { AreTakenOut numbers.now self.old.graph self.new.graph }
        ensures slots { OnOk result (KeepsSlots self.old self.new) }
        ensures solved { self.old.earliest.is_solved ≡ true → OnOk result (self.new.earliest.is_solved ≡ true) }
        ensures steps { self.old.earliest.is_solved ≡ true
            → TakesFewToWithdrawAll self.old self.new (arcs_numbered self.old.graph numbers.now) steps.old steps.new }
        ensures unchanged { numbers.now ≡ [] → self.new ≡ self.old }
        ensures nothing { numbers.now ≡ [] → steps.new ≡ steps.old }
    {
        if numbers.is_empty() {
            return Ok(());
        }
        if self.earliest.solved() {
            return self.cut_down(numbers, steps);
        }
        self.loosen(numbers, steps)
    }

    // Takes arcs out of force where there is a contradiction. One that has none of them stands, and else all is made anew.
    fn loosen<L: Ledger>(&mut self, numbers: &[u32], steps: &mut Steps<L>) -> Result<(), AllocError>
        requires current { IsCurrent self.old }
        requires unsolved { self.old.earliest.is_solved ≡ false }
        requires numbers { AreInForce self.old.graph numbers.now }
        ensures graph { AreTakenOut numbers.now self.old.graph self.new.graph }
        ensures slots { OnOk result (KeepsSlots self.old self.new) }
    {
        take_out(&mut self.graph, numbers);
        // It tells what the lists of the graph hold.
        self.graph.exact();
        if !are_met(&self.graph, numbers, &self.contradiction) {
            return Ok(());
        }
        self.make_anew(steps)?;
        Ok(())
    }

    // Takes arcs out of force where there is an execution, and repairs all that is held.
    fn cut_down<L: Ledger>(
        &mut self,
        numbers: &[u32],
        steps: &mut Steps<L>,
    ) -> Result<(), AllocError>
        requires current { IsCurrent self.old }
        requires solved { self.old.earliest.is_solved ≡ true }
        requires numbers { AreInForce self.old.graph numbers.now }
        ensures graph { AreTakenOut numbers.now self.old.graph self.new.graph }
        ensures slots { OnOk result (KeepsSlots self.old self.new) }
        ensures solved { OnOk result (self.new.earliest.is_solved ≡ true) }
        ensures steps { TakesFewToWithdrawAll self.old self.new (arcs_numbered self.old.graph numbers.now) steps.old steps.new }
    {
        // It tells what the lists of the graph hold.
        self.graph.exact();
        let listed = list_arcs(self.alloc, &self.graph, numbers);
        take_out(&mut self.graph, numbers);
        // It tells what the lists of the graph hold.
        self.graph.exact();
        let removed = listed?;
        self.repair(&removed, steps);
        Ok(())
    }

    // Repairs the values and the kept rows once these arcs are out of force.
    fn repair<L: Ledger>(&mut self, removed: &[Arc], steps: &mut Steps<L>)
        requires { IsCutDown removed.now self.old }
        ensures graph { self.new.graph ≡ self.old.graph }
        ensures slots { KeepsSlots self.old self.new }
        ensures solved { self.new.earliest.is_solved ≡ true }
        ensures steps { TakesFewToWithdrawAll self.old self.new removed.now steps.old steps.new }
    {
        self.earliest
            .withdraw(&self.graph, removed, &mut self.queue, steps);
        let withdrawal = Withdrawal::new(&self.graph, &self.earliest, removed);
        let pool = &mut self.pool;
        self.kept
            .after_withdraw(&withdrawal, pool, &mut self.queue, steps);
    }

    // Makes the values and the kept rows anew, from any state.
    fn make_anew<L: Ledger>(&mut self, steps: &mut Steps<L>) -> Result<(), AllocError>
        requires { IsSetUp self.old }
        ensures graph { self.new.graph ≡ self.old.graph }
        ensures slots { OnOk result (KeepsSlots self.old self.new) }
    {
        match self.earliest.rebuild(&self.graph, &mut self.queue, steps)? {
            Inserted::Kept => self.renew(steps),
            Inserted::Negative(cycle) => self.hold(cycle),
        }
        Ok(())
    }

    // Makes the kept rows anew, where the values are the earliest execution.
    fn renew<L: Ledger>(&mut self, steps: &mut Steps<L>)
        requires set_up { IsSetUp self.old }
        requires solved { self.old.earliest.is_solved ≡ true }
        requires earliest { IsEarliestOf self.old.graph self.old.earliest.values }
        ensures graph { self.new.graph ≡ self.old.graph }
        ensures slots { KeepsSlots self.old self.new }
    {
        self.contradiction.clear();
        let search = Search::new(&self.graph, &self.earliest, Side::From);
        let pool = &mut self.pool;
        self.kept.refresh(&search, pool, &mut self.queue, steps);
    }
}

// The arcs of these numbers.
fn list_arcs(alloc: Global, g: &Graph, numbers: &[u32]) -> Result<Vec<Arc>, AllocError>
    requires { All (λ k. k < length g.now.arcs) numbers.now }
    ensures { IfOk result (λ arcs. arcs.items ≡ arcs_numbered g.now numbers.now) }
{
    let mut arcs = Vec::new(alloc);
    for k in numbers {
        list_arc(&mut arcs, g, *k)?;
    }
    Ok(arcs)
}

// Appends the arc of a number.
fn list_arc(arcs: &mut Vec<Arc>, g: &Graph, number: u32) -> Result<(), AllocError>
    requires { number < length g.now.arcs }
    ensures { OnOk result (arcs.new.items ≡ arcs.old.items ++ arc_at g.now.arcs number ∷ []) }
{
    let a = g.arc(number);
    let name: Bound = a.name;
    arcs.push(Arc {
        from: a.from,
        to: a.to,
        weight: a.weight,
        name,
    })?;
    Ok(())
}

// Takes the arcs of these numbers out of force.
fn take_out(g: &mut Graph, numbers: &[u32])
    requires numbers { AreInForce g.old numbers.now }
    ensures graph { AreTakenOut numbers.now g.old g.new }
    ensures values { (values : List ℤ) → IsEarliestOf g.old values → IsEarliestWith g.new (arcs_numbered g.old numbers.now) values }
    ensures rows { AreWithdrawn g.old (arcs_numbered g.old numbers.now) g.new }
{
    // They tell what is left where arcs are withdrawn, which arcs are withdrawn, and what the lists of the graph hold.
    removals();
    withdrawals();
    g.exact();
    for k in numbers {
        g.withdraw(*k);
        // It tells what the lists of the graph hold.
        g.exact();
    }
}

// Whether an arc of these numbers is one of the cycle.
fn are_met(g: &Graph, numbers: &[u32], cycle: &[Arc]) -> bool
    requires { All (λ k. k < length g.now.arcs) numbers.now }
    ensures { result ≡ false → All (λ k. Contains cycle.now (arc_at g.now.arcs k) → ⊥) numbers.now }
{
    for k in numbers {
        if is_step(cycle, &g.arc(*k)) {
            return true;
        }
    }
    false
}

// Whether an arc is one of the cycle.
fn is_step(cycle: &[Arc], a: &Arc) -> bool
    ensures { result ≡ false → Contains cycle.now a.now → ⊥ }
{
    for step in cycle {
        if looks_like(step, a) {
            return true;
        }
    }
    false
}

// Whether two arcs have the same ends and the same weight.
fn looks_like(a: &Arc, b: &Arc) -> bool
    ensures { result ≡ false → a.now ≢ b.now }
{
    a.from == b.from && a.to == b.to && a.weight == b.weight
}
