// The nodes of a problem, by their names.
ghost use Rattle.std.specs.Prelude.{◌≡◌, ◌≤◌, length};
ghost use Rattle.problem_model.specs.Nodes.{AreReadings, nodes_of};
ghost use Rattle.problem_model.specs.Limits.{most_nodes};
ghost use Rattle.cert.specs.NodeLists.{StandsAtNode};

use atto::Nano;
use problem::Problem;
use problem_model::{Clock, Event, Name};
use std::marker::Model;

/// The events of a problem in their order, then its readings.
#[derive(Drop)]
pub struct Nodes<'a> {
    clocks: &'a [Clock],
    events: &'a [Event],
    readings: &'a [(u32, Nano)],
}

impl<'a> Model for Nodes<'a> {
    ghost use Rattle.std.specs.Prelude.{[]};
    ghost use Rattle.cert.specs.NodeLists.{NodeLists, AreNamed};

    ghost Value = { NodeLists };

    ghost view = { λ n. record { problem = record { clocks = n.clocks.now; follows = []; events = n.events.now; messages = [] }; readings = n.readings.now } };

    ghost invariant = { λ n. AreNamed (record { problem = record { clocks = n.clocks.now; follows = []; events = n.events.now; messages = [] }; readings = n.readings.now }) };
}

/// What stands at a place of the nodes.
#[derive(Clone, Copy)]
pub enum NextNode {
    /// The event of this name.
    Event(Name),
    /// This stamp, in ns, on the clock of this name.
    Reading(Name, Nano),
    /// Nothing: the nodes are fewer.
    End,
}

impl<'a> Nodes<'a> {
    pub fn new(p: &'a Problem) -> Nodes<'a>
        ensures clocks { result.problem.clocks ≡ p.now.clocks }
        ensures events { result.problem.events ≡ p.now.events }
        ensures readings { AreReadings p.now result.readings }
    {
        Nodes {
            clocks: p.clocks(),
            events: p.events(),
            readings: p.readings(),
        }
    }

    /// What stands at place `k`, from 0 on.
    pub fn at(&self, k: u32) -> NextNode
        ensures stands { StandsAtNode self.now k result }
        ensures few { length (nodes_of self.now.problem self.now.readings) ≤ most_nodes }
    {
        let k = k as usize;
        if k < self.events.len() {
            return NextNode::Event(self.events[k].name);
        }
        let k = k - self.events.len();
        if k < self.readings.len() {
            let (clock, stamp) = self.readings[k];
            return NextNode::Reading(self.clocks[clock as usize].name, stamp);
        }
        NextNode::End
    }
}
