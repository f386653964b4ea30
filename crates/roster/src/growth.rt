// What is true of graphs that grow.
ghost use Rattle.std.specs.Prelude.{◌≡◌, ◌∷◌, ◌<◌, ℕ, Bool, false, List, [], length, Option, All};
ghost use Rattle.problem_model.specs.declared.items.Node.TheVariants as nodes;
ghost use Rattle.problem_model.specs.declared.items.Event.{Event};
ghost use Rattle.problem_model.specs.declared.items.Message.{Message};
ghost use Rattle.problem_model.specs.declared.items.Bound.{Bound};
ghost use Rattle.problem_model.specs.Problem.{ProblemLists, IsProblem, IsChained};
ghost use Rattle.problem_model.specs.Bounds.{EventAt};
ghost use Rattle.problem_model.specs.Nodes.{Reading, AreReadings};
ghost use Rattle.problem.specs.Listing.{Listed};
ghost use Rattle.sync_graph.specs.declared.arc.Arc.{Arc};
ghost use Rattle.sync_graph.specs.Graph.{GraphLists, IsGraph, no_graph, with_arc, with_node};
ghost use Rattle.problem_graph.specs.Standing.{HasNode};
ghost use Rattle.problem_graph.specs.ListedProblem.{IsListedBy};
ghost use Rattle.problem_graph.specs.ListedStanding.{StandsForListed};
ghost use Rattle.roster.specs.Entered.{all_events, events_below, and_event};
ghost use Rattle.roster.specs.Growing.{IsGrowing, IsGrownTo, IsBoundOf};
ghost use Rattle.roster.specs.Withdrawing.{IsMore, AreMore, Withdraws};
ghost use Rattle.roster.specs.Entering.{Enters, AreMessagesOf, AreNearest, entry_bounds};
ghost use Rattle.roster.specs.Once.{HasEachOnce, HaveOwnEnds, TakesOut};
ghost use Rattle.roster.specs.ByNumber.{IsByNumber, AreCarriedMessages, TellsNodes};
ghost use Rattle.roster.specs.Rosters.{problem_by_number, KnowsNodes};
ghost use Rattle.traces.specs.Seen.{Seen};
ghost use Rattle.traces.specs.Messages.{problem_of_seen};
ghost use Rattle.roster.specs.Roster.{RosterLists, IsRoster, IsGrown, HoldsEvents, listed};

/// A law, which does nothing when it runs: without events the empty graph has grown to all of them; and flags that say
/// the same of each event are as good as one another.
pub fn growth_begins_with_nothing()
    ensures nothing { (p : ProblemLists) → p.events ≡ [] → p.messages ≡ [] → IsGrownTo p all_events no_graph × HasEachOnce [] no_graph }
    ensures alike { (p : ProblemLists) (one other : ℕ → Bool) (left : List Bound) (g : GraphLists) → ((v : ℕ) → v < length p.events → one v ≡ other v)
        → All (λ m. m.send < length p.events) p.messages → All (λ m. m.receive < length p.events) p.messages → IsGrowing p one left g → IsGrowing p other left g }
{}

/// A law, which does nothing when it runs: once the arcs of withdrawn messages are out of force, a graph that had grown
/// to all events has grown to these events of the problem with more events.
pub fn messages_are_withdrawn()
    ensures { (before after : ProblemLists) (withdrawn : List Message) (g h : GraphLists) → IsMore before after withdrawn → Withdraws withdrawn g h → IsGrownTo before all_events g
        → IsGrownTo after (events_below (length before.events)) h }
{}

/// A law, which does nothing when it runs: once the nodes of an event are there, whichever it is, the graph is growing
/// to those that had entered and this one, and what is left are its own bounds.
pub fn an_event_enters()
    ensures { (p : ProblemLists) (entered : ℕ → Bool) (v : ℕ) (e : Event) (below above : Option ℕ) (earlier later : Option (ℕ × ℕ)) (messages : List Message) (g h : GraphLists) → IsChained p → EventAt p v e
        → AreNearest p g e below above earlier later → AreMessagesOf p entered v messages
        → Enters v e g h → IsGrownTo p entered g → IsGrowing p (and_event entered v) (entry_bounds v e below above earlier later messages) h }
{}

/// A law, which does nothing when it runs: an event's nodes come by one push, or by two where its reading is new.
pub fn nodes_are_pushed()
    ensures one { (v : ℕ) (e : Event) (g : GraphLists) → HasNode g (nodes.Reading e.clock e.stamp) → Enters v e g (with_node g (nodes.Event v)) }
    ensures two { (v : ℕ) (e : Event) (g : GraphLists) → Enters v e g (with_node (with_node g (nodes.Event v)) (nodes.Reading e.clock e.stamp)) }
{}

/// A law, which does nothing when it runs: a bound that is pushed is no longer left.
pub fn a_bound_is_pushed()
    ensures { (p : ProblemLists) (entered : ℕ → Bool) (b : Bound) (rest : List Bound) (g : GraphLists) (a : Arc) → IsGraph g → IsBoundOf p g a → a.name ≡ b → IsGrowing p entered (b ∷ rest) g → IsGrowing p entered rest (with_arc g a) }
{}

/// A law, which does nothing when it runs: no bound is in force twice, while arcs are taken out of force, events enter
/// and bounds are pushed. So the arcs of withdrawn messages are known by their numbers.
pub fn bounds_are_in_force_once()
    ensures withdrawn { (messages : List Message) (numbers : List ℕ) (g h : GraphLists) → TakesOut messages numbers g h → HasEachOnce [] g → Withdraws messages g h × HasEachOnce [] h }
    ensures entered { (p : ProblemLists) (entered : ℕ → Bool) (v : ℕ) (e : Event) (below above : Option ℕ) (earlier later : Option (ℕ × ℕ)) (messages : List Message) (g h : GraphLists) → IsChained p → entered v ≡ false
        → AreNearest p g e below above earlier later → HaveOwnEnds v messages
        → Enters v e g h → IsGrownTo p entered g → HasEachOnce [] g → HasEachOnce (entry_bounds v e below above earlier later messages) h }
    ensures pushed { (b : Bound) (rest : List Bound) (g : GraphLists) (a : Arc) → IsGraph g → a.name ≡ b → HasEachOnce (b ∷ rest) g → HasEachOnce rest (with_arc g a) }
{}

/// A law, which does nothing when it runs: a graph that has grown to all events of a problem stands for the problem as it is
/// listed.
pub fn the_whole_stands_for_its_problem()
    ensures { (l : Listed) (p q : ProblemLists) (readings : List Reading) (g : GraphLists) → IsGraph g → IsProblem q → AreReadings q readings → IsListedBy l q readings → IsByNumber l p q → TellsNodes l g → IsGrownTo p all_events g
        → StandsForListed l q readings g }
{}

/// A law, which does nothing when it runs: with events that are pushed, the problem of a roster by number has more
/// events behind those that it had.
pub fn a_push_brings_events()
    ensures { (old new : RosterLists) (label : ℕ) (stamps : List ℕ) (before after withdrawn : List Message) → IsGrown old new label stamps → AreMore before after (length old.came) withdrawn
        → IsMore (problem_by_number old before) (problem_by_number new after) withdrawn }
{}

/// A law, which does nothing when it runs: a graph that has grown to all events of a roster, which knows its nodes,
/// stands for the problem of the declaration and the events as the roster lists it.
pub fn a_graph_stands_for_its_roster()
    ensures { (r : RosterLists) (seen : List (List Seen)) (messages : List Message) (readings : List Reading) (g : GraphLists) → IsRoster r → HoldsEvents r seen → AreCarriedMessages (listed r) messages (problem_of_seen r.declaration seen).messages
        → KnowsNodes r g → IsGraph g → IsProblem (problem_of_seen r.declaration seen) → AreReadings (problem_of_seen r.declaration seen) readings → IsGrownTo (problem_by_number r messages) all_events g
        → StandsForListed (listed r) (problem_of_seen r.declaration seen) readings g }
{}
