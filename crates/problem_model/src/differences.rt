//! What is proved of difference constraints, one function for each subject. None of them does anything.

ghost use Rattle.std.specs.Prelude.{◌≡◌, ℕ, ◌+◌, ◌*◌, ◌<◌, ◌≤◌, ◌↔◌, List, [], ◌∷◌, ◌++◌, length, map, ℤ, pos, neg_ℤ, ◌-ℤ◌, ◌≤ℤ◌, ◌<ℤ◌, Bool, true, false, All};
ghost use Rattle.problem_model.specs.Executions.{Arc, at, difference, IsExecution, AreWithin, values_by};
ghost use Rattle.problem_model.specs.Paths.{sum_of, IsPath, IsContradiction, IsSimple};
ghost use Rattle.problem_model.specs.Differences.{IsGreatest, IsLeast, IsUnbounded, IsAlwaysBefore, IsSimultaneous};
ghost use Rattle.problem_model.specs.Earliest.{IsEarliest, AreUpTo};
ghost use Rattle.problem_model.specs.Rows.{IsClosedRow, IsGreatestLead, IsLeastLead, attaining, least_differences};
ghost use Rattle.problem_model.specs.Tables.{ArcTable, Lists, arcs_among, ObeysAll, reversed_table};
ghost use Rattle.problem_model.specs.Parents.{Cells, IsRow};
ghost use Rattle.problem_model.specs.Reversal.{all_reversed, negated, walked_back};
ghost use Rattle.problem_model.specs.Cuts.{IsCut, raised_outside};
ghost use Rattle.problem_model.specs.ProblemArcs.{StandsFor, IsNodeAt, IsGreatestOf, IsUnboundedOf};
ghost use Rattle.problem_model.specs.Solutions.{IsEarliestExecution, WeighedBound, IsContradictionOf, NamedArc, IsBoundArc, weighed};
ghost use Rattle.problem_model.specs.declared.items.Node.{Node};
ghost use Rattle.problem_model.specs.Problem.{ProblemLists};
ghost use Rattle.problem_model.specs.Bounds.{Times};
ghost use Rattle.problem_model.specs.Bounds as bounds;
ghost use Rattle.problem_model.specs.Nodes.{Reading, AreReadings, nodes_of};

/// Paths bound the differences of every execution.
pub fn paths()
    ensures along { (nodes : ℕ) (arcs : List Arc) (p q : ℕ) (steps : List Arc) (xs : List ℤ)
        → IsPath arcs p q steps → IsExecution nodes arcs xs
        → difference (at xs) p q ≤ℤ sum_of steps }
    ensures contradiction { (nodes : ℕ) (arcs steps : List Arc) (xs : List ℤ) → IsContradiction arcs steps → IsExecution nodes arcs xs → ⊥ }
    ensures greatest { (nodes : ℕ) (arcs : List Arc) (p q : ℕ) (h : ℤ) (steps : List Arc) (xs : List ℤ)
        → IsPath arcs p q steps → sum_of steps ≡ h → IsExecution nodes arcs xs → difference (at xs) p q ≡ h
        → IsGreatest nodes arcs p q h }
    ensures one_greatest { (nodes : ℕ) (arcs : List Arc) (p q : ℕ) (g h : ℤ) → IsGreatest nodes arcs p q g → IsGreatest nodes arcs p q h → g ≡ h }
    ensures no_greatest { (nodes : ℕ) (arcs : List Arc) (p q : ℕ) (h : ℤ) → IsUnbounded nodes arcs p q → IsGreatest nodes arcs p q h → ⊥ }
{}

/// The order of two nodes is that of their greatest differences both ways.
pub fn orders()
    ensures before { (nodes : ℕ) (arcs : List Arc) (p q : ℕ) (h : ℤ) → IsGreatest nodes arcs q p h → IsAlwaysBefore nodes arcs p q ↔ (h <ℤ pos 0) }
    ensures not_before { (nodes : ℕ) (arcs : List Arc) (p q : ℕ) → IsUnbounded nodes arcs q p → IsAlwaysBefore nodes arcs p q → ⊥ }
    ensures same { (nodes : ℕ) (arcs : List Arc) (p q : ℕ) (g h : ℤ)
        → IsGreatest nodes arcs p q g → IsGreatest nodes arcs q p h
        → IsSimultaneous nodes arcs p q ↔ ((g ≡ pos 0) × (h ≡ pos 0)) }
    ensures not_same { (nodes : ℕ) (arcs : List Arc) (p q : ℕ) → IsUnbounded nodes arcs p q → IsSimultaneous nodes arcs p q → ⊥ }
{}

/// A cut makes differences out of it unbounded.
pub fn cuts()
    ensures raised { (nodes : ℕ) (arcs : List Arc) (inside : ℕ → Bool) (xs : List ℤ) (by : ℕ)
        → AreWithin nodes arcs → IsCut arcs inside → IsExecution nodes arcs xs
        → IsExecution nodes arcs (values_by (raised_outside inside by xs) nodes) }
    ensures unbounded { (nodes : ℕ) (arcs : List Arc) (inside : ℕ → Bool) (xs : List ℤ) (p q : ℕ)
        → AreWithin nodes arcs → IsCut arcs inside → IsExecution nodes arcs xs → p < nodes → q < nodes → inside p ≡ true → inside q ≡ false
        → IsUnbounded nodes arcs p q }
{}

/// A closed row and an execution give the greatest differences from its node, and an execution that attains them all.
pub fn rows()
    ensures lead { (nodes p : ℕ) (known : ℕ → Bool) (greatest : ℕ → ℤ) (xs : List ℤ)
        → p < nodes → known p ≡ true
        → (K : ℤ) × IsGreatestLead nodes known greatest xs K }
    ensures one_lead { (nodes : ℕ) (known : ℕ → Bool) (greatest : ℕ → ℤ) (xs : List ℤ) (J K : ℤ)
        → IsGreatestLead nodes known greatest xs J → IsGreatestLead nodes known greatest xs K
        → J ≡ K }
    ensures attaining { (nodes : ℕ) (arcs : List Arc) (p : ℕ) (known : ℕ → Bool) (distance : ℕ → ℤ) (xs : List ℤ)
        → AreWithin nodes arcs → IsClosedRow arcs p known distance → IsExecution nodes arcs xs → (K : ℤ) → IsGreatestLead nodes known distance xs K
        → IsExecution nodes arcs (values_by (attaining known distance xs K) nodes) }
    ensures attained { (nodes : ℕ) (arcs : List Arc) (p : ℕ) (known : ℕ → Bool) (distance : ℕ → ℤ) (xs : List ℤ)
        → AreWithin nodes arcs → IsClosedRow arcs p known distance → IsExecution nodes arcs xs → (K : ℤ) (q : ℕ) → p < nodes → q < nodes
        → known q ≡ true
        → difference (at (values_by (attaining known distance xs K) nodes)) p q ≡ distance q }
    ensures shortest { (arcs : List Arc) (p q : ℕ) (known : ℕ → Bool) (distance : ℕ → ℤ) (steps : List Arc)
        → IsClosedRow arcs p known distance → IsPath arcs p q steps
        → (known q ≡ true) × (distance q ≤ℤ sum_of steps) }
    ensures size { (nodes height : ℕ) (known : ℕ → Bool) (differences : ℕ → ℤ) (xs : List ℤ) (K : ℤ)
        → ((k : ℕ) → k < nodes → known k ≡ true → (neg_ℤ (pos height) ≤ℤ differences k) × (differences k ≤ℤ pos height))
        → ((k : ℕ) → k < nodes → (pos 0 ≤ℤ at xs k) × (at xs k ≤ℤ pos height))
        → (k : ℕ) × (k < nodes) × (known k ≡ true) × (differences k -ℤ at xs k ≡ K) → (k : ℕ) → k < nodes
        → (neg_ℤ (pos (2 * height)) ≤ℤ attaining known differences xs K k) × (attaining known differences xs K k ≤ℤ pos (2 * height)) }
    ensures greatest { (nodes : ℕ) (arcs : List Arc) (p : ℕ) (known : ℕ → Bool) (distance : ℕ → ℤ) (xs : List ℤ)
        → AreWithin nodes arcs → IsClosedRow arcs p known distance → IsExecution nodes arcs xs → (q : ℕ) → p < nodes → q < nodes → known q ≡ true
        → IsGreatest nodes arcs p q (distance q) }
    ensures unbounded { (nodes : ℕ) (arcs : List Arc) (p : ℕ) (known : ℕ → Bool) (distance : ℕ → ℤ) (xs : List ℤ)
        → AreWithin nodes arcs → IsClosedRow arcs p known distance → IsExecution nodes arcs xs → (q : ℕ) → p < nodes → q < nodes → known q ≡ false
        → IsUnbounded nodes arcs p q }
{}

/// A closed row along the reversed arcs and an execution give the least differences from its node, and an execution
/// that attains them all.
pub fn rows_towards()
    ensures lead { (nodes p : ℕ) (known : ℕ → Bool) (least : ℕ → ℤ) (xs : List ℤ)
        → p < nodes → known p ≡ true
        → (K : ℤ) × IsLeastLead nodes known least xs K }
    ensures one_lead { (nodes : ℕ) (known : ℕ → Bool) (least : ℕ → ℤ) (xs : List ℤ) (J K : ℤ)
        → IsLeastLead nodes known least xs J → IsLeastLead nodes known least xs K
        → J ≡ K }
    ensures attaining { (nodes : ℕ) (arcs : List Arc) (p : ℕ) (known : ℕ → Bool) (distance : ℕ → ℤ) (xs : List ℤ)
        → AreWithin nodes arcs → IsClosedRow (all_reversed arcs) p known distance → IsExecution nodes arcs xs → (K : ℤ)
        → IsLeastLead nodes known (least_differences distance) xs K
        → IsExecution nodes arcs (values_by (attaining known (least_differences distance) xs K) nodes) }
    ensures attained { (nodes : ℕ) (arcs : List Arc) (p : ℕ) (known : ℕ → Bool) (distance : ℕ → ℤ) (xs : List ℤ)
        → AreWithin nodes arcs → IsClosedRow (all_reversed arcs) p known distance → IsExecution nodes arcs xs → (K : ℤ) (q : ℕ) → p < nodes
        → q < nodes → known q ≡ true
        → difference (at (values_by (attaining known (least_differences distance) xs K) nodes)) p q ≡ least_differences distance q }
    ensures greatest { (nodes : ℕ) (arcs : List Arc) (p : ℕ) (known : ℕ → Bool) (distance : ℕ → ℤ) (xs : List ℤ)
        → AreWithin nodes arcs → IsClosedRow (all_reversed arcs) p known distance → IsExecution nodes arcs xs → (q : ℕ) → p < nodes → q < nodes
        → known q ≡ true
        → IsGreatest nodes arcs q p (distance q) }
    ensures least { (nodes : ℕ) (arcs : List Arc) (p : ℕ) (known : ℕ → Bool) (distance : ℕ → ℤ) (xs : List ℤ)
        → AreWithin nodes arcs → IsClosedRow (all_reversed arcs) p known distance → IsExecution nodes arcs xs → (q : ℕ) → p < nodes → q < nodes
        → known q ≡ true
        → IsLeast nodes arcs p q (least_differences distance q) }
    ensures unbounded { (nodes : ℕ) (arcs : List Arc) (p : ℕ) (known : ℕ → Bool) (distance : ℕ → ℤ) (xs : List ℤ)
        → AreWithin nodes arcs → IsClosedRow (all_reversed arcs) p known distance → IsExecution nodes arcs xs → (q : ℕ) → p < nodes → q < nodes
        → known q ≡ false
        → IsUnbounded nodes arcs q p }
{}

/// Reversed arcs have the executions with the other sign, and the same differences the other way round.
pub fn reversals()
    ensures execution { (nodes : ℕ) (arcs : List Arc) (xs : List ℤ) → IsExecution nodes arcs xs → IsExecution nodes (all_reversed arcs) (negated xs) }
    ensures execution_back { (nodes : ℕ) (arcs : List Arc) (xs : List ℤ)
        → IsExecution nodes (all_reversed arcs) xs
        → IsExecution nodes arcs (negated xs) }
    ensures greatest { (nodes : ℕ) (arcs : List Arc) (p q : ℕ) (h : ℤ) → IsGreatest nodes arcs p q h → IsGreatest nodes (all_reversed arcs) q p h }
    ensures greatest_back { (nodes : ℕ) (arcs : List Arc) (p q : ℕ) (h : ℤ)
        → IsGreatest nodes (all_reversed arcs) p q h
        → IsGreatest nodes arcs q p h }
    ensures unbounded { (nodes : ℕ) (arcs : List Arc) (p q : ℕ) → IsUnbounded nodes arcs p q → IsUnbounded nodes (all_reversed arcs) q p }
    ensures unbounded_back { (nodes : ℕ) (arcs : List Arc) (p q : ℕ) → IsUnbounded nodes (all_reversed arcs) p q → IsUnbounded nodes arcs q p }
    ensures path_back { (arcs : List Arc) (p q : ℕ) (steps : List Arc) → IsPath (all_reversed arcs) p q steps → IsPath arcs q p (walked_back steps) }
    ensures same_sum { (steps : List Arc) → sum_of (walked_back steps) ≡ sum_of steps }
{}

/// There is one earliest execution at most; it begins and grows with 0, and its values are at most the number of nodes
/// times the greatest weight.
pub fn earliest()
    ensures one { (nodes : ℕ) (arcs : List Arc) (xs ys : List ℤ) → IsEarliest nodes arcs xs → IsEarliest nodes arcs ys → xs ≡ ys }
    ensures no_arcs { (nodes : ℕ) (xs : List ℤ) → length xs ≡ nodes → ((k : ℕ) → at xs k ≡ pos 0) → IsEarliest nodes [] xs }
    ensures grown { (nodes : ℕ) (arcs : List Arc) (xs : List ℤ)
        → AreWithin nodes arcs → IsEarliest nodes arcs xs
        → IsEarliest (nodes + 1) arcs (xs ++ pos 0 ∷ []) }
    ensures height { (nodes : ℕ) (arcs : List Arc) (xs : List ℤ) (height : ℕ)
        → AreWithin nodes arcs → AreUpTo height arcs → IsEarliest nodes arcs xs → (k : ℕ) → k < nodes
        → at xs k ≤ℤ pos (nodes * height) }
{}

/// A path without a repeated node has fewer arcs than there are nodes, and so its sum is small.
pub fn simple_paths()
    ensures short { (nodes : ℕ) (arcs : List Arc) (p q : ℕ) (steps : List Arc)
        → AreWithin nodes arcs → p < nodes → IsPath arcs p q steps → IsSimple p steps
        → length steps < nodes }
    ensures sum { (nodes : ℕ) (arcs : List Arc) (p q : ℕ) (steps : List Arc) (height : ℕ)
        → AreUpTo height arcs → IsPath arcs p q steps → length steps ≤ nodes
        → (neg_ℤ (pos (nodes * height)) ≤ℤ sum_of steps) × (sum_of steps ≤ℤ pos (nodes * height)) }
{}

/// Arcs by number have a list, whose executions are the values that obey each arc in force.
pub fn tables()
    ensures listed { (table : ArcTable) (count : ℕ) → ((j : ℕ) → table.in_force j ≡ true → j < count) → Lists table (arcs_among table count) }
    ensures reversed { (table : ArcTable) (arcs : List Arc) → Lists table arcs → Lists (reversed_table table) (all_reversed arcs) }
    ensures obeyed { (nodes : ℕ) (table : ArcTable) (arcs : List Arc) (xs : List ℤ)
        → Lists table arcs → IsExecution nodes arcs xs
        → ObeysAll table (at xs) }
    ensures execution { (nodes : ℕ) (table : ArcTable) (arcs : List Arc) (xs : List ℤ)
        → Lists table arcs → length xs ≡ nodes → ObeysAll table (at xs)
        → IsExecution nodes arcs xs }
{}

/// A row with parents is a closed row, and following its parents walks a path of fewer arcs than there are nodes.
pub fn rows_with_parents()
    ensures closed { (nodes : ℕ) (table : ArcTable) (arcs : List Arc) (p : ℕ) (c : Cells)
        → Lists table arcs → IsRow nodes table p c
        → IsClosedRow arcs p c.known c.value }
    ensures path { (nodes : ℕ) (table : ArcTable) (arcs : List Arc) (p : ℕ) (c : Cells)
        → Lists table arcs → IsRow nodes table p c → (k : ℕ) → c.known k ≡ true
        → (steps : List Arc) × IsPath arcs p k steps × (sum_of steps ≡ c.value k) × (length steps < nodes) }
    ensures greatest { (nodes : ℕ) (table : ArcTable) (arcs : List Arc) (p : ℕ) (c : Cells)
        → Lists table arcs → IsRow nodes table p c → (xs : List ℤ) → AreWithin nodes arcs → IsExecution nodes arcs xs → (k : ℕ) → c.known k ≡ true
        → IsGreatest nodes arcs p k (c.value k) }
    ensures unbounded { (nodes : ℕ) (table : ArcTable) (arcs : List Arc) (p : ℕ) (c : Cells)
        → Lists table arcs → IsRow nodes table p c → (xs : List ℤ) → AreWithin nodes arcs → IsExecution nodes arcs xs → (k : ℕ) → k < nodes
        → c.known k ≡ false
        → IsUnbounded nodes arcs p k }
    ensures one { (nodes : ℕ) (table : ArcTable) (arcs : List Arc) (p : ℕ) (c d : Cells) (xs : List ℤ)
        → Lists table arcs → AreWithin nodes arcs → IsExecution nodes arcs xs → IsRow nodes table p c → IsRow nodes table p d → (k : ℕ) → k < nodes
        → (c.known k ≡ d.known k) × (c.known k ≡ true → c.value k ≡ d.value k) }
    ensures grown { (nodes : ℕ) (table : ArcTable) (p : ℕ) (c : Cells) → IsRow nodes table p c → IsRow (nodes + 1) table p c }
    ensures high { (nodes : ℕ) (table : ArcTable) (p : ℕ) (c : Cells) (height : ℕ)
        → IsRow nodes table p c → ((j : ℕ) → table.in_force j ≡ true → (table.arc j).weight ≤ℤ pos height) → (k : ℕ) → c.known k ≡ true
        → c.value k ≤ℤ pos (nodes * height) }
{}

/// The same of the row of the reversed table, whose distances lead towards its node.
pub fn rows_with_parents_towards()
    ensures closed { (nodes : ℕ) (table : ArcTable) (arcs : List Arc) (p : ℕ) (c : Cells)
        → Lists table arcs → IsRow nodes (reversed_table table) p c
        → IsClosedRow (all_reversed arcs) p c.known c.value }
    ensures path { (nodes : ℕ) (table : ArcTable) (arcs : List Arc) (p : ℕ) (c : Cells)
        → Lists table arcs → IsRow nodes (reversed_table table) p c → (k : ℕ) → c.known k ≡ true
        → (steps : List Arc) × IsPath arcs k p steps × (sum_of steps ≡ c.value k) × (length steps < nodes) }
    ensures greatest { (nodes : ℕ) (table : ArcTable) (arcs : List Arc) (p : ℕ) (c : Cells)
        → Lists table arcs → IsRow nodes (reversed_table table) p c → (xs : List ℤ) → AreWithin nodes arcs → IsExecution nodes arcs xs → (k : ℕ)
        → c.known k ≡ true
        → IsGreatest nodes arcs k p (c.value k) }
    ensures unbounded { (nodes : ℕ) (table : ArcTable) (arcs : List Arc) (p : ℕ) (c : Cells)
        → Lists table arcs → IsRow nodes (reversed_table table) p c → (xs : List ℤ) → AreWithin nodes arcs → IsExecution nodes arcs xs → (k : ℕ)
        → k < nodes → c.known k ≡ false
        → IsUnbounded nodes arcs k p }
{}

/// A problem and a list of arcs that stands for it have the same executions, between the same nodes: so the greatest
/// differences of the one are those of the other.
pub fn problems()
    ensures execution { (p : ProblemLists) (readings : List Reading) (arcs : List Arc) (x : Times) (xs : List ℤ)
        → AreReadings p readings → StandsFor p readings arcs → xs ≡ map x (nodes_of p readings)
        → IsExecution (length (nodes_of p readings)) arcs xs ↔ bounds.IsExecution p x }
    ensures within { (p : ProblemLists) (readings : List Reading) (arcs : List Arc)
        → AreReadings p readings → StandsFor p readings arcs
        → AreWithin (length (nodes_of p readings)) arcs }
    ensures greatest { (p : ProblemLists) (readings : List Reading) (arcs : List Arc) (j k : ℕ) (from to : Node) (h : ℤ)
        → AreReadings p readings → StandsFor p readings arcs → IsNodeAt p readings j from → IsNodeAt p readings k to
        → IsGreatest (length (nodes_of p readings)) arcs j k h ↔ IsGreatestOf p from to h }
    ensures unbounded { (p : ProblemLists) (readings : List Reading) (arcs : List Arc) (j k : ℕ) (from to : Node)
        → AreReadings p readings → StandsFor p readings arcs → IsNodeAt p readings j from → IsNodeAt p readings k to
        → IsUnbounded (length (nodes_of p readings)) arcs j k ↔ IsUnboundedOf p from to }
{}

/// The earliest execution of a problem is that of the arcs that stand for it; a negative cycle of its bounds is a
/// contradiction, and leaves no execution.
pub fn solutions()
    ensures earliest { (p : ProblemLists) (readings : List Reading) (arcs : List Arc) (x : Times) (xs : List ℤ)
        → AreReadings p readings → StandsFor p readings arcs → xs ≡ map x (nodes_of p readings)
        → IsEarliest (length (nodes_of p readings)) arcs xs ↔ IsEarliestExecution p x }
    ensures contradiction { (p : ProblemLists) (readings : List Reading) (arcs : List Arc) (steps : List NamedArc)
        → All (IsBoundArc p readings) steps → IsContradiction arcs (map (λ (s : NamedArc). s.1) steps)
        → IsContradictionOf p (map weighed steps) }
    ensures no_execution { (p : ProblemLists) (steps : List WeighedBound) (x : Times) → IsContradictionOf p steps → bounds.IsExecution p x → ⊥ }
{}
