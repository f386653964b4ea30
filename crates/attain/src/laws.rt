//! What the written certificates are to the problem that a listing lists, and that they are accepted. The functions do
//! nothing.
ghost use Rattle.std.specs.Prelude.{◌+◌, ◌≡◌, ◌<◌, ◌≤◌, ℕ, ℤ, List, length, map, All};
ghost use Rattle.line_format.specs.Format.{most_text_bytes};
ghost use Rattle.problem_model.specs.declared.items.Bound.{Bound};
ghost use Rattle.problem_model.specs.declared.items.Node.{Node};
ghost use Rattle.problem_model.specs.Problem.{ProblemLists, IsProblem};
ghost use Rattle.problem_model.specs.Bounds.{Times};
ghost use Rattle.problem_model.specs.Nodes.{Reading, AreReadings, nodes_of};
ghost use Rattle.problem_model.specs.Solutions.{IsEarliestExecution, IsContradictionOf, WeighedBound, Leads, weight_of};
ghost use Rattle.problem_model.specs.Limits.{path_bits};
ghost use Rattle.cert.specs.declared.chain.Step.{Step};
ghost use Rattle.cert.specs.declared.certificate.Cert.TheVariants.{Cycle, Run};
ghost use Rattle.cert.specs.EndLists.{EndLists};
ghost use Rattle.problem.specs.Listing.{Listed, listed_nodes};
ghost use Rattle.cert.specs.Listed.{listed_cycle, listed_run};
ghost use Rattle.cert.specs.CertificateText.{certificate_text};
ghost use Rattle.cert.specs.ReadsCert.{FitsEndLists};
ghost use Rattle.cert.specs.ReadAgain.{IsAccepted};
ghost use Rattle.cert.specs.Shows.{LeadsAgainst, weighed_bounds};
ghost use Rattle.problem_graph.specs.ListedProblem.{IsListedBy};
ghost use Rattle.attain.specs.ListedProblem.{AreCarried};
ghost use Rattle.attain.specs.Tight.{IsUnder, AreTight, IsTightText};

/// Where a problem is listed, what is written by the listing is the text of a certificate of the problem: that of the
/// same steps, with events by their places, or that of the values at the listed nodes.
pub fn listed_problems()
    ensures cycle { (l : Listed) (p : ProblemLists) (readings : List Reading) (steps : List (Bound × ℤ)) (others : List Step)
        → IsListedBy l p readings → AreCarried l steps others
        → listed_cycle l steps ≡ certificate_text p (nodes_of p readings) (Cycle others) }
    ensures run { (l : Listed) (p : ProblemLists) (readings : List Reading) (x : ℕ → ℤ)
        → IsListedBy l p readings
        → listed_run l x ≡ certificate_text p (nodes_of p readings) (Run (map x (listed_nodes l))) }
{}

/// What is written is read again as a certificate that shows what it should, and is refused for want of memory alone: of
/// the ends of an interval, of a contradiction with no more bounds than there are nodes, of the earliest execution. Its
/// numbers are in range, its weights below 2^93 and its real times below 2^120 in absolute value, those of the earliest
/// execution below 2^119, and its text is not too long. So checking it answers yes.
pub fn accepted()
    ensures fits { (p : ProblemLists) (readings : List Reading) (first second : ℕ) (upper lower : EndLists) → AreTight p readings first second upper lower
        → IsProblem p → AreReadings p readings → FitsEndLists upper × FitsEndLists lower }
    ensures ends_short { (p : ProblemLists) (readings : List Reading) (first second : ℕ) (text : List ℕ) → IsTightText p readings first second text
        → IsProblem p → AreReadings p readings → length text < most_text_bytes }
    ensures ends { (p : ProblemLists) (readings : List Reading) (first second : ℕ) (text : List ℕ) → IsTightText p readings first second text
        → IsProblem p → AreReadings p readings → first < length p.events → second < length p.events
        → IsAccepted p readings text }
    ensures cycle { (p : ProblemLists) (readings : List Reading) (steps : List Step) → IsContradictionOf p (weighed_bounds steps)
        → length steps ≤ length (nodes_of p readings) → IsProblem p → AreReadings p readings
        → IsAccepted p readings (certificate_text p (nodes_of p readings) (Cycle steps)) }
    ensures cycle_short { (p : ProblemLists) (readings : List Reading) (steps : List Step) → IsContradictionOf p (weighed_bounds steps)
        → length steps ≤ length (nodes_of p readings) → IsProblem p → AreReadings p readings
        → length (certificate_text p (nodes_of p readings) (Cycle steps)) < most_text_bytes }
    ensures run { (p : ProblemLists) (readings : List Reading) (x : Times) → IsEarliestExecution p x → IsProblem p → AreReadings p readings
        → IsAccepted p readings (certificate_text p (nodes_of p readings) (Run (map x (nodes_of p readings)))) }
    ensures cycle_small { (p : ProblemLists) (steps : List Step) → IsContradictionOf p (weighed_bounds steps) → IsProblem p
        → All (λ s. IsUnder 93 s.weight) steps }
    ensures run_small { (p : ProblemLists) (readings : List Reading) (x : Times) → IsEarliestExecution p x → IsProblem p → AreReadings p readings
        → All (IsUnder (path_bits + 1)) (map x (nodes_of p readings)) }
    ensures run_short { (p : ProblemLists) (readings : List Reading) (x : Times) → IsEarliestExecution p x → IsProblem p → AreReadings p readings
        → length (certificate_text p (nodes_of p readings) (Run (map x (nodes_of p readings)))) < most_text_bytes }
{}

/// Declared bounds of a problem that lead from one node to another, onward or back, in fewer steps than it has nodes, have a
/// sum below 2^118 in absolute value, in units of 1e-9 ns.
pub fn short_paths()
    ensures onward { (p : ProblemLists) (readings : List Reading) (m n : Node) (steps : List WeighedBound) → Leads p m steps n
        → length steps < length (nodes_of p readings) → IsProblem p → AreReadings p readings → IsUnder path_bits (weight_of steps) }
    ensures back { (p : ProblemLists) (readings : List Reading) (m n : Node) (steps : List WeighedBound) → LeadsAgainst p m steps n
        → length steps < length (nodes_of p readings) → IsProblem p → AreReadings p readings → IsUnder path_bits (weight_of steps) }
{}
