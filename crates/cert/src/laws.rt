// What lines by a listing are to a problem, and what written texts are read as.
ghost use Rattle.std.specs.Prelude.{◌≡◌, ◌<◌, ◌≤◌, ℕ, List, length, map, All, ℤ};
ghost use Rattle.problem_model.specs.declared.items.Bound.{Bound};
ghost use Rattle.problem_model.specs.Problem.{ProblemLists, IsProblem};
ghost use Rattle.problem_model.specs.Bounds.{Constraint, Declares};
ghost use Rattle.problem_model.specs.Nodes.{Reading, AreReadings, nodes_of};
ghost use Rattle.problem_model.specs.ExecutionText.{value_lines};
ghost use Rattle.problem.specs.Listing.{listing_of};
ghost use Rattle.cert.specs.declared.chain.Step.{Step};
ghost use Rattle.cert.specs.declared.certificate.Cert.{Cert};
ghost use Rattle.cert.specs.declared.certificate.Cert.TheVariants.{Cycle, Run};
ghost use Rattle.cert.specs.EndLists.{EndLists};
ghost use Rattle.cert.specs.Listed.{HasNames, listed_time, listed_step, listed_nodes, listed_values, listed_cycle, listed_run, certified};
ghost use Rattle.cert.specs.CertificateText.{step_line, certificate_text, ends_lines, AreListsOf, IsCertOf};
ghost use Rattle.cert.specs.CertificateFormat.{said};
ghost use Rattle.cert.specs.CertificateFormat.Said.{CycleSaid, RunSaid, EndsSaid};
ghost use Rattle.cert.specs.ReadsCert.{FitsEndLists, FitsCert};
ghost use Rattle.cert.specs.ReadAgain.{IsReadAsCert, IsAccepted};
ghost use Rattle.cert.specs.Shows.{Shows};
ghost use Rattle.line_format.specs.Format.{most_text_bytes};

/// A law, which does nothing when it runs. By a problem's own listing each declared bound is named, and the lines that are
/// written are those of the problem's certificates.
pub fn listings()
    ensures named { (p : ProblemLists) (b : Bound) (c : Constraint) → Declares p b c → IsProblem p → HasNames (listing_of p) b }
    ensures steps { (p : ProblemLists) (s : Step) → listed_step (listing_of p) (s.bound, s.weight) ≡ step_line p s }
    ensures nodes { (p : ProblemLists) (readings : List Reading) → AreReadings p readings → length (listed_nodes (listing_of p)) ≡ length (nodes_of p readings) }
    ensures numbers { (p : ProblemLists) (readings : List Reading) → AreReadings p readings → All (λ k. k < length (nodes_of p readings)) (listed_nodes (listing_of p)) }
    ensures values { (p : ProblemLists) (readings : List Reading) (xs : List ℤ) → AreReadings p readings → length xs ≡ length (nodes_of p readings)
        → listed_values (listing_of p) (listed_time xs) ≡ value_lines p (nodes_of p readings) xs }
    ensures cycle { (p : ProblemLists) (readings : List Reading) (steps : List Step)
        → listed_cycle (listing_of p) (map (λ s. (s.bound, s.weight)) steps) ≡ certificate_text p (nodes_of p readings) (Cycle steps) }
    ensures run { (p : ProblemLists) (readings : List Reading) (xs : List ℤ) → AreReadings p readings → length xs ≡ length (nodes_of p readings)
        → listed_run (listing_of p) (listed_time xs) ≡ certificate_text p (nodes_of p readings) (Run xs) }
{}

/// A law, which does nothing when it runs. The text of a certificate whose numbers are in range is read, where it is not
/// too long, as a certificate that says the same, and is refused for want of memory alone. What a certificate shows is
/// decided by what it says, so one that shows what it should is accepted.
pub fn read_again()
    ensures certificate { (p : ProblemLists) (readings : List Reading) (c : Cert) → IsProblem p → AreReadings p readings
        → IsCertOf p c → FitsCert c → length (certificate_text p (nodes_of p readings) c) ≤ most_text_bytes
        → IsReadAsCert p readings (certificate_text p (nodes_of p readings) c) (said c) }
    ensures ends { (problem : ProblemLists) (readings : List Reading) (p q : ℕ) (upper lower : EndLists) → IsProblem problem → AreReadings problem readings
        → p < length problem.events → q < length problem.events → AreListsOf problem upper → AreListsOf problem lower → FitsEndLists upper → FitsEndLists lower
        → length (certified (ends_lines problem (nodes_of problem readings) p q upper lower)) ≤ most_text_bytes
        → IsReadAsCert problem readings (certified (ends_lines problem (nodes_of problem readings) p q upper lower)) (EndsSaid p q upper lower) }
    ensures cycle { (steps : List Step) (d : Cert) → said d ≡ CycleSaid steps → d ≡ Cycle steps }
    ensures run { (execution : List ℤ) (d : Cert) → said d ≡ RunSaid execution → d ≡ Run execution }
    ensures shown { (p : ProblemLists) (readings : List Reading) (c : Cert) → IsProblem p → AreReadings p readings
        → IsCertOf p c → FitsCert c → length (certificate_text p (nodes_of p readings) c) ≤ most_text_bytes → Shows p c
        → IsAccepted p readings (certificate_text p (nodes_of p readings) c) }
    ensures same_shows { (p : ProblemLists) (c d : Cert) → said c ≡ said d → Shows p c → Shows p d }
{}
