// What is true of the clocks of every declaration.
ghost use Rattle.std.specs.Prelude.{◌≡◌, ◌≢◌, ◌<◌, ◌^◌, ◌↔◌, ℕ, All, AllPairs};
ghost use Rattle.problem_model.specs.Problem.{ProblemLists, LeadsOn};
ghost use Rattle.problem_model.specs.Bounds.{ComesAfter};
ghost use Rattle.decl.specs.Declaration.{Declaration, IsDeclaration, follows_of, AreOfOneHost};

/// A law, which does nothing when it runs. The follows of a declaration lead on in its list of clocks, no clock is the
/// earlier or the later of two, and gaps are below 2^62 ns. With them clock c comes after clock b exactly where both
/// are of one host and c stands behind b.
pub fn clocks_of_a_host_follow()
    ensures lead { (d : Declaration) → IsDeclaration d → All (LeadsOn d.clocks) (follows_of d) }
    ensures earliers { (d : Declaration) → AllPairs (λ a b. a.earlier ≢ b.earlier) (follows_of d) }
    ensures laters { (d : Declaration) → AllPairs (λ a b. a.later ≢ b.later) (follows_of d) }
    ensures gaps { (d : Declaration) → IsDeclaration d → All (λ f. f.gap < 2 ^ 62) (follows_of d) }
    ensures come { (d : Declaration) (p : ProblemLists) (b c : ℕ) → IsDeclaration d → p.follows ≡ follows_of d → (ComesAfter p b c ↔ ((b < c) × AreOfOneHost d b c)) }
{}
