//! What is proved of the repair of rows after withdrawals. The function does nothing.

ghost use Rattle.std.specs.Prelude.{◌≡◌, ℕ, ◌+◌, ◌*◌, ◌≤◌, ℤ, pos, ◌≤ℤ◌, Bool, true, false, List};
ghost use Rattle.problem_model.specs.Executions.{Arc};
ghost use Rattle.problem_model.specs.Tables.{ArcTable, ObeysAll};
ghost use Rattle.problem_model.specs.Parents.{Cells, IsRow};
ghost use Rattle.problem_model.specs.RowPops.{IsUnderWay};
ghost use Rattle.problem_model.specs.Sums.{changed_sum, done_sum};
ghost use Rattle.withdrawals.specs.Withdrawals.{flagged_sum};
ghost use Rattle.withdrawals.specs.Regrowths.{earlier, are_equal_to, IsShrunk, IsAffectedIn, AreMarksIn, IsCleared, IsRemnant, IsRegrown};

/// Marks that are closed have every affected cell. The cells that are left hold for the arcs that are left. Once all the
/// others are pulled, the row is under way over the cleared row, and no step is taken yet. At the end it is the row of
/// the arcs that are left, and only marked cells were settled.
pub fn regrowths()
    ensures affected { (nodes : ℕ) (table : ArcTable) (was : ℕ → Bool) (removed : List Arc) (p : ℕ) (row : Cells) (marked : ℕ → Bool)
        → IsShrunk table was (are_equal_to table removed) → IsRow nodes (earlier table was) p row → AreMarksIn table (are_equal_to table removed) p row marked
        → (k : ℕ) → IsAffectedIn table (are_equal_to table removed) p row k → marked k ≡ true }
    ensures remnant { (nodes : ℕ) (table : ArcTable) (was : ℕ → Bool) (removed : List Arc) (p : ℕ) (e : ℕ → ℤ) (row c : Cells) (marked : ℕ → Bool)
        → IsShrunk table was (are_equal_to table removed) → IsRow nodes (earlier table was) p row → AreMarksIn table (are_equal_to table removed) p row marked → IsCleared row c marked
        → ObeysAll table e → IsRemnant table p c }
    ensures under_way { (nodes : ℕ) (table : ArcTable) (p : ℕ) (e : ℕ → ℤ) (old c : Cells) (waits : ℕ → Bool)
        → IsRemnant table p old → IsRegrown table old c waits
        → (base heavy : ℕ) → ((k : ℕ) → nodes ≤ k → c.known k ≡ false) → ((k : ℕ) → c.known k ≡ true → c.value k ≤ℤ pos base)
        → IsUnderWay nodes table p e base heavy old c waits }
    ensures free { (nodes : ℕ) (table : ArcTable) (old c : Cells) (waits : ℕ → Bool) → IsRegrown table old c waits
        → (each : ℕ → ℕ) → done_sum nodes each old c waits ≡ 0 }
    ensures settled { (nodes : ℕ) (table : ArcTable) (p : ℕ) (e : ℕ → ℤ) (base heavy : ℕ) (old c : Cells) (waits : ℕ → Bool)
        → IsRemnant table p old → IsUnderWay nodes table p e base heavy old c waits → ((k : ℕ) → waits k ≡ false)
        → IsRow nodes table p c }
    ensures within { (nodes : ℕ) (table : ArcTable) (was : ℕ → Bool) (removed : List Arc) (p : ℕ) (e : ℕ → ℤ) (base heavy : ℕ) (row old c : Cells) (marked waits : ℕ → Bool)
        → IsShrunk table was (are_equal_to table removed) → IsRow nodes (earlier table was) p row → IsCleared row old marked
        → IsRemnant table p old → IsUnderWay nodes table p e base heavy old c waits → ((k : ℕ) → waits k ≡ false)
        → (each : ℕ → ℕ) → changed_sum nodes each old c ≤ flagged_sum nodes each marked }
    ensures cost { (nodes : ℕ) (table : ArcTable) (removed : List Arc) (p : ℕ) (row : Cells) (marked flag : ℕ → Bool) (onward back : ℕ → ℕ) (marking pull settle : ℕ)
        → AreMarksIn table (are_equal_to table removed) p row marked → ((k : ℕ) → IsAffectedIn table (are_equal_to table removed) p row k → flag k ≡ true)
        → marking ≤ flagged_sum nodes (λ k. onward k + 1) marked → pull ≤ flagged_sum nodes (λ k. back k + 1) marked → settle ≤ flagged_sum nodes (λ k. onward k + 2) marked + 1
        → marking + pull + settle ≤ flagged_sum nodes (λ k. 2 * (onward k + back k) + 5) flag + 2 }
{}
