// What a written text is read as.
ghost use Rattle.std.specs.Prelude.{◌≤◌, length};
ghost use Rattle.problem_model.specs.Problem.{ProblemLists, IsProblem};
ghost use Rattle.problem_model.specs.ProblemText.{problem_text};
ghost use Rattle.problem_text.specs.ReadAgain.{IsReadAs};
ghost use Rattle.line_format.specs.Format.{most_text_bytes};

/// A law, which does nothing when it runs. The text of a lawful problem has at most 2^34 bytes, so it is never too long to
/// be read. It is read as this problem, and is refused for want of memory alone.
pub fn read_again()
    ensures short { (p : ProblemLists) → IsProblem p → length (problem_text p) ≤ most_text_bytes }
    ensures same { (p : ProblemLists) → IsProblem p → IsReadAs (problem_text p) p }
{}
