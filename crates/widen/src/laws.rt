// What a widening says of a problem, in laws. None of them does anything.
ghost use Rattle.std.specs.Prelude.{◌≡◌, ◌≤◌, ◌<◌, ◌^◌, ◌↔◌, ◌⊎◌, ℕ, ℤ, List, Option, Result, Ok, Err};
ghost use Rattle.line_format.specs.Format.{Answers, Answer};
ghost use Rattle.line_format.specs.Format.Answer.{Found};
ghost use Rattle.problem_model.specs.Problem.{ProblemLists, IsWellFormed, IsProblem};
ghost use Rattle.problem_model.specs.Bounds.{Times, IsExecution};
ghost use Rattle.problem_model.specs.Nodes.{Reading, AreReadings, nodes_of};
ghost use Rattle.cert.specs.declared.chain.Step.{Step};
ghost use Rattle.cert.specs.declared.error.CertError.{CertError};
ghost use Rattle.cert.specs.declared.error.CertError.TheVariants as errors;
ghost use Rattle.cert_check.specs.declared.answer.Answer as judged;
ghost use Rattle.cert_check.specs.declared.answer.Answer.TheVariants as answers;
ghost use Rattle.cert_check.specs.declared.what.What.{What};
ghost use Rattle.cert_check.specs.Widened.{widened};
ghost use Rattle.widen.specs.declared.widening.Widening.{Widening};
ghost use Rattle.widen.specs.declared.widening.StatedWidening.{StatedWidening};
ghost use Rattle.widen.specs.declared.widening.Widening.TheVariants.{Least, Never};
ghost use Rattle.widen.specs.Least.{IsLeastWidening, HasNoWidening};
ghost use Rattle.widen.specs.Named.{NamesWhat};
ghost use Rattle.widen.specs.Widening.{IsWideningOf, ShowsWidening, IsJudged};
ghost use Rattle.widen.specs.WideningText.{widening_text};
ghost use Rattle.widen.specs.WideningFormat.{WideningSaid, said, widening_format};
ghost use Rattle.widen.specs.ReadsWidening.{IsWideningTextOf, ReadsWideningOver};
ghost use Rattle.widen.specs.JudgedText.{JudgesText};
ghost use Rattle.widen.specs.Found.{FindsWidening};
ghost use Rattle.widen.specs.Blame.{IsBlameText};

/// A law, which does nothing when it runs. What is an execution of a problem that is widened is one where it is widened
/// by more. So a widening that shows what it should is the least one, or there is none; a problem has one least
/// widening or none, and not both. A widening has one answer.
pub fn least()
    ensures rises { (what : What) (p : ProblemLists) (e f : ℕ) (x : Times) → e ≤ f → IsExecution (widened what p e) x → IsExecution (widened what p f) x }
    ensures shown { (what : What) (p : ProblemLists) (extra : ℕ) (execution : List ℤ) (cycle : Option (List Step)) → extra < 2 ^ 62
        → IsWideningOf p (Least extra execution cycle) → ShowsWidening what p (Least extra execution cycle) → IsLeastWidening what p extra }
    ensures never { (what : What) (p : ProblemLists) (cycle : List Step) → ShowsWidening what p (Never cycle) → HasNoWidening what p }
    ensures one { (what : What) (p : ProblemLists) (e f : ℕ) → IsLeastWidening what p e → IsLeastWidening what p f → e ≡ f }
    ensures not_both { (what : What) (p : ProblemLists) (e : ℕ) → IsLeastWidening what p e → HasNoWidening what p → ⊥ }
    ensures answer { (what : What) (p : ProblemLists) (w : Widening) (a b : judged.Answer) → IsWellFormed p → IsWideningOf p w → IsJudged what p w a → IsJudged what p w b → a ≡ b }
{}

/// A law, which does nothing when it runs: for a lawful problem each text has one answer, and the text of a widening whose
/// numbers are in range is read, where it is not too long, as that widening, and is refused for want of memory alone.
pub fn widening_answers_are_one()
    ensures one { (p : ProblemLists) (readings : List Reading) (text : List ℕ) (a b : Answer WideningSaid) → IsProblem p → AreReadings p readings → Answers (widening_format p readings) text a → Answers (widening_format p readings) text b → a ≡ b }
    ensures found { (p : ProblemLists) (readings : List Reading) (text : List ℕ) (what : What) (w : Widening) → AreReadings p readings → (IsWideningTextOf p readings what w text ↔ Answers (widening_format p readings) text (Found (said what w))) }
    ensures read_again { (p : ProblemLists) (readings : List Reading) (text : List ℕ) (s : StatedWidening) (result : Result StatedWidening CertError) → IsProblem p → AreReadings p readings
        → IsWideningTextOf p readings s.what s.widening text → ReadsWideningOver p readings text result → (result ≡ Ok s) ⊎ (result ≡ Err errors.Memory) }
{}

/// A law, which does nothing when it runs: what `least_widening` finds is the least widening, or there is none. Its
/// text is not too long and its numbers are in range, and what reading and judging it answers is yes, or that memory
/// ran out.
pub fn found_widenings()
    ensures least { (what : What) (p : ProblemLists) (extra : ℕ) (execution : List ℤ) (cycle : Option (List Step)) → FindsWidening what p (Least extra execution cycle) → IsLeastWidening what p extra }
    ensures never { (what : What) (p : ProblemLists) (cycle : List Step) → FindsWidening what p (Never cycle) → HasNoWidening what p }
    ensures fits { (what : What) (p : ProblemLists) (readings : List Reading) (w : Widening) → IsProblem p → AreReadings p readings → NamesWhat p what → FindsWidening what p w
        → IsWideningTextOf p readings what w (widening_text p (nodes_of p readings) what w) }
    ensures accepted { (what : What) (p : ProblemLists) (readings : List Reading) (w : Widening) (result : Result judged.Answer CertError) → IsProblem p → AreReadings p readings → NamesWhat p what → FindsWidening what p w
        → JudgesText p (widening_text p (nodes_of p readings) what w) result → (result ≡ Ok answers.Yes) ⊎ (result ≡ Err errors.Memory) }
{}

/// A law, which does nothing when it runs: a problem has one text that says what is to blame.
pub fn blames_are_one()
    ensures { (p : ProblemLists) (a b : List ℕ) → IsBlameText p a → IsBlameText p b → a ≡ b }
{}
