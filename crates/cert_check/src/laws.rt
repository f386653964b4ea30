// What is proved of certificates, one function for each subject. None of them does anything.
ghost use Rattle.std.specs.Prelude.{◌≡◌, ℕ, ℤ, List};
ghost use Rattle.problem_model.specs.Problem.{ProblemLists, IsWellFormed};
ghost use Rattle.problem_model.specs.Bounds.{Times, IsExecution};
ghost use Rattle.problem_model.specs.Nodes.{Lists};
ghost use Rattle.cert.specs.declared.chain.Step.{Step};
ghost use Rattle.cert.specs.declared.certificate.EndProof.{EndProof};
ghost use Rattle.cert.specs.declared.certificate.Cert.{Cert};
ghost use Rattle.cert.specs.declared.certificate.Cert.TheVariants as certs;
ghost use Rattle.cert.specs.CertificateText.{IsCertOf};
ghost use Rattle.cert.specs.Shows.{Shows};
ghost use Rattle.cert_check.specs.declared.answer.Part.{Part};
ghost use Rattle.cert_check.specs.declared.answer.Reason.{Reason};
ghost use Rattle.cert_check.specs.declared.answer.Answer.{Answer};
ghost use Rattle.cert_check.specs.Reasons.{IsSo, IsAnswer};
ghost use Rattle.cert_check.specs.Ends.{IsUpperOfAll, IsLowerOfAll};

/// A law, which does nothing when it runs. What an accepted certificate says holds for all executions: with a cycle there
/// are none, a run is one of them, and an end of an interval is the extreme difference of its two events, or, where the
/// certificate says that there is no limit, some execution goes beyond any given number.
pub fn soundness()
    ensures cycle { (p : ProblemLists) (steps : List Step) (x : Times) → Shows p (certs.Cycle steps) → IsExecution p x → ⊥ }
    ensures run { (p : ProblemLists) (values : List ℤ) (x : Times) → IsWellFormed p → Shows p (certs.Run values) → Lists p x values → IsExecution p x }
    ensures upper { (p : ProblemLists) (a b : ℕ) (upper lower : EndProof) → Shows p (certs.Ends a b upper lower) → IsUpperOfAll p a b upper }
    ensures lower { (p : ProblemLists) (a b : ℕ) (upper lower : EndProof) → Shows p (certs.Ends a b upper lower) → IsLowerOfAll p a b lower }
{}

/// A law, which does nothing when it runs. Nothing is wrong with a certificate that shows what it should, and a
/// certificate has one answer.
pub fn reasons()
    ensures none { (p : ProblemLists) (c : Cert) (part : Part) (reason : Reason) → IsWellFormed p → IsCertOf p c → IsSo p c part reason → Shows p c → ⊥ }
    ensures one { (p : ProblemLists) (c : Cert) (a b : Answer) → IsWellFormed p → IsCertOf p c → IsAnswer p c a → IsAnswer p c b → a ≡ b }
{}
