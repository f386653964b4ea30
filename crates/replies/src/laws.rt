// What is true of every line.
ghost use Rattle.std.specs.Prelude.{◌≡◌, ◌<◌, ℕ, List, length, Option, Some, All};
ghost use Rattle.ports.specs.Files.{Content};
ghost use Rattle.problem_model.specs.Problem.{ProblemLists, IsProblem};
ghost use Rattle.decl.specs.Declaration.{Declaration, IsDeclaration};
ghost use Rattle.traces.specs.Messages.{problem_of};
ghost use Rattle.queries.specs.Replies.{IsProofText};
ghost use Rattle.replies.specs.Commands as asked;
ghost use Rattle.replies.specs.Commands.{Asks};
ghost use Rattle.replies.specs.Reply.{State, Found};
ghost use Rattle.replies.specs.Sessions.{LineReply, Session, start};
ghost use Rattle.replies.specs.OneProof.{AreOneProof};
ghost use Rattle.replies.specs.OneReply.{IsState, AreOneReply};
ghost use Rattle.replies.specs.Lawful.{FindsBytes, IsLawful, HoldBytes, NoneFailed, AreOneOutput};

use crate::{merges_are_one, times_are_one};
use captures::{
    captures_are_one, faults_are_one, nothing_reads, old_packets_stay, refused_or_read,
};
use event_log::log_answers_are_one;
use widen::blames_are_one;

/// A law, which does nothing when it runs: a line asks for one command at most.
pub fn commands_are_one()
    ensures { (line : List ℕ) (a b : Option asked.Command) → Asks line a → Asks line b → a ≡ b }
{}

/// A law, which does nothing when it runs: two certificates of the interval from one event to another say the same
/// ends, with the same executions and the same cuts. They differ in their paths of bounds alone.
pub fn proofs_are_one()
    ensures { (p : ProblemLists) (first second : ℕ) (a b : List ℕ) → IsProblem p → first < length p.events → IsProofText p first second a → IsProofText p first second b → AreOneProof p first second a b }
{}

/// A law, which does nothing when it runs: what was declared and accepted, a line and what its read came to make one
/// reply, but for which contradiction, which path of bounds and which smaller problem is printed, and one state that
/// follows. Contradictions are printed for `interval`, `order`, `time`, `times`, `merge` and `prove` alone, where no
/// execution exists, paths for `prove` alone, and smaller problems for `thin` alone.
pub fn replies_are_one()
    ensures text { (d : Declaration) (files : Content) (s after other : State) (line a b : List ℕ) (found : Found) → IsDeclaration d → IsState d s → LineReply d files s line found a after → LineReply d files s line found b other → AreOneReply (problem_of d s.traces) line a b }
    ensures next { (d : Declaration) (files : Content) (s after other : State) (line a b : List ℕ) (found : Found) → IsDeclaration d → IsState d s → LineReply d files s line found a after → LineReply d files s line found b other → after ≡ other }
{
    // It follows from what the parts of a reply say of themselves.
    log_answers_are_one();
    captures_are_one();
    faults_are_one();
    refused_or_read();
    queries::replies_are_one();
    merges_are_one();
    times_are_one();
    blames_are_one();
}

/// A law, which does nothing when it runs: what a session has when it starts is lawful, and so is what it has behind a line,
/// whatever the line and its reply, and behind a script, where what is read is bytes.
pub fn sessions_are_lawful()
    ensures start { (d : Declaration) → IsLawful d (start d) }
    ensures line { (d : Declaration) (files : Content) (s after : State) (line text : List ℕ) (found : Found) → IsLawful d s → FindsBytes found → LineReply d files s line found text after → IsLawful d after }
    ensures script { (d : Declaration) (files : Content) (lines texts : List (List ℕ)) (founds : List Found) (after : State) → All FindsBytes founds → Session d files (start d) lines founds texts after → IsLawful d after }
{
    nothing_reads();
    old_packets_stay();
}

/// A law, which does nothing when it runs: where files tell what they hold, and no read of them fails, what the reads
/// of a script come to is one, whatever its replies. Where they hold bytes, it is bytes.
pub fn reads_are_one()
    ensures one { (d : Declaration) (files : List ℕ → Option (List ℕ)) (lines a b : List (List ℕ)) (founds others : List Found) (s t after other : State) → NoneFailed founds → NoneFailed others → Session d (Some files) s lines founds a after → Session d (Some files) t lines others b other → founds ≡ others }
    ensures bytes { (d : Declaration) (files : List ℕ → Option (List ℕ)) (lines texts : List (List ℕ)) (founds : List Found) (s after : State) → HoldBytes files → Session d (Some files) s lines founds texts after → All FindsBytes founds }
{}

/// A law, which does nothing when it runs: a declaration, files, a script and what its reads came to, where that is
/// bytes, make one output, save the choice of contradictions, of paths of bounds and of smaller problems, and one state
/// behind each line and behind them all.
pub fn outputs_are_one()
    ensures output { (d : Declaration) (files : Content) (lines a b : List (List ℕ)) (founds : List Found) (after other : State) → IsDeclaration d → All FindsBytes founds → Session d files (start d) lines founds a after → Session d files (start d) lines founds b other → AreOneOutput d files (start d) lines founds a b }
    ensures last { (d : Declaration) (files : Content) (lines a b : List (List ℕ)) (founds : List Found) (after other : State) → IsDeclaration d → All FindsBytes founds → Session d files (start d) lines founds a after → Session d files (start d) lines founds b other → after ≡ other }
{
    replies_are_one();
    sessions_are_lawful();
}
