// What is true of every capture, whatever pieces it comes in.
ghost use Rattle.std.specs.Prelude.{◌≡◌, ◌≢◌, ◌⊎◌, ◌++◌, [], ℕ, List, length};
ghost use Rattle.captures.specs.declared.errors.CaptureError.{CaptureError};
ghost use Rattle.captures.specs.declared.errors.CaptureError.TheVariants.{Memory};
ghost use Rattle.captures.specs.Capture.{Capture, Seen, Reads, IsFault, nothing};
ghost use Rattle.captures.specs.Feeding.{Tail, StandsFor, IsNew, taken, dropped_of, passed_of, waiting_of};

/// A law, which does nothing when it runs: a stream stands for one capture at most.
pub fn captures_are_one()
    ensures { (s : List ℕ) (a b : Capture) → Reads s a → Reads s b → a ≡ b }
{}

/// A law: each stream stands for a capture, or is refused for another reason than want of memory.
pub fn streams_are_judged()
    ensures { (s : List ℕ) → ((c : Capture) × Reads s c) ⊎ ((e : CaptureError) × IsFault s e × (e ≢ Memory)) }
{}

/// A law: a stream that stands for a capture is refused for no reason but want of memory.
pub fn refused_or_read()
    ensures { (s : List ℕ) (c : Capture) (e : CaptureError) → Reads s c → IsFault s e → e ≢ Memory → ⊥ }
{}

/// A law: a stream is refused for one reason, at one place.
pub fn faults_are_one()
    ensures { (s : List ℕ) (e f : CaptureError) → IsFault s e → IsFault s f → e ≢ Memory → f ≢ Memory → e ≡ f }
{}

/// A law: where a stream goes on, its packets so far stay the first of all.
pub fn old_packets_stay()
    ensures { (s t : List ℕ) (a b : Capture) → Reads s a → Reads (s ++ t) b → (more : List Seen) × (b.packets ≡ a.packets ++ more) }
{}

/// A law: the stream of no byte stands for nothing yet.
pub fn nothing_reads()
    ensures { Reads [] nothing }
{}

/// A law: what is kept of a stream is a matter of its bytes alone, however they were cut.
pub fn tails_are_one()
    ensures { (t u : Tail) (s : List ℕ) (a b : Capture) → StandsFor t s a → StandsFor u s b → t ≡ u }
{}

/// A law: a new capture stands for nothing yet.
pub fn new_stands()
    ensures { (t : Tail) → IsNew t → StandsFor t [] nothing }
{}

/// A law: what is kept of a stream tells what the stream says, how many of its packets are passed over, how many were
/// dropped, how many of its bytes are pending, and how many came.
pub fn kept_streams_are_read()
    ensures reads { (t : Tail) (s : List ℕ) (c : Capture) → StandsFor t s c → Reads s c }
    ensures passed { (t : Tail) (s : List ℕ) (c : Capture) → StandsFor t s c → passed_of t ≡ c.passed }
    ensures dropped { (t : Tail) (s : List ℕ) (c : Capture) → StandsFor t s c → dropped_of t ≡ c.dropped }
    ensures waiting { (t : Tail) (s : List ℕ) (c : Capture) → StandsFor t s c → waiting_of t ≡ length c.rest }
    ensures size { (t : Tail) (s : List ℕ) (c : Capture) → StandsFor t s c → taken t ≡ length s }
{}
