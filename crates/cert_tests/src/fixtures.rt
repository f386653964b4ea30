// Problems that several modules use.

// A message between two clocks. At the second an event comes up to 3 ns before the reading of its stamp and 5 ns behind.
pub(crate) const MESSAGE_PROBLEM: &str =
    "problem 1\nclock a 0 0 0 0\nclock b 0 0 3 5\nevent a#1 a 100\nevent b#1 b 250\nmessage a#1 b#1 10 20\nend\n";
