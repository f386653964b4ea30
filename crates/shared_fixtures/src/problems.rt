// Problems.

/// Two clocks without error, and a message each way with 10 to 20 ns of delay. Events a#1, a#2, b#1 and b#2 have the
/// places 0 to 3.
pub const TWO_LOGS_PROBLEM: &str =
    "problem 1\nclock a 0 0 0 0\nclock b 0 0 0 0\nevent a#1 a 100\nevent a#2 a 180\nevent b#1 b 250\n\
    event b#2 b 300\nmessage a#1 b#1 10 20\nmessage b#2 a#2 10 20\nend\n";

/// The same, but host a has waited longer than bounds and clocks allow: both messages and the 50 ns between them take
/// 95 ns by its clock, so the messages together take 45.
pub const CONTRADICTING_PROBLEM: &str =
    "problem 1\nclock a 0 0 0 0\nclock b 0 0 0 0\nevent a#1 a 100\nevent a#2 a 195\nevent b#1 b 250\n\
    event b#2 b 300\nmessage a#1 b#1 10 20\nmessage b#2 a#2 10 20\nend\n";

/// The two logs, where the clock of b may be 3 ns early and 7 ns late. Events a#1, a#2, b#1 and b#2 are the nodes 0 to
/// 3; their readings 100, 180, 250 and 300 are the nodes 4 to 7.
pub const LATE_LOGS_PROBLEM: &str =
    "problem 1\nclock a 0 0 0 0\nclock b 0 0 3 7\nevent a#1 a 100\nevent a#2 a 180\nevent b#1 b 250\n\
    event b#2 b 300\nmessage a#1 b#1 10 20\nmessage b#2 a#2 10 20\nend\n";

/// Nothing ties the two clocks.
pub const APART_PROBLEM: &str =
    "problem 1\nclock a 0 0 0 0\nclock b 0 0 0 0\nevent a#1 a 0\nevent b#1 b 0\nend\n";

/// A message that may be under way for any time.
pub const OPEN_PROBLEM: &str =
    "problem 1\nclock c 0 0 0 0\nclock d 0 0 0 0\nevent p c 5\nevent q d 3\nmessage p q 0 none\nend\n";

/// The same, with a least delay.
pub const ONE_WAY_PROBLEM: &str =
    "problem 1\nclock c 0 0 0 0\nclock d 0 0 0 0\nevent p c 5\nevent q d 3\nmessage p q 1 none\nend\n";

/// A message takes 20 ns at least between events that are 10 ns apart.
pub const HOPELESS_PROBLEM: &str =
    "problem 1\nclock c 0 0 0 0\nevent p c 0\nevent q c 10\nmessage p q 20 none\nend\n";
