// Certificates.

/// The contradiction of the two logs where host a has waited too long: the way there and back takes 90 ns at most, and
/// 95 ns by the clock of host a.
pub const CYCLE: &str =
    "certificate 1\ncycle\nstep early a#2 0.000000000\nstep span-least a 100 195 -95.000000000\n\
    step late a#1 0.000000000\nstep delay-most a#1 b#1 20.000000000\nstep early b#1 0.000000000\n\
    step span-most b 250 300 50.000000000\nstep late b#2 0.000000000\nstep delay-most b#2 a#2 20.000000000\n\
    end\n";

/// The interval of events a#1 and b#1 of the two logs.
pub const TWO_LOGS_PROOF: &str =
    "certificate 1\nends a#1 b#1\nupper 20.000000000\nstep delay-most a#1 b#1 20.000000000\n\
    event a#1 0.000000000\nevent a#2 80.000000000\nevent b#1 20.000000000\nevent b#2 70.000000000\n\
    reading a 100 0.000000000\nreading a 180 80.000000000\nreading b 250 20.000000000\n\
    reading b 300 70.000000000\nlower 10.000000000\nstep delay-least a#1 b#1 -10.000000000\n\
    event a#1 0.000000000\nevent a#2 80.000000000\nevent b#1 10.000000000\nevent b#2 60.000000000\n\
    reading a 100 0.000000000\nreading a 180 80.000000000\nreading b 250 10.000000000\n\
    reading b 300 60.000000000\nend\n";

/// That of two events that nothing ties, which has no ends.
pub const APART_PROOF: &str =
    "certificate 1\nends a#1 b#1\nupper +inf\ninside a\nevent a#1 0.000000000\nevent b#1 0.000000000\n\
    reading a 0 0.000000000\nreading b 0 0.000000000\nlower -inf\ninside b\nevent a#1 0.000000000\n\
    event b#1 0.000000000\nreading a 0 0.000000000\nreading b 0 0.000000000\nend\n";
