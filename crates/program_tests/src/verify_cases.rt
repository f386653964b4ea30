// Certificates of small problems, changes of them, and what is answered of each.
use crate::fixtures::TWO_LOGS_RUN;
use shared_fixtures::{
    APART_PROBLEM, APART_PROOF, CONTRADICTING_PROBLEM, ONE_WAY_PROBLEM, OPEN_PROBLEM,
    TWO_LOGS_PROBLEM, TWO_LOGS_PROOF,
};

// The contradiction.
pub(crate) const CYCLE: &str =
    "certificate 1\ncycle\nstep delay-most a#1 b#1 20.000000000\nstep early b#1 0.000000000\n\
    step span-most b 250 300 50.000000000\nstep late b#2 0.000000000\nstep delay-most b#2 a#2 20.000000000\n\
    step early a#2 0.000000000\nstep span-least a 100 195 -95.000000000\nstep late a#1 0.000000000\nend\n";

// An interval with one end.
pub(crate) const ONE_SIDED: &str =
    "certificate 1\nends p q\nupper +inf\ninside c\nevent p 0.000000000\nevent q 1.000000000\nreading c 5 0.000000000\n\
    reading d 3 1.000000000\nlower 1.000000000\nstep delay-least p q -1.000000000\nevent p 0.000000000\n\
    event q 1.000000000\nreading c 5 0.000000000\nreading d 3 1.000000000\nend\n";

// The same from the receive to the send, with a cut that the message leaves.
pub(crate) const TURNED: &str =
    "certificate 1\nends q p\nupper +inf\ninside d\nevent p 0.000000000\nevent q 0.000000000\nreading c 5 0.000000000\n\
    reading d 3 0.000000000\nlower -inf\ninside c\nevent p 0.000000000\nevent q 0.000000000\nreading c 5 0.000000000\n\
    reading d 3 0.000000000\nend\n";

// Certificates with a change, and what is printed.
pub(crate) const ACCEPTED: [(&str, &str, &str, &str, &str); 6] = [
    (TWO_LOGS_PROBLEM, TWO_LOGS_PROOF, "", "", "yes\n"),
    (TWO_LOGS_PROBLEM, TWO_LOGS_RUN, "", "", "yes\n"),
    (CONTRADICTING_PROBLEM, CYCLE, "", "", "yes\n"),
    (APART_PROBLEM, APART_PROOF, "", "", "yes\n"),
    (ONE_WAY_PROBLEM, ONE_SIDED, "", "", "yes\n"),
    (
        APART_PROBLEM,
        APART_PROOF,
        "ends a#1 b#1\nupper +inf\ninside a\nevent a#1 0.000000000\nevent b#1 0.000000000\nreading a 0 0.000000000\n\
        reading b 0 0.000000000\nlower -inf\ninside b\nevent a#1 0.000000000\nevent b#1 0.000000000\n\
        reading a 0 0.000000000\nreading b 0 0.000000000\nend\n",
        "ends a#1 a#1\nupper 0.000000000\nevent a#1 0.000000000\nevent b#1 0.000000000\nreading a 0 0.000000000\n\
        reading b 0 0.000000000\nlower 0.000000000\nevent a#1 0.000000000\nevent b#1 0.000000000\n\
        reading a 0 0.000000000\nreading b 0 0.000000000\nend\n",
        "yes\n",
    ),
];

// Certificates of an interval with two ends, each with a change, and why they do not show what they should.
pub(crate) const CHANGED_INTERVALS: [(&str, &str, &str, &str, &str); 20] = [
    (
        TWO_LOGS_PROBLEM,
        TWO_LOGS_PROOF,
        "20.000000000\nevent",
        "20.000000001\nevent",
        "no upper weight 1\n",
    ),
    (
        TWO_LOGS_PROBLEM,
        TWO_LOGS_PROOF,
        "upper 20",
        "upper 21",
        "no upper sum 20.000000000\n",
    ),
    (
        TWO_LOGS_PROBLEM,
        TWO_LOGS_PROOF,
        "step delay-most a#1 b#1 20.000000000\n",
        "",
        "no upper join 1\n",
    ),
    (
        TWO_LOGS_PROBLEM,
        TWO_LOGS_PROOF,
        "step delay-least a#1 b#1 -10.",
        "step delay-most a#1 b#1 20.",
        "no lower join 1\n",
    ),
    (
        TWO_LOGS_PROBLEM,
        TWO_LOGS_PROOF,
        "event b#1 20.",
        "event b#1 21.",
        "no upper broken late b#1 0.000000000 1.000000000\n",
    ),
    (
        TWO_LOGS_PROBLEM,
        TWO_LOGS_PROOF,
        "event a#1 0.000000000\nevent a#2 80.000000000\nevent b#1 20.000000000\nevent b#2 70.000000000\n\
        reading a 100 0.000000000\nreading a 180 80.000000000\nreading b 250 20.000000000\n\
        reading b 300 70.000000000\n",
        "event a#1 0.000000000\nevent a#2 80.000000000\nevent b#1 10.000000000\nevent b#2 60.000000000\n\
        reading a 100 0.000000000\nreading a 180 80.000000000\nreading b 250 10.000000000\n\
        reading b 300 60.000000000\n",
        "no upper difference 10.000000000\n",
    ),
    (
        TWO_LOGS_PROBLEM,
        TWO_LOGS_PROOF,
        "ends a#1 b#1",
        "ends b#1 a#1",
        "no upper join 1\n",
    ),
    (
        TWO_LOGS_PROBLEM,
        TWO_LOGS_PROOF,
        "ends a#1 b#1",
        "ends a#1 b#2",
        "no upper join 1\n",
    ),
    (
        TWO_LOGS_PROBLEM,
        TWO_LOGS_PROOF,
        "ends a#1 b#1",
        "ends a#2 b#1",
        "no upper join 2\n",
    ),
    (
        TWO_LOGS_PROBLEM,
        TWO_LOGS_PROOF,
        "b#1 20.000000000\nevent",
        "b#1 20.000000000\nstep late a#1 0.000000000\nevent",
        "no upper join 3\n",
    ),
    (
        TWO_LOGS_PROBLEM,
        TWO_LOGS_PROOF,
        "b#1 20.000000000\nevent",
        "b#1 20.000000000\nstep early a#1 0.000000000\nevent",
        "no upper join 2\n",
    ),
    (
        TWO_LOGS_PROBLEM,
        TWO_LOGS_PROOF,
        "step delay-most a#1 b#1 20.",
        "step delay-most b#2 a#2 21.",
        "no upper join 1\n",
    ),
    (
        TWO_LOGS_PROBLEM,
        TWO_LOGS_PROOF,
        "step delay-most a#1 b#1 20.",
        "step delay-least a#1 b#1 -10.",
        "no upper join 1\n",
    ),
    (
        TWO_LOGS_PROBLEM,
        TWO_LOGS_PROOF,
        "lower 10",
        "lower 9",
        "no lower sum -10.000000000\n",
    ),
    (
        TWO_LOGS_PROBLEM,
        TWO_LOGS_PROOF,
        "lower 10",
        "lower -10",
        "no lower sum -10.000000000\n",
    ),
    (
        TWO_LOGS_PROBLEM,
        TWO_LOGS_PROOF,
        "-10.000000000\nevent",
        "-10.000000001\nevent",
        "no lower weight 1\n",
    ),
    (
        TWO_LOGS_PROBLEM,
        TWO_LOGS_PROOF,
        "event a#1 0.000000000\nevent a#2 80.000000000\nevent b#1 10.000000000\nevent b#2 60.000000000\n\
        reading a 100 0.000000000\nreading a 180 80.000000000\nreading b 250 10.000000000\n\
        reading b 300 60.000000000\n",
        "event a#1 0.000000000\nevent a#2 80.000000000\nevent b#1 20.000000000\nevent b#2 70.000000000\n\
        reading a 100 0.000000000\nreading a 180 80.000000000\nreading b 250 20.000000000\n\
        reading b 300 70.000000000\n",
        "no lower difference 20.000000000\n",
    ),
    (
        TWO_LOGS_PROBLEM,
        TWO_LOGS_PROOF,
        "event b#2 60.",
        "event b#2 61.",
        "no lower broken late b#2 0.000000000 1.000000000\n",
    ),
    (
        TWO_LOGS_PROBLEM,
        TWO_LOGS_PROOF,
        "step delay-least a#1 b#1 -10.000000000\n",
        "",
        "no lower join 1\n",
    ),
    (
        TWO_LOGS_PROBLEM,
        TWO_LOGS_PROOF,
        "-10.000000000\nevent",
        "-10.000000000\nstep early a#1 0.000000000\nevent",
        "no lower join 3\n",
    ),
];

// The same of executions and contradictions.
pub(crate) const CHANGED_RUNS_AND_CYCLES: [(&str, &str, &str, &str, &str); 12] = [
    (
        TWO_LOGS_PROBLEM,
        TWO_LOGS_RUN,
        "reading b 250 10.",
        "reading b 250 11.",
        "no run broken span-least b 250 300 -50.000000000 -49.000000000\n",
    ),
    (
        TWO_LOGS_PROBLEM,
        TWO_LOGS_RUN,
        "run\nevent a#1 0.000000000\nevent a#2 80.000000000\nevent b#1 10.000000000\nevent b#2 60.000000000\n\
        reading a 100 0.000000000\nreading a 180 80.000000000\nreading b 250 10.000000000\n\
        reading b 300 60.000000000\n",
        "run\nevent a#1 0.000000000\nevent a#2 80.000000000\nevent b#1 21.000000000\nevent b#2 71.000000000\n\
        reading a 100 0.000000000\nreading a 180 80.000000000\nreading b 250 21.000000000\n\
        reading b 300 71.000000000\n",
        "no run broken delay-most a#1 b#1 20.000000000 21.000000000\n",
    ),
    (
        TWO_LOGS_PROBLEM,
        TWO_LOGS_RUN,
        "run\nevent a#1 0.000000000\nevent a#2 80.000000000\nevent b#1 10.000000000\nevent b#2 60.000000000\n\
        reading a 100 0.000000000\nreading a 180 80.000000000\nreading b 250 10.000000000\n\
        reading b 300 60.000000000\n",
        "cycle\nstep late a#1 0.000000000\nstep early a#1 0.000000000\n",
        "no cycle sum 0.000000000\n",
    ),
    (
        TWO_LOGS_PROBLEM,
        TWO_LOGS_RUN,
        "run\nevent a#1 0.000000000\nevent a#2 80.000000000\nevent b#1 10.000000000\nevent b#2 60.000000000\n\
        reading a 100 0.000000000\nreading a 180 80.000000000\nreading b 250 10.000000000\n\
        reading b 300 60.000000000\n",
        "cycle\nstep late a#1 0.000000001\nstep late a#1 0.000000000\n",
        "no cycle weight 1\n",
    ),
    (
        TWO_LOGS_PROBLEM,
        TWO_LOGS_RUN,
        "run\nevent a#1 0.000000000\nevent a#2 80.000000000\nevent b#1 10.000000000\nevent b#2 60.000000000\n\
        reading a 100 0.000000000\nreading a 180 80.000000000\nreading b 250 10.000000000\n\
        reading b 300 60.000000000\n",
        "cycle\nstep late a#1 0.000000000\n",
        "no cycle join 1\n",
    ),
    (
        CONTRADICTING_PROBLEM,
        CYCLE,
        "step delay-most a#1 b#1 20.000000000\nstep early b#1 0.000000000\nstep span-most b 250 300 50.000000000\n\
        step late b#2 0.000000000\nstep delay-most b#2 a#2 20.000000000\nstep early a#2 0.000000000\n\
        step span-least a 100 195 -95.000000000\nstep late a#1 0.000000000\n",
        "",
        "no cycle empty\n",
    ),
    (
        CONTRADICTING_PROBLEM,
        CYCLE,
        "step late a#1 0.000000000\n",
        "",
        "no cycle join 7\n",
    ),
    (
        CONTRADICTING_PROBLEM,
        CYCLE,
        "-95.000000000",
        "-94.000000000",
        "no cycle weight 7\n",
    ),
    (
        CONTRADICTING_PROBLEM,
        CYCLE,
        "step early b#1 0.000000000\n",
        "",
        "no cycle join 1\n",
    ),
    (
        CONTRADICTING_PROBLEM,
        CYCLE,
        "step delay-most a#1 b#1 20.000000000\n",
        "",
        "no cycle join 7\n",
    ),
    (
        CONTRADICTING_PROBLEM,
        CYCLE,
        "step early b#1 0.000000000\n",
        "step early b#1 0.000000000\nstep late b#1 0.000000000\n",
        "no cycle join 3\n",
    ),
    (
        CONTRADICTING_PROBLEM,
        CYCLE,
        "span-least a 100 195 -95",
        "span-most a 100 195 95",
        "no cycle join 6\n",
    ),
];

// The same of intervals with one end or none.
pub(crate) const CHANGED_UNBOUNDED: [(&str, &str, &str, &str, &str); 14] = [
    (
        APART_PROBLEM,
        APART_PROOF,
        "inside a\n",
        "",
        "no upper home\n",
    ),
    (
        APART_PROBLEM,
        APART_PROOF,
        "inside a\n",
        "inside a\ninside b\n",
        "no upper away\n",
    ),
    (
        APART_PROBLEM,
        APART_PROOF,
        "inside a\n",
        "inside b\n",
        "no upper home\n",
    ),
    (
        APART_PROBLEM,
        APART_PROOF,
        "inside b\n",
        "",
        "no lower home\n",
    ),
    (
        APART_PROBLEM,
        APART_PROOF,
        "inside b\n",
        "inside a\ninside b\n",
        "no lower away\n",
    ),
    (
        APART_PROBLEM,
        APART_PROOF,
        "event b#1 0.",
        "event b#1 1.",
        "no upper broken late b#1 0.000000000 1.000000000\n",
    ),
    (
        APART_PROBLEM,
        APART_PROOF,
        "ends a#1 b#1",
        "ends b#1 a#1",
        "no upper home\n",
    ),
    (
        APART_PROBLEM,
        APART_PROOF,
        "ends a#1 b#1",
        "ends a#1 a#1",
        "no upper away\n",
    ),
    (
        APART_PROBLEM,
        APART_PROOF,
        "upper +inf\ninside a\n",
        "upper 0.000000000\n",
        "no upper join 1\n",
    ),
    (
        ONE_WAY_PROBLEM,
        ONE_SIDED,
        "lower 1.000000000\nstep delay-least p q -1.000000000\n",
        "lower -inf\ninside d\n",
        "no lower leaves delay-least p q\n",
    ),
    (
        ONE_WAY_PROBLEM,
        ONE_SIDED,
        "event q 1.",
        "event q 2.",
        "no upper broken late q 0.000000000 1.000000000\n",
    ),
    (
        ONE_WAY_PROBLEM,
        ONE_SIDED,
        "inside c\n",
        "inside c\ninside d\n",
        "no upper away\n",
    ),
    (
        OPEN_PROBLEM,
        TURNED,
        "",
        "",
        "no upper leaves delay-least p q\n",
    ),
    (
        APART_PROBLEM,
        APART_PROOF,
        "ends a#1 b#1\nupper +inf\ninside a\nevent a#1 0.000000000\nevent b#1 0.000000000\nreading a 0 0.000000000\n\
        reading b 0 0.000000000\nlower -inf\ninside b\nevent a#1 0.000000000\nevent b#1 0.000000000\n\
        reading a 0 0.000000000\nreading b 0 0.000000000\nend\n",
        "ends a#1 a#1\nupper 1.000000000\nevent a#1 0.000000000\nevent b#1 0.000000000\nreading a 0 0.000000000\n\
        reading b 0 0.000000000\nlower 0.000000000\nevent a#1 0.000000000\nevent b#1 0.000000000\n\
        reading a 0 0.000000000\nreading b 0 0.000000000\nend\n",
        "no upper sum 0.000000000\n",
    ),
];

// Certificates with a change, of which a line is of no form.
pub(crate) const ILL_FORMED: [(&str, &str, &str, &str, &str); 13] = [
    (
        TWO_LOGS_PROBLEM,
        TWO_LOGS_PROOF,
        "certificate 1",
        "certificate 2",
        "certificate 1 1\n",
    ),
    (
        TWO_LOGS_PROBLEM,
        TWO_LOGS_PROOF,
        "ends a#1 b#1",
        "ends a#1  b#1",
        "certificate 1 2\n",
    ),
    (
        TWO_LOGS_PROBLEM,
        TWO_LOGS_PROOF,
        "upper 20",
        "upper 020",
        "certificate 1 3\n",
    ),
    (
        TWO_LOGS_PROBLEM,
        TWO_LOGS_PROOF,
        "upper 20.000000000",
        "upper +inf",
        "certificate 1 4\n",
    ),
    (
        TWO_LOGS_PROBLEM,
        TWO_LOGS_PROOF,
        "upper",
        "lower",
        "certificate 1 3\n",
    ),
    (
        TWO_LOGS_PROBLEM,
        TWO_LOGS_PROOF,
        "step delay-most",
        "step delay-some",
        "certificate 1 4\n",
    ),
    (
        TWO_LOGS_PROBLEM,
        TWO_LOGS_PROOF,
        "lower 10",
        "upper 10",
        "certificate 1 13\n",
    ),
    (
        TWO_LOGS_PROBLEM,
        TWO_LOGS_PROOF,
        "end\n",
        "",
        "certificate 1 23\n",
    ),
    (
        TWO_LOGS_PROBLEM,
        TWO_LOGS_PROOF,
        "end\n",
        "end\nend\n",
        "certificate 1 24\n",
    ),
    (
        TWO_LOGS_PROBLEM,
        TWO_LOGS_PROOF,
        "step delay-least",
        "inside a\nstep delay-least",
        "certificate 1 14\n",
    ),
    (
        TWO_LOGS_PROBLEM,
        TWO_LOGS_PROOF,
        "reading b 300 60.000000000\nend",
        "reading b 300 60.000000000\nevent a#1 0.000000000\nend",
        "certificate 1 23\n",
    ),
    (
        TWO_LOGS_PROBLEM,
        TWO_LOGS_PROOF,
        "step delay-most a#1 b#1 20.000000000",
        "step late b#9 0",
        "certificate 1 4\n",
    ),
    (
        OPEN_PROBLEM,
        TURNED,
        "inside d\n",
        "step late q 0.000000000\n",
        "certificate 1 4\n",
    ),
];

// The same, of which a line names what it should not, or has a number out of its range.
pub(crate) const REFUSED: [(&str, &str, &str, &str, &str); 16] = [
    (
        TWO_LOGS_PROBLEM,
        TWO_LOGS_PROOF,
        "ends a#1 b#1",
        "ends a#1 b#9",
        "certificate 2 2\n",
    ),
    (
        TWO_LOGS_PROBLEM,
        TWO_LOGS_PROOF,
        "delay-most a#1 b#1",
        "delay-most b#1 a#1",
        "certificate 2 4\n",
    ),
    (
        TWO_LOGS_PROBLEM,
        TWO_LOGS_PROOF,
        "b#1 20.000000000\nevent",
        "b#1 1329227995784915872903807060.280344577\nevent",
        "certificate 3 4\n",
    ),
    (
        TWO_LOGS_PROBLEM,
        TWO_LOGS_PROOF,
        "event a#1 0.000000000\n",
        "",
        "certificate 2 5\n",
    ),
    (
        TWO_LOGS_PROBLEM,
        TWO_LOGS_PROOF,
        "event a#1",
        "event a#2",
        "certificate 2 5\n",
    ),
    (
        TWO_LOGS_PROBLEM,
        TWO_LOGS_PROOF,
        "reading a 180",
        "reading a 181",
        "certificate 2 10\n",
    ),
    (
        TWO_LOGS_PROBLEM,
        TWO_LOGS_PROOF,
        "reading a 180 80.000000000\n",
        "",
        "certificate 2 10\n",
    ),
    (
        TWO_LOGS_PROBLEM,
        TWO_LOGS_PROOF,
        "step delay-most a#1 b#1",
        "step span-most a 180 100",
        "certificate 2 4\n",
    ),
    (
        TWO_LOGS_PROBLEM,
        TWO_LOGS_PROOF,
        "step delay-most a#1 b#1",
        "step span-most a 100 181",
        "certificate 2 4\n",
    ),
    (
        TWO_LOGS_PROBLEM,
        TWO_LOGS_PROOF,
        "step delay-most a#1 b#1",
        "step span-most c 100 180",
        "certificate 2 4\n",
    ),
    (
        TWO_LOGS_PROBLEM,
        TWO_LOGS_PROOF,
        "step delay-most a#1 b#1 20.000000000",
        "step late b#9 0.000000000",
        "certificate 2 4\n",
    ),
    (
        TWO_LOGS_PROBLEM,
        TWO_LOGS_PROOF,
        "upper 20.000000000",
        "upper 1329227995784915872903807060.280344577",
        "certificate 3 3\n",
    ),
    (
        APART_PROBLEM,
        APART_PROOF,
        "inside a\n",
        "inside b\ninside a\n",
        "certificate 2 5\n",
    ),
    (
        APART_PROBLEM,
        APART_PROOF,
        "inside a\n",
        "inside a\ninside a\n",
        "certificate 2 5\n",
    ),
    (
        APART_PROBLEM,
        APART_PROOF,
        "inside a\n",
        "inside c\n",
        "certificate 2 4\n",
    ),
    (
        OPEN_PROBLEM,
        TURNED,
        "upper +inf\ninside d\n",
        "upper 0.000000000\nstep delay-most p q 0.000000000\n",
        "certificate 2 4\n",
    ),
];
