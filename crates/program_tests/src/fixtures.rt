// Problems, a certificate, a declaration and the usage, which several modules use.

// The earliest execution of the two logs.
pub(crate) const TWO_LOGS_RUN: &str =
    "certificate 1\nrun\nevent a#1 0.000000000\nevent a#2 80.000000000\nevent b#1 10.000000000\nevent b#2 60.000000000\n\
    reading a 100 0.000000000\nreading a 180 80.000000000\nreading b 250 10.000000000\nreading b 300 60.000000000\n\
    end\n";

// What is printed where the words are no command.
pub(crate) const USAGE: &str =
    "usage: tracesync obey PROBLEM EXEC | solve PROBLEM | ends PROBLEM P Q | verify PROBLEM CERT | session DECL | trial N | widen PROBLEM WHAT.. | judge PROBLEM WIDENING | blame PROBLEM | thin PROBLEM P.. | mergecap DECL [pcapng [EVENT]] | --help | --version\n";
