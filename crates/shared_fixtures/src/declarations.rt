// Declarations.

/// Two hosts with a log each, and a link each way: a message takes 10 to 20 ns.
pub const TWO_LOGS_DECLARATION: &str =
    "[hosts.a]\n[hosts.b]\n[labels.a]\nhost = \"a\"\nkind = \"log\"\n[labels.b]\nhost = \"b\"\nkind = \"log\"\n\
    [[links]]\nfrom = \"a\"\nto = \"b\"\nleast = 10\nmost = 20\n[[links]]\nfrom = \"b\"\nto = \"a\"\n\
    least = 10\nmost = 20\n";

/// The same two hosts with a capture each.
pub const TWO_CAPTURES_DECLARATION: &str =
    "[hosts.a]\naddresses = [\"10.0.0.1\"]\n[hosts.b]\naddresses = [\"10.0.0.2\"]\n[labels.a]\nhost = \"a\"\n\
    kind = \"capture\"\n[labels.b]\nhost = \"b\"\nkind = \"capture\"\n[[links]]\nfrom = \"a\"\nto = \"b\"\n\
    least = 10\nmost = 20\n[[links]]\nfrom = \"b\"\nto = \"a\"\nleast = 10\nmost = 20\n";

/// A host with two clocks, which follow each other, and another host; a link from the one to the other.
pub const TWO_CLOCKS_DECLARATION: &str =
    "[hosts.a]\nclocks = [{ name = \"a1\" }, { name = \"a2\", gap = 5 }]\n[hosts.b]\n[labels.a]\nhost = \"a\"\n\
    kind = \"log\"\nclock = \"a1\"\n[labels.b]\nhost = \"b\"\nkind = \"log\"\n[labels.r]\nhost = \"a\"\n\
    kind = \"log\"\nclock = \"a2\"\n[[links]]\nfrom = \"a\"\nto = \"b\"\nleast = 10\nmost = 20\n";
