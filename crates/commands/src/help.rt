// What is printed where no command is asked for.
ghost use Rattle.std.specs.Prelude.{◌≡◌};
ghost use Rattle.commands.specs.Asked.{help_text, usage_line, version_text};

const USAGE: &[u8] =
    b"usage: tracesync obey PROBLEM EXEC | solve PROBLEM | ends PROBLEM P Q | verify PROBLEM CERT | session DECL | trial N | widen PROBLEM WHAT.. | judge PROBLEM WIDENING | blame PROBLEM | thin PROBLEM P.. | mergecap DECL [pcapng [EVENT]] | --help | --version\n";

// The number of the newest entry of CHANGELOG.md.
const VERSION: &[u8] = b"tracesync 30\n";

// tracesync prints these lines where no program is built.
const HELP: &[u8] = br"usage: tracesync COMMAND WORD..

  session DECL < SCRIPT   adds logs and captures of many hosts, finds the messages in them, and answers each line of SCRIPT
  ends PROBLEM P Q        how much later event Q is than event P, at least and at most, and which certainly came first
  solve PROBLEM           the earliest execution that the declared bounds allow, or a contradiction of them
  obey PROBLEM EXEC       whether these real times obey every declared bound; if not, the first one that they break
  verify PROBLEM CERT     whether a certificate shows what it should; if not, the first reason why not
  trial N                 answers a session over logs that the program makes, always the same ones for the same N
  widen PROBLEM WHAT..    by how much WHAT must widen at least so that nothing contradicts any more: all greatest delays, or
                          one of delays, least, stamps, rates, gaps, stamps CLOCK, rates CLOCK, delays FROM TO, least FROM TO
  judge PROBLEM WIDENING  whether what widen says is so; if not, the first reason why not
  blame PROBLEM           by how much bounds of each kind, clock and link must widen so that these alone heal a contradiction
  thin PROBLEM P..        a problem of fewer messages and events, P.. among them: `ends` of each two is as in the whole one
  mergecap DECL < SCRIPT  the packets of all captures that SCRIPT adds, as one capture in the order of their events' times
                          with `pcapng` behind DECL, as a file of pcapng: dates as stamps, an interface for each label, and
                          how long each packet was after the first event of all, or after EVENT behind `pcapng`

DECL, PROBLEM, EXEC, CERT and WIDENING are paths of files, relative to where you stand; N is a number below 2^32. What is
asked for is printed on the standard output. With status 7 a file is not there or cannot be read, or a read of the script
failed; with 8 the output could not be written to its end, as on a full disk, and with 9 memory ran out: what stands there
is then no whole answer. docs/FORMATS.md lists the statuses, docs/GUIDE.md has examples.
";

/// The line that says which words there are.
pub(crate) fn usage() -> &'static [u8]
    ensures { result.now ≡ usage_line }
{
    USAGE
}

/// The commands, each with what it is for.
pub(crate) fn help() -> &'static [u8]
    ensures { result.now ≡ help_text }
{
    HELP
}

/// The number of the version.
pub(crate) fn version() -> &'static [u8]
    ensures { result.now ≡ version_text }
{
    VERSION
}
