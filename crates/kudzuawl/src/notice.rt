//! What the command answers by itself: its help, its version, and words that can't be read.
ghost use Rattle.std.specs.Prelude.{◌≡◌, is_some};
ghost use Rattle.kudzuawl.specs.Notice.{asks_about_itself};

use std::io::ErrorKind;

const HELP: &[u8] = b"\
Kudzuawl, a detailed router whose result is proved.

  kudzuawl route LEF DEF GUIDE OUT JOURNAL [--via COST] [--tile SIDE] [--rips COUNT]

routes the nets of DEF on the layers and tracks of LEF and DEF. OUT becomes the routed DEF, JOURNAL
the list of what was routed in which order, and the report goes to standard output. GUIDE names the
boxes that each net's wires stay in; with `-` each net may run over the whole die. A via costs as
much as COST units of wire, by default 1000. SIDE is the side of a tile. A net that has no path takes
away the wires of the nets in its way, those of each net at most COUNT times, by default 3.

  kudzuawl --help
  kudzuawl --version

Status 0: each net is routed; 1: all but the nets that the report names; 2: the command line is
wrong; 3, 4, 5: LEF, DEF or the guides are refused; 6: no design can be built; 7: a limit is passed;
8: a file can't be read; 9: an output can't be written; 10: memory ran out.
";

const VERSION: &[u8] = b"kudzuawl 0.1.0\n";

/// The text for a command line that asks the program about itself: `--help` or `--version`, alone.
pub fn notice(words: &[String]) -> Option<&'static [u8]>
    ensures { is_some result ≡ asks_about_itself words.now }
{
    let [word] = words else {
        return None;
    };
    match word.as_str() {
        "--help" => Some(HELP),
        "--version" => Some(VERSION),
        _ => None,
    }
}

/// The error line and the status where the words can't be had: memory ran out, or one isn't UTF-8.
pub fn spoilt(kind: ErrorKind) -> (&'static [u8], u8) {
    if kind == ErrorKind::OutOfMemory {
        return (b"error 10 memory\n", 10);
    }
    (b"error 2 shape 1\n", 2)
}
