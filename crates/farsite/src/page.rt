//! What the program tells of itself.
ghost use Rattle.std.specs.Prelude.{◌≡◌, map, string_bytes};
ghost use Rattle.farsite.specs.Pages.{page_of, page_text};

use fs_words::is_word;

/// A text on the program, which is printed in place of a call.
#[derive(Clone, Copy, Debug, PartialEq, Eq)]
pub(crate) enum Page {
    /// The forms of the command line.
    Help,
    /// The program's version.
    Version,
}

impl Page {
    /// The text, each of its lines with a line feed.
    pub(crate) fn text(self) -> &'static str
        ensures { result.now ≡ page_text self }
    {
        match self {
            Page::Help => HELP,
            Page::Version => VERSION,
        }
    }
}

const HELP: &str = "usage: farsite replay < SCHEDULE
       farsite journal < SCHEDULE
       farsite gen N
       farsite node ACTOR SERVERS SKEW TERM TURNS PEER.. < SCRIPT

Reads a schedule and runs it. `replay` writes its report: an outcome for each event, the
journal, and the namespace at the end. `journal` writes the journal and the namespace in JSON.
`gen` makes a schedule from a number, runs it, and writes one line with what it counted.
`node` runs one server or client over UDP with a script, and writes each operation that it ends.
";

const VERSION: &str = "farsite 0.1.0\n";

/// The page that the words ask for, where they are `--help` or `--version` alone.
pub(crate) fn page_of(words: &[String]) -> Option<Page>
    ensures { result ≡ page_of (map string_bytes words.now) }
{
    match words {
        [only] => {
            if is_word(only, b"--help") {
                Some(Page::Help)
            } else if is_word(only, b"--version") {
                Some(Page::Version)
            } else {
                None
            }
        }
        _ => None,
    }
}
