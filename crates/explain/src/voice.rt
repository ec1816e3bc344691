// The voice: what writes to standard output. What cannot be written is lost, and what is behind it is still tried: there is no one to tell.
use std::fmt::{Display, Write};
use std::io::Stdout;
use stream::Pieces;

// A voice says a text with values in it.
macro_rules! say {
    ($voice:expr, $($text:tt)*) => {
        $voice.say(format_args!($($text)*))
    };
}

pub(crate) use say;

// New lines of a voice begin with so many blanks.
#[derive(Clone, Copy)]
pub struct Voice {
    output: Stdout,
    indent: usize,
}

impl Voice {
    pub(crate) fn new(output: Stdout) -> Voice {
        Voice { output, indent: 0 }
    }

    // The same, two blanks further in.
    pub(crate) fn indented(self) -> Voice {
        Voice {
            indent: self.indent.saturating_add(2),
            ..self
        }
    }

    pub(crate) fn say(self, words: impl Display + Drop) {
        let _ = Pieces(self.output).write(words);
    }

    // Octets as they are, which need not be text.
    pub(crate) fn pass_on(self, octets: &[u8]) {
        stream::say(self.output, octets);
    }

    // Octets in hex, each behind a blank.
    pub(crate) fn octets(self, octets: &[u8]) {
        for octet in octets {
            say!(self, " {octet:02X}");
        }
    }

    pub(crate) fn new_line(self) {
        let indent = self.indent;
        say!(self, "\n{:indent$}", "");
    }
}
