// What is read: the lines of the input, one after the other.
use crate::lines;
use std::io::Stdin;
use stream::Window;

// The longest line with its newline.
const ROOM: usize = 262145;

#[derive(Drop)]
pub struct Reading {
    from: Stdin,
    space: [u8; ROOM],
    window: Window,
}

impl Reading {
    pub(crate) fn new(from: Stdin) -> Reading {
        Reading {
            from,
            space: [0; ROOM],
            window: Window::default(),
        }
    }

    // The octets that are read and not passed yet.
    fn read(&self) -> &[u8] {
        self.window.seen(&self.space)
    }

    // The window begins with a whole line, or with what is left of the input, or it is full. Each turn reads once, and the last one nothing: how many
    // reads a line takes is not known before. The turns are counted as in `pass_line`.
    pub(crate) fn read_line(&mut self) {
        for _ in 0..u64::MAX {
            let had = self.read().len();
            let size = lines::size(self.read());
            self.window = self.window.filled(self.from, &mut self.space, size);
            if self.read().len() == had {
                return;
            }
        }
    }

    // The first line is passed, which is read on where it is too long. Counted turns and no `loop`: a line may go on as long as the input, so no
    // measure would serve.
    pub(crate) fn pass_line(&mut self) {
        for _ in 0..u64::MAX {
            let long = self.is_too_long();
            let size = lines::size(self.read());
            self.window = self.window.taken(size);
            if !long {
                return;
            }
            self.read_line();
        }
    }

    // Whether no line is left.
    pub(crate) fn is_empty(&self) -> bool {
        self.read().is_empty()
    }

    // Whether all that is read is a part of one line.
    pub(crate) fn is_too_long(&self) -> bool {
        let read = self.read();
        self.space.len() <= read.len() && read.len() < lines::size(read)
    }

    pub(crate) fn line(&self) -> &[u8] {
        lines::first(self.read())
    }
}
