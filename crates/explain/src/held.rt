// Octets that are held: what a request gives, an image, a book.
ghost use Rattle.std.specs.Prelude.{◌≤◌, length};

// As many as the longest request gives.
const ROOM: usize = 65600;

// The first so many of them. An array with a count and no Vec: the project's rule is fixed memory and no heap.
#[derive(Clone, Copy)]
pub struct Held {
    octets: [u8; ROOM],
    many: usize,
    ghost fits: { many ≤ length octets },
}

impl Held {
    pub(crate) fn new() -> Held {
        Held {
            octets: [0; ROOM],
            many: 0,
        }
    }

    pub(crate) fn octets(&self) -> &[u8] {
        &self.octets[..self.many]
    }

    // The octets of another are held in place of its own. Few are put one by one: to copy the whole array takes as long as a thousand of them.
    pub(crate) fn hold(&mut self, other: &Held) {
        if other.many < 1024 {
            self.clear();
            for octet in other.octets() {
                self.push(*octet);
            }
        } else {
            *self = *other;
        }
    }

    pub(crate) fn clear(&mut self) {
        self.many = 0;
    }

    // One octet more is held, if there is room for it.
    pub(crate) fn push(&mut self, octet: u8) -> bool {
        let fits = self.many < self.octets.len();
        if fits {
            self.octets[self.many] = octet;
            self.many += 1;
        }
        fits
    }
}
