// Books of event names: the two that are lent, and the name of an event.
use crate::held::Held;
use crate::voice::Voice;
use crate::words;
use names::{BookFault, Code, Which as Book};

// The two books, as far as they have been given.
#[derive(Clone, Copy)]
pub struct Books {
    chosen: Option<Held>,
    italian: Option<Held>,
}

// A book's octets; one that has not been given is without entries.
fn octets(book: &Option<Held>) -> &[u8] {
    match book {
        Some(book) => book.octets(),
        None => b"\x01",
    }
}

impl Books {
    pub(crate) fn new() -> Books {
        Books {
            chosen: None,
            italian: None,
        }
    }

    // Whether one of them has been given.
    pub(crate) fn are_given(&self) -> bool {
        self.chosen.is_some() || self.italian.is_some()
    }

    // A book is lent, sound or not.
    pub(crate) fn lend(&mut self, voice: Voice, which: Book, book: &Held) {
        words::book(voice, which, book.octets().len());
        checked(voice, names::check(book.octets()));
        let own = match which {
            Book::Chosen => &mut self.chosen,
            Book::Italian => &mut self.italian,
        };
        match own {
            Some(held) => held.hold(book),
            None => *own = Some(*book),
        }
    }

    // The name of an event's code, with the book and the entry that have it; or that there is none, or which book is refused.
    pub(crate) fn name(&self, voice: Voice, code: Code) {
        let chosen = octets(&self.chosen);
        let italian = octets(&self.italian);
        let looked_up = names::look_up(chosen, italian, code);
        match looked_up {
            Err(refusal) => {
                words::unreadable(voice, refusal.book);
                words::refused(voice, refusal.why);
            }
            Ok(Some(found)) => {
                let name = names::name_at(chosen, italian, looked_up);
                words::named(voice, found.book, found.entry, name);
            }
            Ok(None) => words::unnamed(voice),
        }
    }
}

fn checked(voice: Voice, checked: Result<(), BookFault>) {
    match checked {
        Ok(()) => words::sound_book(voice),
        Err(why) => {
            words::refused(voice, why);
            words::refusal(voice, why.fault);
        }
    }
}
