#![tactic(auto)]

// The look-up program: calls of the library of names from standard input, a line for each. second/README.md, "The look-up face". It only reads
// (`stream`), calls (`names`) and writes (`stream`), and decides nothing.
use names::{Code, Found, Refusal};
use octets::Number;
use std::fmt;
use std::fmt::InlineText;
use stream::{Input, Output, Sizes, Texts, Window};

// The most octets of a book that is taken: more than a book of every SPA with every seven-bit SPQ has.
const MOST: usize = 1500000;

// A book that is lent: the first so many octets of a space. It is no Vec, since the project's rule is fixed memory and no heap. The Book of
// the program `book` is another type: it grows behind what it has, this one is laid anew, and neither program knows the other (crates.txt).
#[derive(Drop)]
struct Shelf<'a> {
    space: &'a mut [u8],
    count: usize,
}

impl<'a> Shelf<'a> {
    fn book(&self) -> &[u8] {
        octets::part(self.space, 0, self.count)
    }

    // A book is laid over what the space held.
    fn lay(&mut self, book: &[u8]) {
        octets::put(self.space, 0, book);
        self.count = book.len();
    }
}

// ---- calls ----

#[derive(Clone, Copy)]
enum Call<'a> {
    Chosen(&'a [u8]),
    Italian(&'a [u8]),
    Name(Code),
}

// Why no call follows: none is left, it is cut, or it is none.
#[derive(Clone, Copy)]
enum Stop {
    End,
    Cut,
    Wrong,
}

impl Stop {
    fn text(self) -> &'static [u8] {
        match self {
            Stop::End => b"",
            Stop::Cut => b"cut\n",
            Stop::Wrong => b"call\n",
        }
    }
}

// A book's length, big-endian, behind the letter. The crate `input` reads one alike, but by crates.txt this program does not know it.
fn length_in(read: &[u8]) -> usize {
    u32::from_high_first([
        0,
        octets::octet_at(read, 1),
        octets::octet_at(read, 2),
        octets::octet_at(read, 3),
    ]) as usize
}

// How many octets a call with a book has, as far as those read tell; one that is too long has no more than its length.
fn book_size(read: &[u8]) -> usize {
    let length = length_in(read);
    if read.len() < 4 || MOST < length {
        4
    } else {
        4 + length
    }
}

// How many octets a call has, as far as those read tell.
fn call_size(read: &[u8]) -> usize {
    match octets::octet_at(read, 0) {
        b'C' | b'I' => book_size(read),
        b'L' | b'E' => 3,
        _ => 1,
    }
}

// A call: its letter, its length, all of it. Nothing is promised of what it says, as of all that this program decides.
struct CallSize;

impl Sizes for CallSize {
    const TURNS: u8 = 3;

    ghost TURNS = { 3 };

    ghost says = { λ sizes read size. Unit {0} };

    fn size(&self, read: &[u8]) -> usize {
        call_size(read)
    }
}

fn book_in(read: &[u8]) -> Result<&[u8], Stop> {
    if MOST < length_in(read) {
        Err(Stop::Wrong)
    } else {
        Ok(octets::part(read, 4, read.len()))
    }
}

// What the octets read are, when no more come.
fn call_in(read: &[u8]) -> Result<Call<'_>, Stop> {
    if read.len() < call_size(read) {
        return Err(if read.is_empty() {
            Stop::End
        } else {
            Stop::Cut
        });
    }
    match read {
        [b'C', ..] => Ok(Call::Chosen(book_in(read)?)),
        [b'I', ..] => Ok(Call::Italian(book_in(read)?)),
        [b'L', spa, spq, ..] => Ok(Call::Name(Code {
            spa: *spa,
            spq: *spq,
        })),
        [b'E', spa, octet, ..] => Ok(Call::Name(Code::of_event(*spa, *octet))),
        _ => Err(Stop::Wrong),
    }
}

// ---- lines ----

// Octets in hex.
#[derive(Clone, Copy)]
struct Pairs<'a>(&'a [u8]);

impl fmt::Display for Pairs<'_> {
    fn fmt<W: fmt::Write>(&self, f: &mut fmt::Formatter<W>) -> fmt::Result {
        for octet in self.0 {
            write!(f, "{octet:02X}")?;
        }
        Ok(())
    }
}

// A line in the making: the first so many octets of an array. None is longer: three numbers, and a name of 40 octets in hex. It is lent and not handed
// on by value, and its numbers are laid by themselves: a call with a small book takes little longer than its line.
#[derive(Drop)]
struct Line {
    octets: [u8; 128],
    count: usize,
}

impl Line {
    fn new() -> Line {
        Line {
            octets: [0; 128],
            count: 0,
        }
    }

    fn octets(&self) -> &[u8] {
        octets::part(&self.octets, 0, self.count)
    }

    fn put(&mut self, part: &[u8]) {
        if octets::put(&mut self.octets, self.count, part) {
            self.count = self.count.saturating_add(part.len());
        }
    }

    fn put_number(&mut self, n: usize) {
        self.put(itoa::Buffer::new().format(n).as_bytes());
    }

    // Numbers, a space behind each but the last.
    fn put_numbers(&mut self, first: usize, second: usize) {
        self.put_number(first);
        self.put(b" ");
        self.put_number(second);
    }

    fn check(&mut self, book: &[u8]) {
        match names::check(book) {
            Ok(()) => self.put(b"0 0\n"),
            Err(why) => {
                self.put_numbers(usize::from(why.fault.number()), why.entry);
                self.put(b"\n");
            }
        }
    }

    fn found(&mut self, found: Found, name: &[u8]) {
        self.put(b"0 ");
        self.put_numbers(usize::from(found.book.number()), found.entry);
        self.put(b" ");
        self.put(InlineText::<80>::of(Pairs(name)).as_str().as_bytes());
        self.put(b"\n");
    }

    fn refusal(&mut self, refusal: Refusal) {
        self.put_number(usize::from(refusal.why.fault.number()));
        self.put(b" ");
        self.put_numbers(usize::from(refusal.book.number()), refusal.why.entry);
        self.put(b" -\n");
    }

    fn name(&mut self, chosen: &[u8], italian: &[u8], code: Code) {
        let looked_up = names::look_up(chosen, italian, code);
        match looked_up {
            Ok(Some(found)) => self.found(found, names::name_at(chosen, italian, looked_up)),
            Ok(None) => self.put(b"0 0 0 -\n"),
            Err(refusal) => self.refusal(refusal),
        }
    }
}

// ---- what is done ----

// The books that the calls have lent.
#[derive(Drop)]
struct Books<'a> {
    chosen: Shelf<'a>,
    italian: Shelf<'a>,
}

impl<'a> Books<'a> {
    // A call is done, and its line put together.
    fn answer(&mut self, read: &[u8], line: &mut Line) -> Result<(), Stop> {
        match call_in(read)? {
            Call::Chosen(book) => {
                self.chosen.lay(book);
                line.check(book);
            }
            Call::Italian(book) => {
                self.italian.lay(book);
                line.check(book);
            }
            Call::Name(code) => line.name(self.chosen.book(), self.italian.book(), code),
        }
        Ok(())
    }
}

// A call is done, and its line waits; or what ends the calls is told, and what waits is written.
fn done(to: &mut Output<'_>, books: &mut Books<'_>, read: &[u8]) {
    let mut line = Line::new();
    match books.answer(read, &mut line) {
        Ok(()) => to.tell(line.octets(), true),
        Err(stop) => to.tell(stop.text(), false),
    }
}

// The look-up face: what is read, what is written, and the books.
#[derive(Drop)]
struct Face<'a> {
    from: Input<'a>,
    to: Output<'a>,
    books: Books<'a>,
}

// The next call of the input. What waits is written where it is still to be read.
fn turn(face: &mut Face<'_>) {
    let read = face.from.seen();
    if read.len() < call_size(read) {
        face.to.out();
    }
    face.from.read(&CallSize);
    let read = face.from.seen();
    let size = call_size(read);
    done(&mut face.to, &mut face.books, octets::part(read, 0, size));
    face.from.take(size);
}

// Calls until the input ends. A loop must end, so it has a budget that no input uses up.
fn calls(face: &mut Face<'_>) {
    for _ in 0..u64::MAX {
        if !face.to.texts.going {
            return;
        }
        turn(face);
    }
}

fn main(rt: HostRuntime) {
    let mut space = [0u8; 1500004];
    let mut chosen = [0u8; 1500000];
    let mut italian = [0u8; 1500000];
    let mut block = [0u8; 4096];
    calls(&mut Face {
        from: Input {
            from: rt.stdin(),
            space: &mut space,
            window: Window::default(),
        },
        to: Output {
            to: rt.stdout(),
            block: &mut block,
            texts: Texts::NONE,
        },
        books: Books {
            chosen: Shelf {
                space: &mut chosen,
                count: 0,
            },
            italian: Shelf {
                space: &mut italian,
                count: 0,
            },
        },
    });
}
