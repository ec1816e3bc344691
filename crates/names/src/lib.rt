#![tactic(auto)]
// Books of event names for the handheld: a book is checked, and the name of an event's code is handed back as a part of one of two lent books.
ghost use Rattle.std.specs.Prelude.{◌≡◌, ◌+◌, ◌≤◌, length};
ghost use Rattle.std.specs.Iterator.{YieldsFirst, item_count};
ghost use Rattle.names.specs.Codes.{code, code_of_event};
ghost use Rattle.names.specs.Book.{number_of, in_order, checked};
ghost use Rattle.names.specs.Answers.{book_number};
ghost use Rattle.names.specs.LookUp.{found_in, looked_up, name_shown, cut_from, cut_out};
ghost use Rattle.names.specs.working.Pass.{entry_at, entry_checked, entries_from, judged, passed};

// The code of an event: SPA and SPQ, the qualifier of seven bits. Codes are ordered by SPA, and with the same SPA by SPQ.
#[derive(Clone, Copy, PartialEq, Eq, PartialOrd, Ord)]
pub struct Code {
    pub spa: u8,
    pub spq: u8,
}

// What is wrong with a book: it is empty or of another version; or what is wrong with an entry: it is cut, its name is empty or too long, its
// code does not rise. The numbers are the refusals'.
#[derive(Clone, Copy, PartialEq, Eq)]
pub enum Fault {
    Version = 1,
    Cut = 2,
    Name = 3,
    Order = 4,
}

// Why a book is refused: the fault, and the first faulty entry's number, from 1; entry 0 where the version is at fault.
#[derive(Clone, Copy, PartialEq, Eq)]
pub struct BookFault {
    pub fault: Fault,
    pub entry: usize,
}

// Which of the two books, by the papers' numbers.
#[derive(Clone, Copy, PartialEq, Eq)]
pub enum Which {
    Chosen = 1,
    Italian = 2,
}

// Why a look-up is refused: the book, and what is wrong with it.
#[derive(Clone, Copy, PartialEq, Eq)]
pub struct Refusal {
    pub book: Which,
    pub why: BookFault,
}

// A name that is found: the book and the entry, and where the name lies in the book, with how many octets. It is told by these four in the contracts
// and to the programs, and holds no Place.
#[derive(Clone, Copy, PartialEq, Eq)]
pub struct Found {
    pub book: Which,
    pub entry: usize,
    pub at: usize,
    pub many: usize,
}

// An entry's number, and where its name lies, with how many octets.
#[derive(Clone, Copy)]
pub struct Place {
    pub number: usize,
    pub at: usize,
    pub many: usize,
}

// An entry of a book: its code and its place.
#[derive(Clone, Copy)]
pub struct Entry {
    pub code: Code,
    pub place: Place,
}

// The longest name.
const LONGEST: usize = 40;

impl Fault {
    // The refusal's number.
    pub fn number(self) -> u8
        ensures { result ≡ number_of self }
    {
        self as u8
    }
}

impl Which {
    // The book's number.
    pub fn number(self) -> u8
        ensures { result ≡ book_number self }
    {
        match self {
            Which::Chosen => 1,
            Which::Italian => 2,
        }
    }
}

impl Code {
    // The code of an event's two octets: of the second, SPQ is the upper seven bits, and SPI the lowest.
    #[tactic(auto, unfolding(crate::specs::Codes::code_of_event))]
    pub fn of_event(spa: u8, octet: u8) -> Code
        ensures { result ≡ code_of_event spa octet }
    {
        Code {
            spa,
            spq: octet / 2 % 128,
        }
    }

    // Whether it may stand in the entry of a number, behind the code of the entry before.
    fn is_in_order(self, number: usize, before: Code) -> bool
        ensures { result ≡ in_order number before self }
    {
        number == 1 || before < self
    }
}

// The entry at a place, by its number and the code of the entry before; or what is wrong with it.
fn entry_at(book: &[u8], at: usize, number: usize, before: Code) -> Result<Entry, Fault>
    requires { at ≤ length book.now }
    ensures { result ≡ entry_checked number at before (entry_at book.now at) }
{
    let [spa, spq, many, rest @ ..] = &book[at..] else {
        return Err(Fault::Cut);
    };
    let code = Code {
        spa: *spa,
        spq: *spq,
    };
    let many = *many as usize;
    if rest.len() < many {
        Err(Fault::Cut)
    } else if many == 0 || LONGEST < many {
        Err(Fault::Name)
    } else if code.is_in_order(number, before) {
        let place = Place {
            number,
            at: at + 3,
            many,
        };
        Ok(Entry { code, place })
    } else {
        Err(Fault::Order)
    }
}

// The entries of a book from a place on, one behind the other, each as it is checked: by the number of the first, and the code of the one before.
// One at fault is the last.
#[derive(Clone, Copy)]
pub struct Entries<'a> {
    pub book: &'a [u8],
    pub at: usize,
    pub number: usize,
    pub before: Code,
    pub ghost counted: { number ≤ at },
}

// All entries of a book, which stand behind its version.
pub fn entries_of(book: &[u8]) -> Entries
    ensures { (result.book.now ≡ book.now) × (result.at ≡ 1) × (result.number ≡ 1) × (result.before ≡ code 0 0) }
{
    Entries {
        book,
        at: 1,
        number: 1,
        before: Code { spa: 0, spq: 0 },
    }
}

impl<'a> Iterator for Entries<'a> {
    type Item = Result<Entry, BookFault>;

    ghost next_gives = { YieldsFirst (λ s. judged s.number s.at s.before (entries_from s.book.now s.at)) };

    ghost remaining = { item_count (λ s. judged s.number s.at s.before (entries_from s.book.now s.at)) };

    fn next(&mut self) -> Option<Result<Entry, BookFault>> {
        let Entries {
            book,
            at,
            number,
            before,
        } = *self;
        if book.len() <= at {
            return None;
        }
        match entry_at(book, at, number, before) {
            Ok(entry) => {
                *self = Entries {
                    book,
                    at: entry.place.at + entry.place.many,
                    number: number + 1,
                    before: entry.code,
                };
                Some(Ok(entry))
            }
            Err(fault) => {
                self.at = book.len();
                Some(Err(BookFault {
                    fault,
                    entry: number,
                }))
            }
        }
    }
}

// The one pass over a book: it checks every entry, and keeps the place of the code's.
fn pass(book: &[u8], wanted: Code) -> Result<Option<Place>, BookFault>
    ensures { result ≡ passed wanted book.now }
{
    if octets::octet_at(book, 0) != 1 {
        return Err(BookFault {
            fault: Fault::Version,
            entry: 0,
        });
    }
    let mut found = None;
    for entry in entries_of(book) {
        let entry = entry?;
        found = found.or((entry.code == wanted).then_some(entry.place));
    }
    Ok(found)
}

// Checks a book.
pub fn check(book: &[u8]) -> Result<(), BookFault>
    ensures { result ≡ checked book.now }
{
    pass(book, Code { spa: 0, spq: 0 })?;
    Ok(())
}

// What a book that is checked has of a code.
fn found_in(which: Which, book: &[u8], code: Code) -> Result<Option<Found>, Refusal>
    ensures { result ≡ found_in which code book.now }
{
    match pass(book, code) {
        Ok(Some(place)) => Ok(Some(Found {
            book: which,
            entry: place.number,
            at: place.at,
            many: place.many,
        })),
        Ok(None) => Ok(None),
        Err(why) => Err(Refusal { book: which, why }),
    }
}

// Looks a code up: the chosen book is checked, then the Italian one; then which of them has the name, in which entry, and where it lies.
pub fn look_up(chosen: &[u8], italian: &[u8], code: Code) -> Result<Option<Found>, Refusal>
    ensures { result ≡ looked_up code chosen.now italian.now }
{
    let first = found_in(Which::Chosen, chosen, code)?;
    let second = found_in(Which::Italian, italian, code)?;
    Ok(first.or(second))
}

fn cut_from<'a>(chosen: &'a [u8], italian: &'a [u8], found: Found) -> &'a [u8]
    ensures { result.now ≡ cut_from found chosen.now italian.now }
{
    match found.book {
        Which::Chosen => octets::part(chosen, found.at, found.many),
        Which::Italian => octets::part(italian, found.at, found.many),
    }
}

// The name that a look-up in these two books has found, cut out of its book without another pass; empty where there is none.
#[tactic(auto, unfolding(crate::specs::LookUp::cut_out))]
pub fn name_at<'a>(
    chosen: &'a [u8],
    italian: &'a [u8],
    looked_up: Result<Option<Found>, Refusal>,
) -> &'a [u8]
    ensures { result.now ≡ cut_out looked_up chosen.now italian.now }
{
    match looked_up {
        Ok(Some(found)) => cut_from(chosen, italian, found),
        Ok(None) => b"",
        Err(_) => b"",
    }
}

// The name of a code, a part of one of the two books; empty where a book is refused and where neither has one.
pub fn name<'a>(chosen: &'a [u8], italian: &'a [u8], code: Code) -> &'a [u8]
    ensures { result.now ≡ name_shown code chosen.now italian.now }
{
    name_at(chosen, italian, look_up(chosen, italian, code))
}
