// A book from text: every line is judged, the names are put in the order of their codes, and the book is checked before it is handed back.
use crate::entries::{Entry, Fault};
use crate::words::Complaint;
use crate::{entries, lines};
use names::Code;

// Where each code's name begins in the text; 0 where no line has one. No name begins at 0: its code stands before it. An Option for each would
// take twice the room, and with the text and the book the stack has no more.
pub type Places = [usize; 65536];

// ---- where the names lie ----

fn place_of(places: &mut Places, code: Code) -> &mut usize {
    &mut places[256 * code.spa as usize + code.spq as usize]
}

// The entry of the line that begins at a place is kept, unless an earlier line has its code.
fn keep(text: &[u8], from: usize, entry: Entry, places: &mut Places) -> Result<(), Fault> {
    let place = place_of(places, entry.code);
    if 0 < *place {
        return Err(Fault::Again(entry.code, lines::number_at(text, *place)));
    }
    *place = from.saturating_add(entry.at);
    Ok(())
}

// The names of all lines are kept: the first line begins with the text, and the others behind each newline. What is wrong with a line is said at
// once: no line behind it is looked at. Where a line begins is counted on, so that no octet is looked at twice for its end.
fn keep_lines(text: &[u8], places: &mut Places) -> Result<(), Complaint> {
    let mut from = 0usize;
    for (before, line) in text.split(|c| *c == b'\n').enumerate() {
        let in_line = |fault| Complaint::Line(before.saturating_add(1), fault);
        if let Some(entry) = entries::judge(lines::without_return(line)).map_err(in_line)? {
            keep(text, from, entry, places).map_err(in_line)?;
        }
        from = from.wrapping_add(line.len()).wrapping_add(1);
    }
    Ok(())
}

// ---- the book ----

// A book in the making: the first so many octets of a space. It is no Vec, since the project's rule is fixed memory and no heap.
#[derive(Drop)]
struct Book<'a> {
    space: &'a mut [u8],
    count: usize,
}

impl<'a> Book<'a> {
    fn add(&mut self, octets: &[u8]) {
        octets::put(self.space, self.count, octets);
        self.count = self.count.saturating_add(octets.len());
    }
}

// The version, and an entry for each code that has a name. Answers how many octets the book has.
fn make(text: &[u8], places: &Places, space: &mut [u8]) -> usize {
    let mut book = Book { space, count: 0 };
    book.add(&[1]);
    for (code, place) in places.iter().enumerate() {
        if 0 < *place {
            let name = lines::trimmed(lines::line_at(text, *place));
            let [spa, spq] = [(code / 256 % 256) as u8, (code % 256) as u8];
            book.add(&[spa, spq, (name.len() % 256) as u8]);
            book.add(name);
        }
    }
    book.count
}

// The longest text.
const MOST: usize = 4000000;

// Nothing is handed back that has not passed the check. A byte order mark before the first line is passed over.
pub(crate) fn book_from<'a>(
    text: &[u8],
    places: &mut Places,
    space: &'a mut [u8],
) -> Result<&'a [u8], Complaint> {
    if MOST < text.len() {
        return Err(Complaint::TextTooLong);
    }
    let text = text.strip_prefix(b"\xef\xbb\xbf").unwrap_or(text);
    keep_lines(text, places)?;
    let many = make(text, places, space);
    let book = octets::part(space, 0, many);
    names::check(book).map_err(Complaint::Entry)?;
    Ok(book)
}
