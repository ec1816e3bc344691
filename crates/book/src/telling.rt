// Text from a book: a line for each entry of a sound one.
use crate::words::Complaint;
use names::{Code, Entry};
use std::io::Stdout;

fn tell_number(output: Stdout, n: u8) {
    stream::say(output, itoa::Buffer::new().format(n).as_bytes());
}

fn tell_entry(output: Stdout, code: Code, name: &[u8]) {
    tell_number(output, code.spa);
    stream::say(output, b" ");
    tell_number(output, code.spq);
    stream::say(output, b" ");
    stream::say(output, name);
    stream::say(output, b"\n");
}

fn tell_entries(output: Stdout, book: &[u8]) {
    for Entry { code, place } in names::entries_of(book).filter_map(Result::ok) {
        tell_entry(output, code, octets::part(book, place.at, place.many));
    }
}

// Nothing is told of a book that is refused. What cannot be written is lost, since there is no one to tell, and what is behind it is still written.
pub(crate) fn text_from(output: Stdout, book: &[u8]) -> Result<(), Complaint> {
    names::check(book).map_err(Complaint::Entry)?;
    tell_entries(output, book);
    Ok(())
}
