#![tactic(auto)]
// Makes a book of names from text, and text from a book: standard input to standard output. A book begins with 01, and no text does.
mod entries;
mod lines;
mod making;
mod telling;
mod words;

use making::Places;
use std::fmt::Write;
use std::io::{Stderr, Stdin, Stdout};
use stream::{Pieces, Window};
use words::Complaint;

fn turn_over(
    output: Stdout,
    input: &[u8],
    places: &mut Places,
    book: &mut [u8],
) -> Result<(), Complaint> {
    if matches!(input, [1, ..]) {
        telling::text_from(output, input)
    } else {
        stream::say(output, making::book_from(input, places, book)?);
        Ok(())
    }
}

// The whole input, over the spaces of `main`. Their types say how long they are, so that no proof has to count them. What cannot be written of a
// refusal is lost: there is no one to tell.
fn turn_over_all(
    from: Stdin,
    output: Stdout,
    error: Stderr,
    space: &mut [u8; 4000001],
    places: &mut Places,
    book: &mut [u8; 2818049],
) {
    let most = space.len();
    let window = Window::default().filled(from, space, most);
    if let Err(complaint) = turn_over(output, window.seen(space), places, book) {
        let _ = Pieces(error).writeln(complaint);
    }
}

// The longest text, with one octet more that tells a longer one; a place for each code; the longest book, which has a name of 40 octets
// for each. A longer input that begins as a book is at fault before the space ends.
fn main(rt: HostRuntime) {
    let mut space = [0u8; 4000001];
    let mut places = [0usize; 65536];
    let mut book = [0u8; 2818049];
    turn_over_all(
        rt.stdin(),
        rt.stdout(),
        rt.stderr(),
        &mut space,
        &mut places,
        &mut book,
    );
}
