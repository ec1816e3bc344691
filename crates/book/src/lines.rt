// Lines of text: the words in one, and the number of one.

// What stands between words: tabs and blanks, and nothing else that counts as white space elsewhere.
fn is_blank(c: u8) -> bool {
    matches!(c, b'\t' | b' ')
}

// A text without the blanks at its start.
pub(crate) fn from_word(text: &[u8]) -> &[u8] {
    match text.iter().position(|c| !is_blank(*c)) {
        Some(at) => &text[at..],
        None => b"",
    }
}

// A text without the blanks at its end.
pub(crate) fn trimmed(text: &[u8]) -> &[u8] {
    match text.iter().rposition(|c| !is_blank(*c)) {
        Some(at) => &text[..=at],
        None => b"",
    }
}

// The first word of a text, and what stands behind it.
pub(crate) fn first_word(text: &[u8]) -> (&[u8], &[u8]) {
    let text = from_word(text);
    let end = text.iter().position(|c| is_blank(*c)).unwrap_or(text.len());
    text.split_at(end)
}

// A line without the octet that some systems put before a newline.
pub(crate) fn without_return(line: &[u8]) -> &[u8] {
    line.strip_suffix(b"\r").unwrap_or(line)
}

// What stands in a line from a place on, without what ends the line.
pub(crate) fn line_at(text: &[u8], from: usize) -> &[u8] {
    let text = octets::part(text, from, text.len());
    let end = text.iter().position(|c| *c == b'\n').unwrap_or(text.len());
    without_return(octets::part(text, 0, end))
}

// The number of the line in which a place lies, from 1.
pub(crate) fn number_at(text: &[u8], place: usize) -> usize {
    let before = octets::part(text, 0, place);
    before
        .iter()
        .filter(|c| **c == b'\n')
        .count()
        .saturating_add(1)
}
