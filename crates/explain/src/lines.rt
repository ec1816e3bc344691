// Lines of text: where one ends, and what stands in it before its comment.

// A space, a tab, and the octet that some systems put before a newline, are blanks. std's ASCII white space has a form feed besides, which is text here,
// so neither its test nor `trim_ascii_end` serves.
pub(crate) fn is_blank(c: u8) -> bool {
    matches!(c, b'\t' | b'\r' | b' ')
}

// What stands in a text before the first such octet, or all of it.
fn before(text: &[u8], end: u8) -> &[u8] {
    match text.iter().position(|c| *c == end) {
        Some(at) => &text[..at],
        None => text,
    }
}

// The first line, without its newline.
pub(crate) fn first(read: &[u8]) -> &[u8] {
    before(read, b'\n')
}

// How many octets the first line has with its newline; one more than there are where none ends it.
pub(crate) fn size(read: &[u8]) -> usize {
    first(read).len() + 1
}

// A text without the blanks at its end.
fn trimmed(text: &[u8]) -> &[u8] {
    match text.iter().rposition(|c| !is_blank(*c)) {
        Some(last) => &text[..last + 1],
        None => b"",
    }
}

// What stands in a line before its comment, without the blanks at its end.
pub(crate) fn said(line: &[u8]) -> &[u8] {
    trimmed(before(line, b'#'))
}

// A line as it is passed on: without the octet before the newline of some systems.
pub(crate) fn passed_on(line: &[u8]) -> &[u8] {
    line.strip_suffix(b"\r").unwrap_or(line)
}
