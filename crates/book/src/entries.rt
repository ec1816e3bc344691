// What a line of a text is: an entry, a comment or a blank line, or a line at fault.
use crate::lines;
use names::Code;

// A code, and where its name begins in the line.
#[derive(Clone, Copy)]
pub struct Entry {
    pub code: Code,
    pub at: usize,
}

// What is wrong with a line: by itself, of a name that is too long with how many octets it has; or that an earlier line has its code.
#[derive(Clone, Copy)]
pub enum Fault {
    NotUtf8,
    Spa,
    Spq,
    NoName,
    LongName(usize),
    Again(Code, usize),
}

fn figure(c: u8) -> Option<u8> {
    c.is_ascii_digit().then(|| c - b'0')
}

// The number up to 255 that a word is in decimal. `parse` would take a sign before it.
fn number(word: &[u8]) -> Option<u8> {
    if word.is_empty() {
        return None;
    }
    let mut number = 0u8;
    for c in word {
        number = number.checked_mul(10)?.checked_add(figure(*c)?)?;
    }
    Some(number)
}

// A line that has to be an entry.
fn judge_entry(line: &[u8]) -> Result<Entry, Fault> {
    let (spa, rest) = lines::first_word(line);
    let (spq, rest) = lines::first_word(rest);
    let name = lines::from_word(rest);
    let code = Code {
        spa: number(spa).ok_or(Fault::Spa)?,
        spq: number(spq).ok_or(Fault::Spq)?,
    };
    match lines::trimmed(name).len() {
        0 => Err(Fault::NoName),
        1..=40 => Ok(Entry {
            code,
            at: line.len().saturating_sub(name.len()),
        }),
        many => Err(Fault::LongName(many)),
    }
}

// ASCII is asked first, since most lines are short and have nothing else.
fn is_utf8(line: &[u8]) -> bool {
    line.is_ascii() || std::str::from_utf8(line).is_ok()
}

// The entry of a line, if it is no comment and not blank.
pub(crate) fn judge(line: &[u8]) -> Result<Option<Entry>, Fault> {
    match lines::from_word(line) {
        // a blank line is UTF-8, and a text may have many
        [] => Ok(None),
        _ if !is_utf8(line) => Err(Fault::NotUtf8),
        [b'#', ..] => Ok(None),
        _ => judge_entry(line).map(Some),
    }
}
