// Requests: a word, and what stands behind it in its line and in those in which it goes on: octets in hex, or a number, or nothing.
use crate::held::Held;
use crate::lines;
use profile::Profile;

#[derive(Clone, Copy)]
pub enum Word {
    Label,
    Compare,
    Frame,
    Message,
    Image,
    Clock,
    Buffer,
    PowerOn,
    Session,
    Octets,
    Gap,
    Run,
    Ask,
    Collect,
    State,
    Book,
    Italian,
    Event,
    Profile,
    Characters,
    Why,
}

// What is expected of a request, where it is not as it should be.
#[derive(Clone, Copy)]
pub enum Matter {
    Word,
    Figure,
    Half,
    TooMany,
    Number,
    Behind,
    LabelSize,
    CompareSize,
    ClockSize,
    MessageSize,
    AskSize,
    EventSize,
    TooLong,
    Unended,
    ProfileNumber,
    ParityBit,
    Unpaired,
    TenBits,
}

// What is the matter with a request, and in which column of its line, if in one.
#[derive(Clone, Copy)]
pub struct Refusal {
    pub matter: Matter,
    pub column: Option<usize>,
}

// A request as far as it is read: its number, if it has one, and the line that was read last. Its octets are held beside it.
#[derive(Clone, Copy)]
pub struct Request {
    pub word: Word,
    pub number: Option<u16>,
    line: u64,
}

// What is to be done when a line is read. What is the matter is said with the line's number.
#[derive(Clone, Copy)]
pub enum Step {
    PassOn,
    Wait,
    Complain(u64, Refusal),
    Carry(Request),
    End,
}

// How far the request is read that the next line goes on with: there is none; it is in order so far; it is not, which has been said.
#[derive(Clone, Copy)]
pub enum Progress {
    Idle,
    Within(Request),
    Refused,
}

// ---- what stands behind a word ----

impl Refusal {
    // In the column of an index, or behind the end.
    fn at(matter: Matter, index: usize) -> Refusal {
        Refusal {
            matter,
            column: index.checked_add(1),
        }
    }

    fn whole(matter: Matter) -> Refusal {
        Refusal {
            matter,
            column: None,
        }
    }
}

fn figure(c: u8) -> Option<u8> {
    match c {
        b'0'..=b'9' => Some(c - b'0'),
        b'A'..=b'F' => Some(c - b'A' + 10),
        b'a'..=b'f' => Some(c - b'a' + 10),
        _ => None,
    }
}

// The largest octet that may stand behind so many others. Every second octet of characters is a parity bit.
fn largest(word: Word, many: usize) -> u8 {
    match word {
        Word::Characters if many % 2 == 1 => 1,
        _ => 255,
    }
}

fn pair(word: Word, octet: u8, given: &mut Held) -> Result<(), Matter> {
    if largest(word, given.octets().len()) < octet {
        Err(Matter::ParityBit)
    } else if given.push(octet) {
        Ok(())
    } else {
        Err(Matter::TooMany)
    }
}

// The figure that the next one makes a pair with, behind one more octet of a text.
fn in_hex(word: Word, high: Option<u8>, c: u8, given: &mut Held) -> Result<Option<u8>, Matter> {
    if lines::is_blank(c) {
        return if high.is_some() {
            Err(Matter::Half)
        } else {
            Ok(None)
        };
    }
    let low = figure(c).ok_or(Matter::Figure)?;
    let Some(high) = high else {
        return Ok(Some(low));
    };
    pair(word, high << 4 | low, given)?;
    Ok(None)
}

// The octets that stand in a text from an index on.
fn octets(word: Word, text: &[u8], from: usize, given: &mut Held) -> Result<(), Refusal> {
    let mut high = None;
    for (index, c) in text.iter().enumerate().skip(from) {
        high = in_hex(word, high, *c, given).map_err(|matter| Refusal::at(matter, index))?;
    }
    match high {
        Some(_) => Err(Refusal::at(Matter::Half, text.len())),
        None => Ok(()),
    }
}

// A number with one figure more. One behind a blank, where the number is not open, would begin another number.
fn longer(number: Option<u16>, open: bool, c: u8) -> Option<u16> {
    let figure = u16::from(figure(c).filter(|figure| *figure < 10)?);
    match number {
        None => Some(figure),
        Some(number) if open => number.checked_mul(10)?.checked_add(figure),
        Some(_) => None,
    }
}

// The number that stands in a text from an index on, or did before it.
fn number(
    before: Option<u16>,
    text: &[u8],
    from: usize,
    matter: Matter,
) -> Result<Option<u16>, Refusal> {
    let mut number = before;
    let mut open = false;
    for (index, c) in text.iter().enumerate().skip(from) {
        if lines::is_blank(*c) {
            open = false;
            continue;
        }
        let Some(next) = longer(number, open, *c) else {
            return Err(Refusal::at(matter, index));
        };
        number = Some(next);
        open = true;
    }
    Ok(number)
}

fn nothing(text: &[u8], from: usize) -> Result<(), Refusal> {
    let mut behind = text.iter().enumerate().skip(from);
    match behind.find(|(_, c)| !lines::is_blank(**c)) {
        Some((index, _)) => Err(Refusal::at(Matter::Behind, index)),
        None => Ok(()),
    }
}

impl Request {
    // What stands in a text from an index on belongs to the request.
    fn read(self, text: &[u8], from: usize, given: &mut Held) -> Result<Request, Refusal> {
        let number = match self.word {
            Word::Buffer | Word::Session => number(self.number, text, from, Matter::Number)?,
            Word::Profile => number(self.number, text, from, Matter::ProfileNumber)?,
            Word::PowerOn | Word::Gap | Word::Collect | Word::State => {
                nothing(text, from)?;
                None
            }
            _ => {
                octets(self.word, text, from, given)?;
                None
            }
        };
        Ok(Request { number, ..self })
    }

    // A request whose last line is read has to have the right number of octets, or the right number. Without parity bits there are no characters.
    fn ended(self, many: usize, profile: Profile) -> Result<Request, Refusal> {
        let (right, matter) = match self.word {
            Word::Label => (matches!(many, 5 | 7), Matter::LabelSize),
            Word::Compare => (matches!(many, 10 | 14), Matter::CompareSize),
            Word::Clock => (many == 7, Matter::ClockSize),
            Word::Message => (matches!(many, 6..=252), Matter::MessageSize),
            Word::Ask => (matches!(many, 1..=252), Matter::AskSize),
            Word::Event => (many == 2, Matter::EventSize),
            Word::Buffer => (self.number.is_some(), Matter::Number),
            Word::Profile => (matches!(self.number, Some(10 | 11)), Matter::ProfileNumber),
            Word::Characters if many % 2 == 1 => (false, Matter::Unpaired),
            Word::Characters => (matches!(profile, Profile::Eleven), Matter::TenBits),
            _ => return Ok(self),
        };
        if right {
            Ok(self)
        } else {
            Err(Refusal::whole(matter))
        }
    }
}

// ---- lines ----

// A request begins in a line, whose text has its word first.
fn begun(line: u64, text: &[u8], given: &mut Held) -> Result<Request, Refusal> {
    let from = text
        .iter()
        .position(|c| !lines::is_blank(*c))
        .unwrap_or(text.len());
    let behind = &text[from..];
    let size = behind
        .iter()
        .position(|c| lines::is_blank(*c))
        .unwrap_or(behind.len());
    let word = Word::of(&behind[..size]).ok_or(Refusal::whole(Matter::Word))?;
    given.clear();
    let request = Request {
        word,
        number: None,
        line,
    };
    request.read(text, from + size, given)
}

impl Progress {
    // The next line is read: it is passed on, or a request begins in it or goes on. A backslash ends a line in whose next one it is to go on.
    pub(crate) fn line(
        &mut self,
        number: u64,
        line: &[u8],
        profile: Profile,
        given: &mut Held,
    ) -> Step {
        let text = lines::said(line);
        if text.is_empty() {
            return Step::PassOn;
        }
        match text.strip_suffix(b"\\") {
            Some(text) => self.goes_on(number, text, given),
            None => self.ends(number, text, profile, given),
        }
    }

    // The request with what stands in a line; none where it was refused before.
    fn with(self, number: u64, text: &[u8], given: &mut Held) -> Option<Result<Request, Refusal>> {
        match self {
            Progress::Idle => Some(begun(number, text, given)),
            Progress::Within(request) => {
                let request = Request {
                    line: number,
                    ..request
                };
                Some(request.read(text, 0, given))
            }
            Progress::Refused => None,
        }
    }

    fn goes_on(&mut self, number: u64, text: &[u8], given: &mut Held) -> Step {
        match self.with(number, text, given) {
            Some(Ok(request)) => {
                *self = Progress::Within(request);
                Step::Wait
            }
            Some(Err(refusal)) => {
                *self = Progress::Refused;
                Step::Complain(number, refusal)
            }
            None => Step::Wait,
        }
    }

    fn ends(&mut self, number: u64, text: &[u8], profile: Profile, given: &mut Held) -> Step {
        let read = self.with(number, text, given);
        *self = Progress::Idle;
        let Some(read) = read else {
            return Step::Wait;
        };
        match read.and_then(|request| request.ended(given.octets().len(), profile)) {
            Ok(request) => Step::Carry(request),
            Err(refusal) => Step::Complain(number, refusal),
        }
    }

    // A line that is too long: a request that was to go on is dropped.
    pub(crate) fn long_line(&mut self, number: u64) -> Step {
        *self = Progress::Idle;
        Step::Complain(number, Refusal::whole(Matter::TooLong))
    }

    // No line is left. A request that was to go on is dropped, which is said unless something else was the matter.
    pub(crate) fn end(&mut self) -> Step {
        let before = *self;
        *self = Progress::Idle;
        match before {
            Progress::Within(request) => {
                Step::Complain(request.line, Refusal::whole(Matter::Unended))
            }
            _ => Step::End,
        }
    }
}
