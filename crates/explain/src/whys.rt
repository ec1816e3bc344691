// Why the meter says no: the line of the first rule that applies to a message, what would have been right and what was found, and what to look at. The
// card is asked as it is, and nothing is changed.
use crate::labels::Shown;
use crate::messages::Role;
use crate::voice::Voice;
use crate::{images, lines, words};
use address::PointAddress;
use card::Card;
use label::{LabelA, LabelB};
use message::{Request, Row};
use records::PlacesFrom;
use rules::{Rule, Session};
use why::Unasked;

// ---- what was found ----

// The points of a sound image, of which eight at most stand behind its first record, and the one asked for.
fn points(voice: Voice, image: &[u8], asked: PointAddress) {
    let places = PlacesFrom {
        octets: image,
        at: 1,
    };
    for (before, at) in places.skip(1).take(8).enumerate() {
        let key = fields::key_at(image, at);
        if key.kind == 2 {
            words::listed(voice, key.point, before);
        }
    }
    words::asked(voice, asked);
}

// A part of a message's shape: how many octets it has, its cause, that SQ is set, N.
#[derive(Clone, Copy)]
pub enum Part {
    Octets(usize),
    Cause(u8),
    Sq,
    N(u8),
}

// The parts of a message's shape that differ from those that are listed. An octet with SQ is never as listed.
fn differing(row: Row, request: Request) -> [Option<Part>; 4] {
    let octets = request.octets;
    let cause = request.header.cause % 64;
    let structure = request.header.structure;
    [
        (octets != usize::from(row.octets)).then_some(Part::Octets(octets)),
        (cause != row.cause).then_some(Part::Cause(cause)),
        (128 <= structure).then_some(Part::Sq),
        (structure != row.count).then_some(Part::N(structure % 128)),
    ]
}

fn shape(voice: Voice, request: Request) {
    if let Some(row) = message::row_of(request.header.type_id) {
        words::shape(voice, row);
        words::shaped(voice, differing(row, request));
    }
}

fn address(voice: Voice, request: Request) {
    let head = request.header;
    if let Some(row) = message::row_of(head.type_id) {
        words::addresses(voice, row.addresses, head.record_address);
    }
}

fn label(voice: Voice, role: Role, label: LabelA) {
    words::found(voice, role);
    Shown::from(label).tell(voice);
}

// A label that is at fault.
fn fault(voice: Voice, role: Role, its: LabelA) {
    if !its.is_valid() {
        label(voice, role, its);
    }
}

fn span(voice: Voice, request: Request) {
    label(voice, Role::From, request.first);
    label(voice, Role::To, request.last);
}

fn span_at_fault(voice: Voice, request: Request) {
    fault(voice, Role::From, request.first);
    fault(voice, Role::To, request.last);
}

fn time(voice: Voice, label: LabelB) {
    words::found(voice, Role::Time);
    Shown::from(label).tell(voice);
}

// 181 sets one label b, 186 two labels a.
fn to_set(voice: Voice, request: Request) {
    if request.header.type_id == 181 {
        time(voice, request.time);
    } else {
        fault(voice, Role::FirstSwitch, request.first);
        fault(voice, Role::SecondSwitch, request.last);
    }
}

// A message, and what it is judged by.
#[derive(Clone, Copy)]
struct Case<'a> {
    session: Session,
    image: &'a [u8],
    clock: [u8; 7],
    request: Request,
}

impl Case<'_> {
    // What was found, where the sentence does not say it.
    fn found(self, voice: Voice, rule: Rule) {
        let request = self.request;
        match rule {
            Rule::Marked => words::marked(voice, request.header.cause),
            Rule::UnknownPoint => points(voice, self.image, request.header.point),
            Rule::Shape => shape(voice, request),
            Rule::Address => address(voice, request),
            Rule::ReadingLabel | Rule::EventLabel => span_at_fault(voice, request),
            Rule::ReadingRange | Rule::NoReading | Rule::EventRange | Rule::NoEvent => {
                span(voice, request)
            }
            Rule::ClockUnset => time(voice, LabelB::read(&self.clock)),
            Rule::TimeLabel => to_set(voice, request),
            Rule::WrongPassword => words::password(voice, request.password),
            _ => {}
        }
    }

    // A rule's sentence, and what to look at where it refuses.
    fn tell(self, voice: Voice, rule: Rule) {
        words::right(voice, rule, self.session, self.request);
        self.found(voice, rule);
        if !matches!(rule, Rule::Accepted) {
            voice.new_line();
            words::look_at(voice, rule);
        }
    }
}

// The library's line, without its newline; then the sentence.
pub(crate) fn explain(voice: Voice, card: Card, image: &[u8], clock: [u8; 7], message: &[u8]) {
    let why = why::ask(card, image, clock, message);
    let below = voice.indented();
    voice.pass_on(lines::first(why::line(why).as_slice()));
    below.new_line();
    match why {
        Err(Unasked::ImageUnsound) => {
            words::unasked(below);
            if let Some(fault) = faults::of_image(image) {
                images::fault(below, fault);
            }
        }
        Err(Unasked::MessageLength) => words::message_size(below, message.len()),
        Ok(rule) => Case {
            session: card.link.session,
            image,
            clock,
            request: Request::read(message),
        }
        .tell(below, rule),
    }
}
