// Messages: the header, then what stands behind it, by its type. Where the octets are not as many as type and N ask for, they are shown as they are.
use crate::books::Books;
use crate::labels::Shown;
use crate::voice::Voice;
use crate::words;
use label::{LabelA, LabelB};
use message::{Header, Request};
use names::Code;

// What a label is.
#[derive(Clone, Copy)]
pub enum Role {
    From,
    To,
    FirstSwitch,
    SecondSwitch,
    Time,
    Label,
}

// Why octets are shown as they are: their message is not used here, they do not fit it, or there are none that could.
#[derive(Clone, Copy)]
pub enum Unread {
    Unused,
    Misfit,
    Absent,
}

// How many octets the header has, an object (number, value, quality), and an event (SPA, SPQ and SPI, label b).
const HEADER: usize = 6;

const OBJECT: usize = 6;

const EVENT: usize = 9;

fn header(voice: Voice, header: Header) {
    words::type_id(voice, header.type_id);
    words::structure(voice, header.structure);
    words::cause(voice, header.cause);
    words::addressed(voice, header.point, header.record_address);
}

// A label on a line of its own.
fn dated(voice: Voice, role: Role, label: LabelA) {
    voice.new_line();
    voice.say(role);
    Shown::from(label).tell(voice);
}

fn span(voice: Voice, from: LabelA, to: LabelA) {
    dated(voice, Role::From, from);
    dated(voice, Role::To, to);
}

pub(crate) fn switch_dates(voice: Voice, first: LabelA, second: LabelA) {
    dated(voice, Role::FirstSwitch, first);
    dated(voice, Role::SecondSwitch, second);
}

fn time(voice: Voice, label: LabelB) {
    voice.new_line();
    voice.say(Role::Time);
    Shown::from(label).tell(voice);
}

fn password(voice: Voice, password: u32) {
    voice.new_line();
    words::password(voice, password);
}

fn identity(voice: Voice, body: &[u8]) {
    let [date, maker, a, b, c, d] = body else {
        return;
    };
    voice.new_line();
    words::identity(voice, *date, *maker, u32::from_le_bytes([*a, *b, *c, *d]));
}

// An object's number, its value and its quality.
fn object(voice: Voice, m: &[u8]) {
    let [number, a, b, c, d, quality] = m else {
        return;
    };
    voice.new_line();
    words::object(voice, *number, i32::from_le_bytes([*a, *b, *c, *d]));
    words::quality(voice, *quality);
}

// The two octets of an event say its code and SPI, which is the lowest bit.
fn code(voice: Voice, first: u8, second: u8) -> Code {
    let code = Code::of_event(first, second);
    words::event(voice, code, second % 2);
    code
}

// An event with its label, and its name where a book has been given.
fn event(voice: Voice, m: &[u8], books: &Books) {
    let [first, second, label @ ..] = m else {
        return;
    };
    voice.new_line();
    let code = code(voice, *first, *second);
    words::labelled(voice);
    Shown::from(LabelB::read(label)).tell(voice);
    if books.are_given() {
        books.name(voice, code);
    }
}

// An event's two octets by themselves, and its name.
pub(crate) fn name(voice: Voice, given: &[u8], books: &Books) {
    if let [first, second] = given {
        books.name(voice, code(voice, *first, *second));
    }
}

fn events(voice: Voice, body: &[u8], books: &Books) {
    for m in body.chunks(EVENT) {
        event(voice, m, books);
    }
}

// Objects, and in the last five octets the label of them all.
fn reading(voice: Voice, body: &[u8]) {
    let objects = body.chunks_exact(OBJECT);
    let label = LabelA::read(objects.remainder());
    for m in objects {
        object(voice, m);
    }
    dated(voice, Role::Label, label);
}

fn choice(voice: Voice, request: Request) {
    voice.new_line();
    words::objects(voice, request.objects);
    span(voice, request.first, request.last);
}

// How many octets stand behind the header of a message of a type, by its N; none for a type that is not used here.
fn size(type_id: u8, many: u8) -> Option<usize> {
    let many = usize::from(many);
    match type_id {
        1 => Some(many * EVENT),
        8 | 11 => Some(many * OBJECT + 5),
        71 => Some(6),
        72 | 181 => Some(7),
        100 | 103 | 185 | 187 => Some(0),
        102 | 131 | 186 => Some(10),
        122 | 123 => Some(12),
        183 => Some(4),
        _ => None,
    }
}

// What stands behind the header, where the octets are as many as there have to be.
fn body(voice: Voice, request: Request, body: &[u8], books: &Books) {
    let Request { first, last, .. } = request;
    match request.header.type_id {
        1 => events(voice, body, books),
        8 | 11 => reading(voice, body),
        71 => identity(voice, body),
        72 | 181 => time(voice, request.time),
        102 => span(voice, first, last),
        122 | 123 => choice(voice, request),
        131 | 186 => switch_dates(voice, first, last),
        183 => password(voice, request.password),
        _ => {}
    }
}

// Octets on a line of their own.
fn shown(voice: Voice, why: Unread, octets: &[u8]) {
    voice.new_line();
    voice.say(why);
    voice.octets(octets);
}

// Octets that are no message of those that are used here, if there are any.
pub(crate) fn unused(voice: Voice, octets: &[u8]) {
    if !octets.is_empty() {
        shown(voice, Unread::Unused, octets);
    }
}

// A message of six octets or more. What stands behind the header is on lines of its own.
pub(crate) fn explain(voice: Voice, m: &[u8], books: &Books) {
    let request = Request::read(m);
    let head = request.header;
    let behind = octets::part(m, HEADER, m.len());
    header(voice, head);
    match size(head.type_id, head.structure) {
        Some(size) if size == behind.len() => body(voice, request, behind, books),
        Some(_) if behind.is_empty() => shown(voice, Unread::Absent, behind),
        Some(_) => shown(voice, Unread::Misfit, behind),
        None => unused(voice, behind),
    }
}
