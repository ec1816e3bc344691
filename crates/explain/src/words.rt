// Every word of the program: the requests, and what is said of each thing. Another language is another file like this one.
use crate::images::Missing;
use crate::labels::Which;
use crate::messages::{Role, Unread};
use crate::requests::{Matter, Word};
use crate::voice::{Voice, say};
use crate::whys::Part;
use address::{LinkAddress, PointAddress};
use deeds::{Order, Waiting};
use faults::{ImageRule, LabelFault};
use fields::Identity;
use frame::{Control, Service};
use message::{Addresses, ObjectRange, Request, Row};
use names::{BookFault, Code, Fault, Which as Book};
use profile::{Character, Profile};
use rules::{Rule, Session};
use std::cmp::Ordering;
use std::fmt;

// ---- requests, and what is the matter with them ----

const REQUESTS: [(&str, Word); 21] = [
    ("label", Word::Label),
    ("compare", Word::Compare),
    ("frame", Word::Frame),
    ("message", Word::Message),
    ("image", Word::Image),
    ("clock", Word::Clock),
    ("buffer", Word::Buffer),
    ("power-on", Word::PowerOn),
    ("session", Word::Session),
    ("octets", Word::Octets),
    ("gap", Word::Gap),
    ("run", Word::Run),
    ("ask", Word::Ask),
    ("collect", Word::Collect),
    ("state", Word::State),
    ("book", Word::Book),
    ("italian", Word::Italian),
    ("event", Word::Event),
    ("profile", Word::Profile),
    ("characters", Word::Characters),
    ("why", Word::Why),
];

impl Word {
    // The word that a text is, in large letters or small.
    pub(crate) fn of(text: &[u8]) -> Option<Word> {
        REQUESTS
            .into_iter()
            .find(|(name, _)| text.eq_ignore_ascii_case(name.as_bytes()))
            .map(|(_, word)| word)
    }
}

// Where it is: a line, or a place in it.
pub(crate) fn place(voice: Voice, line: u64, column: Option<usize>) {
    match column {
        Some(column) => say!(voice, "line {line}, column {column}: "),
        None => say!(voice, "line {line}: "),
    }
}

impl fmt::Display for Matter {
    fn fmt<W: fmt::Write>(&self, f: &mut fmt::Formatter<W>) -> fmt::Result {
        f.write_str(match self {
            Matter::Word => "one of these words is expected:",
            Matter::Figure => "a pair of hex figures is expected",
            Matter::Half => "the second figure of a pair is expected",
            Matter::TooMany => "65600 octets at most are expected",
            Matter::Number => "a number from 0 to 65535 is expected",
            Matter::Behind => "nothing is expected behind this word",
            Matter::LabelSize => "5 or 7 octets are expected",
            Matter::CompareSize => "10 or 14 octets are expected",
            Matter::ClockSize => "7 octets are expected",
            Matter::MessageSize => "6 to 252 octets are expected",
            Matter::AskSize => "1 to 252 octets are expected",
            Matter::EventSize => "2 octets are expected",
            Matter::TooLong => "a line of 262144 octets at most is expected",
            Matter::Unended => "the request is expected to go on",
            Matter::ProfileNumber => "10 or 11 is expected",
            Matter::ParityBit => "a parity bit is expected, 00 or 01",
            Matter::Unpaired => "a parity bit is expected behind every octet",
            Matter::TenBits => "profile 11 is expected before this word",
        })
    }
}

pub(crate) fn expected(voice: Voice, matter: Matter) {
    voice.say(matter);
    if matches!(matter, Matter::Word) {
        for (name, _) in REQUESTS {
            say!(voice, " {name}");
        }
    }
}

// ---- labels ----

// The date, its year whole, and the time.
pub(crate) fn when(voice: Voice, year: u16, month: u8, day: u8, hour: u8, minute: u8) {
    say!(voice, "{year}-{month:02}-{day:02} {hour:02}:{minute:02}")
}

pub(crate) fn seconds(voice: Voice, second: u8, millisecond: u16) {
    say!(voice, ":{second:02}.{millisecond:03}")
}

pub(crate) fn standard_time(voice: Voice) {
    voice.say(" standard time")
}

pub(crate) fn summer_time(voice: Voice) {
    voice.say(" summer time")
}

// Before the same in standard time.
pub(crate) fn summer_time_or(voice: Voice) {
    voice.say(" summer time, ")
}

pub(crate) fn valid(voice: Voice, minute: i64) {
    say!(voice, ", valid, minute {minute}")
}

pub(crate) fn not_valid(voice: Voice, fault: LabelFault) {
    let why = match fault {
        LabelFault::Iv => "IV is set",
        LabelFault::Tis => "TIS is set",
        LabelFault::HourReserved => "a reserved bit of the hour is set",
        LabelFault::EtiPti => "ETI or PTI is set",
        LabelFault::YearReserved => "the reserved bit of the year is set",
        LabelFault::Year => "the year is over 99",
        LabelFault::Month => "there is no such month",
        LabelFault::Day => "the month has no such day",
        LabelFault::Hour => "the hour is over 23",
        LabelFault::Minute => "the minute is over 59",
        LabelFault::Second => "the second is over 59",
        LabelFault::Millisecond => "the millisecond is over 999",
    };
    say!(voice, ", not valid: {why}")
}

// How the first of two labels stands to the second; not at all, where one is not valid.
pub(crate) fn order(voice: Voice, order: Option<Ordering>) {
    voice.say(match order {
        Some(Ordering::Less) => "the first is before the second",
        Some(Ordering::Greater) => "the first is after the second",
        Some(Ordering::Equal) => "both are the same instant",
        None => "neither comes before the other",
    })
}

impl fmt::Display for Which {
    fn fmt<W: fmt::Write>(&self, f: &mut fmt::Formatter<W>) -> fmt::Result {
        f.write_str(match self {
            Which::First => "the first",
            Which::Second => "the second",
        })
    }
}

// ---- frames ----

// The number that a gap answers.
pub(crate) fn number(voice: Voice, number: u8) {
    let words = match number {
        0 => "frame answered",
        1 => "empty run",
        2 => "run over 261 octets",
        3 => "not the form of a frame",
        4 => "checksum wrong",
        5 => "other link address",
        6 => "control field not offered",
        7 => "user data or collection before the first reset",
        8 => "image not sound",
        9 => "reply buffer under 261 octets",
        _ => "a parity bit wrong",
    };
    say!(voice, "number {number}: {words}")
}

// What the centre asks, with the FCB where it counts.
pub(crate) fn asks(voice: Voice, service: Service) {
    match service {
        Service::Reset => voice.say("reset"),
        Service::UserData(fcb) => say!(voice, "user data, FCB {fcb}"),
        Service::Status => voice.say("status"),
        Service::Collection(fcb) => say!(voice, "collection, FCB {fcb}"),
    }
}

pub(crate) fn is_reply(voice: Voice) {
    voice.say("reply ")
}

pub(crate) fn replies(voice: Voice, control: Control) {
    voice.say(match control {
        Control::Ack => "ACK",
        Control::Nack => "NACK",
        Control::Data => "data",
        Control::NothingToGive => "nothing to give",
        Control::Status => "status of the link",
    })
}

pub(crate) fn no_reply(voice: Voice, control: u8) {
    say!(voice, "a reply's control field that is none: {control:02X}")
}

pub(crate) fn link_address(voice: Voice, link: LinkAddress) {
    say!(voice, ", link address {}", link.0)
}

pub(crate) fn user_octets(voice: Voice, many: usize) {
    say!(voice, ", user octets {many}")
}

// ---- messages ----

pub(crate) fn type_id(voice: Voice, type_id: u8) {
    let words = match type_id {
        1 => "events",
        8 => "totals",
        11 => "periods",
        71 => "identity",
        72 => "clock",
        100 => "read identity",
        102 => "read events",
        103 => "read clock",
        122 => "read totals",
        123 => "read periods",
        131 => "switch dates",
        181 => "set clock",
        183 => "open session",
        185 => "read switch dates",
        186 => "set switch dates",
        187 => "close session",
        128 | 130 => "signature, not used here",
        180 | 184 => "read signature, not used here",
        182 => "read parameters, not used here",
        188 => "set parameters, not used here",
        200..=255 => "free for the maker",
        _ => "not used here",
    };
    say!(voice, "type {type_id} ({words})")
}

// SQ is the structure octet's highest bit, N the others.
pub(crate) fn structure(voice: Voice, structure: u8) {
    match structure {
        0..=127 => say!(voice, ", N {structure}"),
        _ => say!(voice, ", SQ 1, N {}", structure % 128),
    }
}

// T and P/N are the two highest bits of the cause's octet.
pub(crate) fn cause(voice: Voice, octet: u8) {
    let cause = octet % 64;
    let words = match cause {
        4 => "initialised",
        5 => "requested",
        6 => "activation",
        7 => "activation confirmed",
        8 => "deactivation",
        9 => "deactivation confirmed",
        10 => "activation ended",
        13 => "data not there",
        14 => "type of message not there",
        15 => "record address not known",
        16 => "point not known",
        17 => "object not there",
        18 => "period not there",
        53..=63 => "free for the maker",
        _ => "not used here",
    };
    let marks = match octet / 64 {
        0 => "",
        1 => "P/N 1 (negative), ",
        2 => "T 1, ",
        _ => "T 1, P/N 1 (negative), ",
    };
    say!(voice, ", cause {cause} ({words}), {marks}")
}

pub(crate) fn addressed(voice: Voice, point: PointAddress, address: u8) {
    let words = match address {
        0 => "",
        11 => " (periods)",
        21 => " (totals)",
        52 => " (start and low voltage)",
        53 => " (clock)",
        54 => " (parameters)",
        55 => " (internal errors)",
        128 => " (tampering)",
        129 => " (communication)",
        200..=255 => " (free for the maker)",
        _ => " (not used here)",
    };
    say!(voice, "point {}, record address {address}{words}", point.0)
}

impl fmt::Display for Unread {
    fn fmt<W: fmt::Write>(&self, f: &mut fmt::Formatter<W>) -> fmt::Result {
        f.write_str(match self {
            Unread::Unused => "octets",
            Unread::Misfit => "the octets do not fit the type and N:",
            Unread::Absent => "the octets do not fit the type and N: none",
        })
    }
}

pub(crate) fn objects(voice: Voice, objects: ObjectRange) {
    let words = if objects.are_offered() {
        ""
    } else {
        ", not offered"
    };
    say!(
        voice,
        "objects {} to {}{words}",
        objects.first,
        objects.last
    )
}

impl fmt::Display for Role {
    fn fmt<W: fmt::Write>(&self, f: &mut fmt::Formatter<W>) -> fmt::Result {
        f.write_str(match self {
            Role::From => "from ",
            Role::To => "to ",
            Role::FirstSwitch => "first switch date ",
            Role::SecondSwitch => "second switch date ",
            Role::Time => "time ",
            Role::Label => "label ",
        })
    }
}

// Four octets, high octet first.
pub(crate) fn password(voice: Voice, password: u32) {
    say!(voice, "password {password:08X}")
}

pub(crate) fn object(voice: Voice, object: u8, value: i32) {
    say!(voice, "object {object}: {value}")
}

// The bits that are set, by name, from the highest on.
pub(crate) fn quality(voice: Voice, quality: u8) {
    if quality == 0 {
        return;
    }
    voice.say(", quality");
    for (bit, name) in [
        (0x80, " IV"),
        (0x40, " CA"),
        (0x20, " CY"),
        (0x10, " VH"),
        (0x08, " MP"),
        (0x04, " INT"),
        (0x02, " AL"),
        (0x01, " bit 0"),
    ] {
        if quality & bit != 0 {
            voice.say(name);
        }
    }
}

pub(crate) fn event(voice: Voice, code: Code, spi: u8) {
    say!(voice, "SPA {}, SPQ {}, SPI {spi}", code.spa, code.spq)
}

// Before the label of an event.
pub(crate) fn labelled(voice: Voice) {
    voice.say(", ")
}

pub(crate) fn identity(voice: Voice, date: u8, maker: u8, product: u32) {
    say!(voice, "date {date}, maker {maker}, product {product}")
}

// ---- images ----

pub(crate) fn sound_image(voice: Voice, many: usize) {
    say!(voice, "image of {many} octets, sound")
}

pub(crate) fn unsound_image(voice: Voice, many: usize) {
    say!(voice, "image of {many} octets, not sound: ")
}

pub(crate) fn record(voice: Voice, number: usize, place: usize) {
    say!(voice, "record {number} at octet {place}: ")
}

pub(crate) fn unsound(voice: Voice, rule: ImageRule) {
    voice.say(match rule {
        ImageRule::TooLong => "over 65535 octets",
        ImageRule::Version => "it does not begin with version 1",
        ImageRule::FirstKind => "the first record is not of kind 1",
        ImageRule::PointZero => "the point is 0",
        ImageRule::FirstDate => "the first switch date is not valid",
        ImageRule::SecondDate => "the second switch date is not valid",
        ImageRule::ReadingAddress => "the record address is neither 11 nor 21",
        ImageRule::ReadingLabel => "the label is not valid",
        ImageRule::EventAddress => "the record address is none of events",
        ImageRule::EventLabel => "the event's label is not valid",
        ImageRule::OutOfOrder => "out of order by kind, point, record address and standard time",
        ImageRule::NinthPoint => "a ninth point",
        ImageRule::NoPointBefore => "no point stands before it",
        ImageRule::UnknownPoint => "the point is not among the points",
        ImageRule::Kind => "no such kind",
        ImageRule::Length => "the length is not that of its kind",
        ImageRule::Cut => "cut",
        ImageRule::NoRecord => "there is no record",
        ImageRule::NoPoint => "there is no point",
    })
}

pub(crate) fn head(voice: Voice, identity: Identity) {
    say!(
        voice,
        "link address {}, date {}, maker {}, product {}",
        identity.link.0,
        identity.date,
        identity.maker,
        identity.product
    )
}

pub(crate) fn point(voice: Voice, point: PointAddress) {
    say!(voice, "point {}", point.0)
}

pub(crate) fn readings(voice: Voice, many: u64) {
    say!(voice, ": readings {many}")
}

pub(crate) fn events(voice: Voice, many: u64) {
    say!(voice, ": events {many}")
}

// Before the first label of some, and before the last.
pub(crate) fn first(voice: Voice) {
    voice.say(", first ")
}

pub(crate) fn last(voice: Voice) {
    voice.say(", last ")
}

impl fmt::Display for Missing {
    fn fmt<W: fmt::Write>(&self, f: &mut fmt::Formatter<W>) -> fmt::Result {
        f.write_str(match self {
            Missing::Dates => "no switch dates",
            Missing::Readings => "no readings",
            Missing::Events => "no events",
            Missing::ReadingsAndEvents => "no readings, no events",
        })
    }
}

// ---- books of names ----

pub(crate) fn book(voice: Voice, book: Book, many: usize) {
    match book {
        Book::Chosen => say!(voice, "chosen book of {many} octets, "),
        Book::Italian => say!(voice, "Italian book of {many} octets, "),
    }
}

pub(crate) fn sound_book(voice: Voice) {
    voice.say("sound")
}

// A book that is refused as a whole has no faulty entry.
pub(crate) fn refused(voice: Voice, why: BookFault) {
    let number = why.fault.number();
    let entry = why.entry;
    match entry {
        0 => say!(voice, "refused by {number}"),
        _ => say!(voice, "refused by {number} at entry {entry}"),
    }
}

pub(crate) fn refusal(voice: Voice, fault: Fault) {
    voice.say(match fault {
        Fault::Version => ": empty or not version 1",
        Fault::Cut => ": cut",
        Fault::Name => ": name empty or too long",
        Fault::Order => ": not behind the entry before it by SPA and SPQ",
    })
}

// The name that a book has in an entry.
pub(crate) fn named(voice: Voice, book: Book, entry: usize, name: &[u8]) {
    voice.say(": ");
    voice.pass_on(name);
    match book {
        Book::Chosen => say!(voice, " (chosen book, entry {entry})"),
        Book::Italian => say!(voice, " (Italian book, entry {entry})"),
    }
}

// Before why a book is refused in which a name was looked for.
pub(crate) fn unreadable(voice: Voice, book: Book) {
    voice.say(match book {
        Book::Chosen => ": the chosen book is ",
        Book::Italian => ": the Italian book is ",
    })
}

pub(crate) fn unnamed(voice: Voice) {
    voice.say(": no name")
}

// ---- the card and what is lent to it ----

pub(crate) fn buffer(voice: Voice, many: u16) {
    say!(voice, "reply buffer of {many} octets")
}

pub(crate) fn octets_in(voice: Voice, many: usize) {
    say!(voice, "octets in: {many}")
}

// A character by its number from 1, its octet, and the parity bit that came with it, which is wrong.
pub(crate) fn wrong_parity(voice: Voice, number: usize, character: Character) {
    let octet = character.octet;
    let (came, right) = if character.parity { (1, 0) } else { (0, 1) };
    say!(
        voice,
        "character {number}: {octet:02X} has the parity bit {came}, and {right} is right"
    )
}

pub(crate) fn ordered(voice: Voice, order: Order) {
    voice.say(match order {
        Order::NoOrder => ", no order",
        Order::SetClock => ", order set clock",
        Order::SetDates => ", order set switch dates",
    })
}

pub(crate) fn reply(voice: Voice) {
    voice.say("reply")
}

pub(crate) fn link(voice: Voice, reset: bool, fcb: u8) {
    let words = if reset { "reset" } else { "not reset" };
    say!(voice, "{words}, last FCB {fcb}")
}

pub(crate) fn session(voice: Voice, session: Session) {
    match session {
        Session::Open(point) => say!(voice, ", session of point {}", point.0),
        Session::Closed => voice.say(", no session"),
    }
}

pub(crate) fn waits(voice: Voice, waiting: Waiting) {
    match waiting {
        Waiting::NoReply => voice.say(", nothing waiting"),
        Waiting::Mirror(cause) => say!(voice, ", waiting: mirror with cause {cause}"),
        Waiting::Denied => voice.say(", waiting: mirror with cause 7, P/N 1"),
        Waiting::Begin => voice.say(", waiting: mirror with cause 7, then data"),
        Waiting::More(given) => say!(
            voice,
            ", waiting: data or mirror with cause 10, given so far {given}"
        ),
        Waiting::Type71 => voice.say(", waiting: type 71"),
        Waiting::Type72 => voice.say(", waiting: type 72"),
        Waiting::Type131 => voice.say(", waiting: type 131"),
    }
}

pub(crate) fn damaged(voice: Voice, damaged: u16) {
    say!(voice, ", damaged runs {damaged}")
}

pub(crate) fn profile(voice: Voice, profile: Profile) {
    voice.say(match profile {
        Profile::Ten => ", ten-bit profile",
        Profile::Eleven => ", eleven-bit profile",
    })
}

// ---- why a message is refused ----

// The rules, as document 01 has them.
fn name_of(rule: Rule) -> &'static str {
    match rule {
        Rule::Marked => "T or P/N set",
        Rule::UnknownType => "type not offered",
        Rule::NoSession => "no session",
        Rule::UnknownPoint => "point not in the image",
        Rule::OtherSession => "session of another point",
        Rule::Shape => "shape",
        Rule::Address => "record address not as listed",
        Rule::Objects => "first object 0, last object over 6, or first after last",
        Rule::ReadingLabel => "a label of readings not valid",
        Rule::ReadingRange => "first label of readings after the last in standard time",
        Rule::NoReading => "no reading chosen",
        Rule::EventLabel => "a label of events not valid",
        Rule::EventRange => "first label of events after the last in standard time",
        Rule::NoEvent => "no event chosen",
        Rule::ClockUnset => "clock not valid",
        Rule::NoDates => "no switch dates in the image",
        Rule::TimeLabel => "a label to set not valid",
        Rule::WrongPassword => "wrong password",
        Rule::Accepted => "accepted",
    }
}

pub(crate) fn rule(voice: Voice, rule: Rule) {
    say!(voice, "rule: {}", name_of(rule))
}

// What to look at where a rule refuses a message.
pub(crate) fn look_at(voice: Voice, rule: Rule) {
    let place = match rule {
        Rule::Marked => {
            "octet 3, the cause: its two highest bits are T and P/N, and a request has both 0"
        }
        Rule::UnknownType => {
            "octet 1, the type, and whether the centre is set up for another kind of meter"
        }
        Rule::NoSession => {
            "what came before: a reset, 187, a wrong password and power-on close a session"
        }
        Rule::UnknownPoint => {
            "octets 4 and 5, the point with its low octet first, and whether this is the right meter"
        }
        Rule::OtherSession => {
            "the last 183 that was accepted: it opened the session for its own point alone"
        }
        Rule::Shape => {
            "octets 2 and 3, the structure octet with N and the cause, and whether the message was cut"
        }
        Rule::Address => "octet 6, the record address",
        Rule::Objects => "octets 7 and 8, the first object and the last",
        Rule::ReadingLabel => "octets 9 to 13 for from, 14 to 18 for to",
        Rule::ReadingRange => {
            "whether from and to are changed over, and SU: a label in summer time counts one hour earlier"
        }
        Rule::NoReading => "which readings `image` lists for this point and record address",
        Rule::EventLabel => "octets 7 to 11 for from, 12 to 16 for to",
        Rule::EventRange => {
            "whether from and to are changed over, and SU: a label in summer time counts one hour earlier"
        }
        Rule::NoEvent => "which events `image` lists for this point and record address",
        Rule::ClockUnset => "the meter's clock, which 181 sets",
        Rule::NoDates => "whether this meter is meant to have switch dates",
        Rule::TimeLabel => "the octets of the label, from octet 7 on",
        Rule::WrongPassword => {
            "which password the centre has for this point, and that its low octet is sent first"
        }
        Rule::Accepted => "",
    };
    say!(voice, "look at: {place}")
}

// The point that a session is open for. No sentence asks for it where there is none.
fn own(session: Session) -> u16 {
    match session {
        Session::Open(point) => point.0,
        Session::Closed => 0,
    }
}

// A rule and what would have been right by it, for a message that comes in a session.
pub(crate) fn right(voice: Voice, rule: Rule, session: Session, message: Request) {
    let head = message.header;
    let type_id = head.type_id;
    let point = head.point.0;
    let address = head.record_address;
    say!(voice, "{}: ", name_of(rule));
    match rule {
        Rule::Marked => voice.say("both have to be 0; "),
        Rule::UnknownType => say!(
            voice,
            "100, 102, 103, 122, 123, 181, 183, 185, 186 and 187 are offered; this one is {type_id}"
        ),
        Rule::NoSession => say!(voice, "{type_id} needs a session, open one with 183"),
        Rule::UnknownPoint => voice.say("the image has"),
        Rule::OtherSession => say!(
            voice,
            "the session is for point {}; this one asks for {point}",
            own(session)
        ),
        Rule::Shape => say!(voice, "{type_id} has"),
        Rule::Address => say!(voice, "{type_id} has record address"),
        Rule::Objects => say!(
            voice,
            "1 to 6 are offered, the first not after the last; this one asks for {} to {}",
            message.objects.first,
            message.objects.last
        ),
        Rule::ReadingLabel | Rule::EventLabel => voice.say("from and to have to be valid"),
        Rule::ReadingRange | Rule::EventRange => voice.say("from may not come after to"),
        Rule::NoReading | Rule::NoEvent => say!(
            voice,
            "the image has none of point {point}, record address {address} in this range"
        ),
        Rule::ClockUnset => say!(voice, "{type_id} needs a valid clock"),
        Rule::NoDates => say!(
            voice,
            "{type_id} needs switch dates, and the image has none"
        ),
        Rule::TimeLabel => say!(voice, "{type_id} sets only what is valid"),
        Rule::WrongPassword => say!(voice, "point {point} has another; this one has "),
        Rule::Accepted => voice.say("no rule refuses it"),
    }
}

// Which of the two highest bits of the cause's octet are set; one is at least.
pub(crate) fn marked(voice: Voice, octet: u8) {
    voice.say(match octet / 64 {
        0 => "neither is 1",
        1 => "P/N is 1",
        2 => "T is 1",
        _ => "both are 1",
    })
}

// A point of the image, behind so many others.
pub(crate) fn listed(voice: Voice, point: PointAddress, before: usize) {
    let comma = if before == 0 { "" } else { "," };
    say!(voice, "{comma} {}", point.0)
}

pub(crate) fn asked(voice: Voice, point: PointAddress) {
    say!(voice, "; this one asks for {}", point.0)
}

// The shape that is listed.
pub(crate) fn shape(voice: Voice, row: Row) {
    say!(
        voice,
        " {} octets, cause {} and N {}; this one has ",
        row.octets,
        row.cause,
        row.count
    )
}

impl fmt::Display for Part {
    fn fmt<W: fmt::Write>(&self, f: &mut fmt::Formatter<W>) -> fmt::Result {
        match self {
            Part::Octets(many) => write!(f, "{many} octets"),
            Part::Cause(cause) => write!(f, "cause {cause}"),
            Part::Sq => f.write_str("SQ 1"),
            Part::N(n) => write!(f, "N {n}"),
        }
    }
}

// The parts of the shape that was found, as far as they differ.
pub(crate) fn shaped(voice: Voice, parts: [Option<Part>; 4]) {
    let many = parts.iter().flatten().count();
    for (at, part) in parts.iter().flatten().enumerate() {
        let before = match at {
            0 => "",
            _ if at + 1 == many => " and ",
            _ => ", ",
        };
        say!(voice, "{before}{part}");
    }
}

// The record addresses that are listed, and the one that was found.
pub(crate) fn addresses(voice: Voice, listed: Addresses, found: u8) {
    match listed {
        Addresses::Only(own) => say!(voice, " {own}; this one has {found}"),
        Addresses::Events => say!(voice, " 52 to 55, 128 or 129; this one has {found}"),
    }
}

// What a label is that was found.
pub(crate) fn found(voice: Voice, role: Role) {
    say!(voice, "; {role}")
}

// Why no rule is asked: the image, whose fault follows.
pub(crate) fn unasked(voice: Voice) {
    voice.say("image not sound: ")
}

// Or how many octets the message has.
pub(crate) fn message_size(voice: Voice, many: usize) {
    say!(voice, "a message has 6 to 252 octets; this one has {many}")
}
