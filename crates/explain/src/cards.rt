// What a gap answers, the state of the card, and the centre's frames that ask it for something.
use crate::books::Books;
use crate::voice::Voice;
use crate::{frames, words};
use address::LinkAddress;
use card::{Card, Gone};
use deeds::Order;
use frame::{Control, Reply, Service};
use octets::Number;
use profile::{Character, Profile};
use rules::Rule;

// The control field of a service that counts, with the FCB that is new to the card.
fn counted(service: u8, last: u8) -> u8 {
    match last {
        0 => service | Service::FCB,
        _ => service,
    }
}

// The link address of the card that is lent an image. `link` has the like to itself: a public function there would be a promise more.
fn link_of(image: &[u8]) -> LinkAddress {
    match fields::identity_of(image) {
        Some(identity) => identity.link,
        None => LinkAddress(0),
    }
}

// Its ACK.
pub(crate) fn acknowledged(image: &[u8]) -> Reply {
    Reply::plain(Control::Ack, link_of(image))
}

// C A A.
fn addressed(service: u8, last: u8, image: &[u8]) -> [u8; 3] {
    let [low, high]: [u8; 2] = link_of(image).0.low_octets();
    [counted(service, last), low, high]
}

// A collection.
pub(crate) fn collection(last: u8, image: &[u8]) -> [u8; 6] {
    let body = addressed(Service::COLLECTION, last, image);
    let [control, low, high] = body;
    [0x10, control, low, high, octets::checksum(&body), 0x16]
}

// What stands before a message and behind it in a frame of user data. `ask` has 252 octets at most.
pub(crate) fn user_data(last: u8, image: &[u8], message: &[u8]) -> ([u8; 7], [u8; 2]) {
    let body = addressed(Service::USER_DATA, last, image);
    let [control, low, high] = body;
    let l = message.len().min(252) as u8 + 3;
    let sum = octets::checksum(&body).wrapping_add(octets::checksum(message));
    ([0x68, l, l, 0x68, control, low, high], [sum, 0x16])
}

fn order(voice: Voice, order: Order, time: [u8; 10]) {
    words::ordered(voice, order);
    match order {
        Order::NoOrder => {}
        Order::SetClock => voice.octets(&time[..7]),
        Order::SetDates => voice.octets(&time),
    }
}

// The rule that a message met, if it is known.
fn rule(voice: Voice, met: Option<Rule>) {
    if let Some(rule) = met {
        voice.new_line();
        words::rule(voice, rule);
    }
}

// The octets of a reply, and what they say.
fn reply(voice: Voice, sent: &[u8], books: &Books) {
    voice.new_line();
    words::reply(voice);
    voice.octets(sent);
    voice.new_line();
    frames::explain(voice.indented(), sent, false, books);
}

// What a gap answered: its number; where a frame is answered, the order, the rule where the reply is an ACK, the reply.
pub(crate) fn gap(voice: Voice, gone: Gone, met: Option<Rule>, sent: &[u8], books: &Books) {
    let below = voice.indented();
    words::number(voice, gone.number);
    if sent.is_empty() {
        return;
    }
    order(voice, gone.order, gone.time);
    if octets::octet_at(sent, 1) == Control::ACK {
        rule(below, met);
    }
    reply(below, sent, books);
}

pub(crate) fn state(voice: Voice, card: Card) {
    let link = card.link;
    words::link(voice, link.reset, link.fcb);
    words::session(voice, link.session);
    words::waits(voice, link.pending.waiting);
    words::damaged(voice, card.damaged);
}

// The profile, where it is eleven bits or is to be `named`: ten bits go without saying.
pub(crate) fn profile(voice: Voice, profile: Profile, named: bool) {
    if named || matches!(profile, Profile::Eleven) {
        words::profile(voice, profile);
    }
}

// A character that comes in, by its number from 1: nothing is said of a right parity bit.
pub(crate) fn character(voice: Voice, number: usize, character: Character) {
    if !character.is_right() {
        voice.new_line();
        words::wrong_parity(voice, number, character);
    }
}
