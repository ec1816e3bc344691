// The bench: a card, what is lent to it, and what each request does to them.
use crate::books::Books;
use crate::held::Held;
use crate::requests::{Request, Word};
use crate::voice::Voice;
use crate::{cards, frames, images, labels, messages, whys, words};
use address::PointAddress;
use card::Card;
use deeds::Pending;
use link::Link;
use message::Request as Asked;
use names::Which as Book;
use profile::{Character, Profile};
use rules::{Rule, Session};

// A card of a profile; the image, the clock, and how many octets of a reply buffer, that are lent to it with every gap; and the books.
#[derive(Clone, Copy)]
pub struct Bench {
    card: Card,
    pub profile: Profile,
    image: Held,
    clock: [u8; 7],
    buffer: u16,
    books: Books,
}

impl Bench {
    pub(crate) fn new() -> Bench {
        Bench {
            card: Card::power_on(),
            profile: Profile::Ten,
            image: Held::new(),
            clock: [0; 7],
            buffer: 261,
            books: Books::new(),
        }
    }

    // A request is carried out.
    pub(crate) fn obey(&mut self, voice: Voice, request: Request, given: &Held) {
        let octets = given.octets();
        match request.word {
            Word::Label => labels::explain(voice, octets),
            Word::Compare => labels::compare(voice, octets),
            Word::Frame => frames::explain(voice.indented(), octets, true, &self.books),
            Word::Message => messages::explain(voice.indented(), octets, &self.books),
            Word::Event => messages::name(voice, octets, &self.books),
            Word::Image => self.lend_image(voice, given),
            Word::Clock => self.lend_clock(voice, octets),
            Word::Buffer => self.lend_buffer(voice, request.number),
            Word::Book => self.books.lend(voice, Book::Chosen, given),
            Word::Italian => self.books.lend(voice, Book::Italian, given),
            Word::PowerOn => self.power_on(voice),
            Word::Profile => self.set_profile(voice, request.number),
            Word::Session => self.set_session(voice, request.number),
            Word::State => self.show(voice, false),
            Word::Octets => self.collect_octets(voice, octets),
            Word::Characters => self.collect_characters(voice, octets),
            Word::Gap => self.gap(voice, None),
            Word::Run => self.run(voice, octets),
            Word::Ask => self.ask(voice, octets),
            Word::Collect => self.collect(voice),
            Word::Why => {
                whys::explain(voice, self.card, self.image.octets(), self.clock, octets)
            }
        }
    }

    // ---- what is lent ----

    fn lend_image(&mut self, voice: Voice, image: &Held) {
        self.image.hold(image);
        images::explain(voice, image.octets());
    }

    fn lend_clock(&mut self, voice: Voice, clock: &[u8]) {
        self.clock = input::clock_at(clock, 0);
        labels::explain(voice, clock);
    }

    fn lend_buffer(&mut self, voice: Voice, many: Option<u16>) {
        if let Some(many) = many {
            self.buffer = many;
            words::buffer(voice, many);
        }
    }

    // ---- the card as it is to be ----

    // The card as it is now, with its state said; its profile is said where it is to be `named`.
    fn show(&self, voice: Voice, named: bool) {
        cards::state(voice, self.card);
        cards::profile(voice, self.profile, named);
    }

    fn power_on(&mut self, voice: Voice) {
        self.card = Card::power_on();
        self.show(voice, false);
    }

    // Another profile is another card: one profile serves for all that a card is given.
    fn set_profile(&mut self, voice: Voice, bits: Option<u16>) {
        self.card = Card::power_on();
        self.profile = match bits {
            Some(11) => Profile::Eleven,
            _ => Profile::Ten,
        };
        self.show(voice, true);
    }

    // The card as if a session had just been opened or closed, and the ACK had been sent for it.
    fn set_session(&mut self, voice: Voice, point: Option<u16>) {
        let session = match point {
            Some(point) => Session::Open(PointAddress(point)),
            None => Session::Closed,
        };
        self.card.link = Link {
            reset: true,
            session,
            remembered: cards::acknowledged(self.image.octets()),
            pending: Pending::new(),
            ..self.card.link
        };
        self.show(voice, false);
    }

    // ---- what the card is given ----

    fn give(&mut self, octets: &[u8]) {
        self.card = self.card.octets(octets);
    }

    fn collect_octets(&mut self, voice: Voice, octets: &[u8]) {
        words::octets_in(voice, octets.len());
        self.give(octets);
    }

    // Every octet has its parity bit behind it.
    fn collect_characters(&mut self, voice: Voice, octets: &[u8]) {
        words::octets_in(voice, octets.len() / 2);
        for (before, pair) in octets.chunks_exact(2).enumerate() {
            let character = Character {
                octet: pair[0],
                parity: pair[1] == 1,
            };
            cards::character(voice.indented(), before + 1, character);
            self.card = self.card.character(character);
        }
    }

    // A buffer over 261 octets serves like one that has 261.
    fn gap(&mut self, voice: Voice, met: Option<Rule>) {
        let mut buffer = [0; 261];
        let room = usize::from(self.buffer.min(261));
        let gone = self
            .card
            .gap(self.image.octets(), self.clock, &mut buffer[..room]);
        let sent = octets::part(&buffer, 0, usize::from(gone.length));
        cards::gap(voice, gone, met, sent, &self.books);
        self.card = gone.card;
    }

    fn run(&mut self, voice: Voice, octets: &[u8]) {
        self.give(octets);
        self.gap(voice, None);
    }

    // The rule that applies to a message, where nothing stands before its frame.
    fn met(&self, message: &[u8]) -> Option<Rule> {
        let session = self.card.link.session;
        let message = Asked::read(message);
        (self.card.collector.length == 0).then(|| rules::decide(
            session,
            self.image.octets(),
            self.clock,
            message,
        ))
    }

    // A message, in a frame of user data with the FCB that is new.
    fn ask(&mut self, voice: Voice, message: &[u8]) {
        let met = self.met(message);
        let (head, end) = cards::user_data(self.card.link.fcb, self.image.octets(), message);
        self.give(&head);
        self.give(message);
        self.give(&end);
        self.gap(voice, met);
    }

    fn collect(&mut self, voice: Voice) {
        let frame = cards::collection(self.card.link.fcb, self.image.octets());
        self.run(voice, &frame);
    }
}
