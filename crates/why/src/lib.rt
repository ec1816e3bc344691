#![tactic(auto)]
// Why the meter says no: the first rule in document 01's order that applies to a message, by its own name.
ghost use Rattle.std.specs.Prelude.{◌++◌, ◌≡◌, Ok, Err};
ghost use Rattle.octets.specs.Keeping.{kept_of};
ghost use Rattle.message.specs.Mirror.{pn_bit};
ghost use Rattle.printing.specs.Text.{decimal};
ghost use Rattle.printing.specs.Line.{space, newline};
ghost use Rattle.rules.specs.Rules.{pn_by};
ghost use Rattle.why.specs.Naming.{place_of, word_of};
ghost use Rattle.why.specs.Asking.{why_of};
ghost use Rattle.why.specs.Told.{why_line};

use card::Card;
use message::Request;
use octets::Kept;
use rules::Rule;

// Why no rule is asked for: the image is not sound, or a message is under 6 or over 252 octets long.
#[derive(Clone, Copy)]
pub enum Unasked {
    ImageUnsound,
    MessageLength,
}

// The first rule that applies to a message, if the card as it is were to carry it out. Of the card only the session is looked at.
#[tactic(auto, unfolding(crate::specs::Asking::why_of))]
pub fn ask(card: Card, image: &[u8], clock: [u8; 7], message: &[u8]) -> Result<Rule, Unasked>
    ensures { result ≡ why_of card.link.session image.now clock message.now }
{
    if !image::sound(image) {
        Err(Unasked::ImageUnsound)
    } else if message.len() < 6 || 252 < message.len() {
        Err(Unasked::MessageLength)
    } else {
        Ok(rules::decide(card.link.session, image, clock, Request::read(message)))
    }
}

// A rule's place in document 01's order, from 1 on; accepted comes last. It is a number, since `place_of` of specs/ is: its theorems say by it which
// rule is earlier.
pub fn place(rule: Rule) -> u8
    ensures { result ≡ place_of rule }
{
    match rule {
        Rule::Marked => 1,
        Rule::UnknownType => 2,
        Rule::NoSession => 3,
        Rule::UnknownPoint => 4,
        Rule::OtherSession => 5,
        Rule::Shape => 6,
        Rule::Address => 7,
        Rule::Objects => 8,
        Rule::ReadingLabel => 9,
        Rule::ReadingRange => 10,
        Rule::NoReading => 11,
        Rule::EventLabel => 12,
        Rule::EventRange => 13,
        Rule::NoEvent => 14,
        Rule::ClockUnset => 15,
        Rule::NoDates => 16,
        Rule::TimeLabel => 17,
        Rule::WrongPassword => 18,
        Rule::Accepted => 19,
    }
}

// The word of a rule.
fn word(rule: Rule) -> &'static [u8]
    ensures { result.now ≡ word_of rule }
{
    match rule {
        Rule::Marked => b"marked",
        Rule::UnknownType => b"type",
        Rule::NoSession => b"session",
        Rule::UnknownPoint => b"point",
        Rule::OtherSession => b"other",
        Rule::Shape => b"shape",
        Rule::Address => b"record",
        Rule::Objects => b"objects",
        Rule::ReadingLabel => b"reading-label",
        Rule::ReadingRange => b"reading-range",
        Rule::NoReading => b"no-reading",
        Rule::EventLabel => b"event-label",
        Rule::EventRange => b"event-range",
        Rule::NoEvent => b"no-event",
        Rule::ClockUnset => b"clock",
        Rule::NoDates => b"no-dates",
        Rule::TimeLabel => b"time",
        Rule::WrongPassword => b"password",
        Rule::Accepted => b"accepted",
    }
}

// A rule's P/N, which ends a line.
#[tactic(auto, unfolding(printing::specs::Text::decimal, printing::specs::Text::figures))]
fn pn_text(rule: Rule) -> &'static [u8]
    ensures { result.now ≡ space ++ decimal (pn_bit (pn_by rule)) ++ newline }
{
    if rule.pn() { b" 1\n" } else { b" 0\n" }
}

// The line of a rule: its word, and the cause and P/N of the mirror that it gives. An accepted message is not refused by any.
fn named(rule: Rule) -> Kept
    ensures { result ≡ kept_of (why_line (Ok rule)) }
{
    let front = Kept::new().with(b"why 0 ").with(word(rule));
    match rule {
        Rule::Accepted => front.with(b" - -\n"),
        _ => {
            let front = front.with(b" ");
            printing::with_decimal(front, rule.cause() as u64).with(pn_text(rule))
        }
    }
}

// The line where no rule is asked for.
fn unnamed(unasked: Unasked) -> Kept
    ensures { result ≡ kept_of (why_line (Err unasked)) }
{
    match unasked {
        Unasked::ImageUnsound => Kept::new().with(b"why 1 - - -\n"),
        Unasked::MessageLength => Kept::new().with(b"why 2 - - -\n"),
    }
}

// The line that tells an answer: `why`, its number, the rule's word, cause and P/N, and `-` for what there is not.
pub fn line(why: Result<Rule, Unasked>) -> Kept
    ensures { result ≡ kept_of (why_line why) }
{
    match why {
        Ok(rule) => named(rule),
        Err(unasked) => unnamed(unasked),
    }
}
