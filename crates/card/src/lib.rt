#![tactic(auto)]
// The card: its state, a character, a run examined, a gap.
ghost use Rattle.std.specs.Prelude.{◌≤◌, ◌≡◌, ltb, length};
ghost use Rattle.octets.specs.Over.{laid_in, Does};
ghost use Rattle.octets.specs.Choice.{when◌then◌else◌};
ghost use Rattle.frame.specs.declared.Fault.TheVariants.{Empty, Parity};
ghost use Rattle.frame.specs.Family.{sapr};
ghost use Rattle.frame.specs.Frame.{judge};
ghost use Rattle.frame.specs.Writing.{reply_octets};
ghost use Rattle.profile.specs.declared.Profile.TheVariants.{Eleven};
ghost use Rattle.fields.specs.Answers.{identity_found};
ghost use Rattle.card.specs.State.{card_at_power_on, collecting, with_character, with_octet, with_octets, left_with, damaged_by};
ghost use Rattle.card.specs.declared.NoAnswer.TheVariants.{Faulty};
ghost use Rattle.card.specs.Examining.{is_link, heard, examined_frame, examined_verdict, examined};
ghost use Rattle.card.specs.Gap.{refusal, after_answer, after_examining, gapped, gone_by, Gapped};

use address::LinkAddress;
use collector::Collector;
use deeds::Order;
use frame::{Control, Fault, Form, Judged, Reply, Service};
use link::{Answered, Link, Sends};
use octets::Kept;
use profile::Character;

// The octets since the last gap, the link with its session, the count of damaged runs.
#[derive(Clone, Copy)]
pub struct Card {
    pub collector: Collector,
    pub link: Link,
    pub damaged: u16,
}

// What a gap returns: document 01's number, how many octets the reply has, an order to the meter with its time octets, the card after it. The number is the
// paper's own, and `tender`'s theorems speak of it; inside the card a refusal is an error of a Result (`NoAnswer`).
#[derive(Clone, Copy)]
pub struct Gone {
    pub number: u8,
    pub length: u16,
    pub order: Order,
    pub time: [u8; 10],
    pub card: Card,
}

// What a sound frame for this card asks, and its user octets.
#[derive(Clone, Copy)]
pub struct Asked {
    pub service: Service,
    pub user: Kept,
}

// Why a run asks nothing of this card: it is no sound frame, it is for another card, or its control field is not offered.
#[derive(Clone, Copy, Debug, PartialEq, Eq)]
pub enum NoAnswer {
    Faulty(Fault),
    OtherLink,
    NotOffered,
}

impl From<Fault> for NoAnswer {
    ghost from_gives = { λ fault why. why ≡ Faulty fault };

    fn from(fault: Fault) -> NoAnswer {
        NoAnswer::Faulty(fault)
    }
}

// The run is judged, its link address compared with the image's, its control field read. Nothing after this reads the collector.
fn examine(collector: Collector, image: &[u8]) -> Result<Asked, NoAnswer>
    ensures { result ≡ examined collector image.now }
{
    if Judged::LONGEST < collector.length as usize {
        return Err(NoAnswer::Faulty(Fault::Long));
    }
    if collector.marked {
        return Err(NoAnswer::Faulty(fault_of_marked(collector.length)));
    }
    examine_run(
        octets::part(&collector.octets, 0, collector.length as usize),
        image,
    )
}

// What a marked run of so many octets is: an empty one is empty, as without the mark.
fn fault_of_marked(length: u16) -> Fault
    ensures { result ≡ (when ltb 0 length then Parity else Empty) }
{
    if 0 < length {
        Fault::Parity
    } else {
        Fault::Empty
    }
}

fn examine_run(run: &[u8], image: &[u8]) -> Result<Asked, NoAnswer>
    ensures { result ≡ examined_verdict image.now (judge sapr run.now) }
{
    match frame::judge(run)? {
        Judged::Fixed { control, link } => { examine_frame(image, Form::Fixed, control, link, &[]) }
        Judged::Variable {
            control,
            link,
            users,
        } => examine_frame(
            image,
            Form::Variable,
            control,
            link,
            frame::user(run, users),
        ),
    }
}

#[tactic(auto, unfolding(crate::specs::Examining::examined_frame))]
fn examine_frame(
    image: &[u8],
    form: Form,
    control: u8,
    link: LinkAddress,
    user: &[u8],
) -> Result<Asked, NoAnswer>
    requires { length user.now ≤ 252 }
    ensures { result ≡ examined_frame image.now form control link user.now }
{
    if is_link(image, link) {
        hear(frame::service_of(form, control), user)
    } else {
        Err(NoAnswer::OtherLink)
    }
}

// The user octets are those of a sound frame: 252 at most, a clause here as in frame.
fn hear(asked: Option<Service>, user: &[u8]) -> Result<Asked, NoAnswer>
    requires { length user.now ≤ 252 }
    ensures { result ≡ heard asked user.now }
{
    let service = asked.ok_or(NoAnswer::NotOffered)?;
    Ok(Asked {
        service,
        user: Kept::new().with(user),
    })
}

// Whether a frame is for the card that an image describes.
fn is_link(image: &[u8], link: LinkAddress) -> bool
    ensures { result ≡ is_link (identity_found image.now) link }
{
    fields::identity_of(image).is_some_and(|identity| identity.link == link)
}

impl Card {
    #[tactic(auto, unfolding(crate::specs::State::card_at_power_on))]
    pub fn power_on() -> Card
        ensures { result ≡ card_at_power_on }
    {
        Card {
            collector: Collector::new(),
            link: Link::power_on(),
            damaged: 0,
        }
    }

    // An octet came in.
    pub fn octet(self, octet: u8) -> Card
        ensures { result ≡ with_octet self octet }
    {
        self.collecting(self.collector.with(octet))
    }

    // A character of eleven bits came in: an octet with its parity bit.
    #[tactic(auto, unfolding(crate::specs::State::with_character))]
    pub fn character(self, character: Character) -> Card
        ensures { result ≡ with_character Eleven self character }
    {
        self.collecting(self.collector.with_character(character))
    }

    // Octets came in, one after the other; the card is copied once for all of them.
    #[tactic(auto, using(crate::proofs::State::characters_collected))]
    pub fn octets(self, octets: &[u8]) -> Card
        ensures { result ≡ with_octets self octets.now }
    {
        self.collecting(self.collector.with_all(octets))
    }

    fn collecting(self, collector: Collector) -> Card
        ensures { result ≡ collecting collector self }
    {
        Card { collector, ..self }
    }

    // The run is gone, and the link as it is then.
    fn left_with(self, link: Link) -> Card
        ensures { result ≡ left_with link self }
    {
        Card {
            collector: Collector::new(),
            link,
            ..self
        }
    }

    // A run that is no sound frame is gone and counted; an empty one changes nothing.
    fn damaged_by(self, fault: Fault) -> Card
        ensures { result ≡ damaged_by fault self }
    {
        if collector::is_damaged(fault) {
            Card {
                collector: Collector::new(),
                damaged: collector::one_more(self.damaged),
                ..self
            }
        } else {
            self
        }
    }

    // The line was idle: the run is examined, and a reply may be written.
    pub fn gap(self, image: &[u8], clock: [u8; 7], buffer: &mut [u8]) -> Gone
        ensures { Gapped (gapped self image.now clock (length buffer.old)) buffer.old result buffer.new }
    {
        if buffer.len() < Judged::LONGEST {
            return refused(9, self);
        }
        if !image::sound(image) {
            return refused(8, self);
        }
        let examined = examine(self.collector, image);
        after_examining(self, examined, image, clock, buffer)
    }
}

// No reply and no order.
#[tactic(auto, unfolding(crate::specs::Gap::refusal, crate::specs::Gap::gone_by))]
fn refused(number: u8, card: Card) -> Gone
    ensures { result ≡ gone_by (refusal number card) }
{
    Gone {
        number,
        length: 0,
        order: Order::NoOrder,
        time: [0; 10],
        card,
    }
}

// The buffer is a slice with a `requires` here and in the two functions below, and no `&mut [u8; 261]`: the lender is not told the length of an array that it
// lends out of a slice, so that each of the three would have to ensure it.
#[tactic(auto, unfolding(crate::specs::Gap::after_examining), using(crate::proofs::Gap::refused_gap))]
fn after_examining(
    card: Card,
    examined: Result<Asked, NoAnswer>,
    image: &[u8],
    clock: [u8; 7],
    buffer: &mut [u8],
) -> Gone
    requires { 261 ≤ length buffer.old }
    ensures { Gapped (after_examining card examined image.now clock) buffer.old result buffer.new }
{
    match examined {
        Err(NoAnswer::Faulty(fault)) => refused(fault.number(), card.damaged_by(fault)),
        Err(NoAnswer::OtherLink) => refused(5, card.left_with(card.link)),
        Err(NoAnswer::NotOffered) => refused(6, card.left_with(card.link)),
        Ok(asked) => after_answer(
            card,
            card.link.answer(asked.service, asked.user, image, clock),
            buffer,
        ),
    }
}

// The two replies are written here and not by one function, which would be handed all of the answer by value.
fn after_answer(card: Card, answered: Answered, buffer: &mut [u8]) -> Gone
    requires { 261 ≤ length buffer.old }
    ensures { Gapped (after_answer card answered) buffer.old result buffer.new }
{
    let Answered {
        sends,
        order,
        time,
        link,
    } = answered;
    match sends {
        Sends::NotReset => refused(7, card.left_with(link)),
        Sends::Remembered => Gone {
            number: 0,
            length: written(buffer, link.remembered),
            order,
            time,
            card: card.left_with(link),
        },
        Sends::Status(address) => Gone {
            number: 0,
            length: written(buffer, Reply::plain(Control::Status, address)),
            order,
            time,
            card: card.left_with(link),
        },
    }
}

// Writes a reply, and answers how many octets it has.
fn written(buffer: &mut [u8], reply: Reply) -> u16
    requires { 261 ≤ length buffer.old }
    ensures { Does (length (reply_octets reply)) (laid_in buffer.old (reply_octets reply)) result buffer.new }
{
    frame::write(buffer, reply).unwrap_or(0)
}
