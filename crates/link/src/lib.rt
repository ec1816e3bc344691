#![tactic(auto)]
// The link and the session: a sound frame for this card is answered.
ghost use Rattle.std.specs.Prelude.{◌≡◌};
ghost use Rattle.link.specs.State.{data_reply, power_on, after_reset, after_new};
ghost use Rattle.link.specs.working.Counting.{IsCounted};
ghost use Rattle.link.specs.Answering.{link_in, answered_by, noted, carried, user_data, given, collection, answered};

use address::LinkAddress;
use deeds::{Carried, Order, Pending};
use fields::Identity;
use frame::{Control, Reply, Service};
use message::Header;
use octets::Kept;
use rules::Session;
use waiting::Next;

// Whether a reset was answered since power-on, the last FCB, the session, the remembered reply, what waits. The FCB stands beside the flag and not in
// an Option: `answer` takes any link, one that is not reset and has FCB 1 too.
#[derive(Clone, Copy)]
pub struct Link {
    pub reset: bool,
    pub fcb: u8,
    pub session: Session,
    pub remembered: Reply,
    pub pending: Pending,
}

// What is sent: nothing, before the first reset; the remembered reply, be it new or not; the status, with the link address that it carries. Nothing is a
// case and no None, since it says why.
#[derive(Clone, Copy)]
pub enum Sends {
    NotReset,
    Remembered,
    Status(LinkAddress),
}

// What is sent, an order to the meter with its time octets, and the link after it.
#[derive(Clone, Copy)]
pub struct Answered {
    pub sends: Sends,
    pub order: Order,
    pub time: [u8; 10],
    pub link: Link,
}

fn data_reply(message: Kept, address: LinkAddress) -> Reply
    ensures { result ≡ data_reply message address }
{
    Reply {
        control: Control::Data,
        link: address,
        user: message,
    }
}

fn link_in(found: Option<Identity>) -> LinkAddress
    ensures { result ≡ link_in found }
{
    found.map_or(LinkAddress(0), |identity| identity.link)
}

// Without an order to the meter.
#[tactic(auto, unfolding(crate::specs::Answering::answered_by))]
fn answered_by(sends: Sends, link: Link) -> Answered
    ensures { result ≡ answered_by sends link }
{
    Answered {
        sends,
        order: Order::NoOrder,
        time: [0; 10],
        link,
    }
}

impl Link {
    // Not reset, no session, nothing waiting.
    #[tactic(auto, unfolding(crate::specs::State::power_on))]
    pub fn power_on() -> Link
        ensures { result ≡ power_on }
    {
        Link {
            reset: false,
            fcb: 0,
            session: Session::Closed,
            remembered: Reply::plain(Control::Ack, LinkAddress(0)),
            pending: Pending::new(),
        }
    }

    #[tactic(auto, unfolding(crate::specs::State::after_reset, crate::specs::State::power_on))]
    fn after_reset(reply: Reply) -> Link
        ensures { result ≡ after_reset reply }
    {
        Link {
            reset: true,
            remembered: reply,
            ..Link::power_on()
        }
    }

    #[tactic(auto, unfolding(crate::specs::State::after_new))]
    fn after_new(self, bit: u8, reply: Reply, session: Session, pending: Pending) -> Link
        ensures { result ≡ after_new bit reply session pending self }
    {
        Link {
            fcb: bit,
            session,
            remembered: reply,
            pending,
            ..self
        }
    }

    // A reply that becomes the remembered one, with nothing carried out.
    #[tactic(auto, unfolding(crate::specs::Answering::noted))]
    fn noted(self, bit: u8, reply: Reply) -> Answered
        ensures { result ≡ noted bit reply self }
    {
        let Link {
            session,
            pending,
            ..
        } = self;
        answered_by(
            Sends::Remembered,
            self.after_new(bit, reply, session, pending),
        )
    }

    // ACK, and the message is carried out. Address and bit are given apart here and below: a reply takes the one, and what is noted the other.
    #[tactic(auto, unfolding(crate::specs::Answering::carried))]
    fn carried(self, address: LinkAddress, bit: u8, done: Carried) -> Answered
        ensures { result ≡ carried address bit self done }
    {
        let Carried {
            order,
            time,
            session,
            pending,
            ..
        } = done;
        Answered {
            sends: Sends::Remembered,
            order,
            time,
            link: self.after_new(bit, Reply::plain(Control::Ack, address), session, pending),
        }
    }

    #[tactic(auto, unfolding(crate::specs::Answering::user_data))]
    fn user_data(
        self,
        address: LinkAddress,
        bit: u8,
        request: Kept,
        image: &[u8],
        clock: [u8; 7],
    ) -> Answered
        ensures { result ≡ user_data address bit self request image.now clock }
    {
        if self.pending.is_waiting() || request.length < Header::OCTETS {
            self.noted(bit, Reply::plain(Control::Nack, address))
        } else {
            self.carried(
                address,
                bit,
                deeds::carry_out(self.session, image, clock, request),
            )
        }
    }

    #[tactic(auto, unfolding(crate::specs::Answering::given))]
    fn given(self, address: LinkAddress, bit: u8, next: Next) -> Answered
        ensures { result ≡ given address bit self next }
    {
        let pending = next.pending;
        let session = self.session;
        match next.message {
            Some(message) => answered_by(
                Sends::Remembered,
                self.after_new(bit, data_reply(message, address), session, pending),
            ),
            None => self.noted(bit, Reply::plain(Control::NothingToGive, address)),
        }
    }

    #[tactic(auto, unfolding(crate::specs::Answering::collection))]
    fn collection(self, address: LinkAddress, bit: u8, image: &[u8]) -> Answered
        ensures { result ≡ collection address bit self image.now }
    {
        self.given(address, bit, waiting::next_reply(self.pending, image))
    }

    // User data and collections by their FCB: what is done afresh is done only where it is new.
    #[tactic(auto, unfolding(crate::specs::working::Counting::IsCounted))]
    fn counted<F: FnOnce() -> Answered>(self, bit: u8, afresh: F) -> Answered
        requires { F.pre afresh }
        ensures { IsCounted bit self (F.post afresh) result }
    {
        if !self.reset {
            answered_by(Sends::NotReset, self)
        } else if bit == self.fcb {
            answered_by(Sends::Remembered, self)
        } else {
            afresh()
        }
    }

    // A frame that is for this card is answered.
    #[tactic(auto, unfolding(crate::specs::Answering::answered))]
    pub fn answer(self, service: Service, user: Kept, image: &[u8], clock: [u8; 7]) -> Answered
        ensures { result ≡ answered self service user image.now clock }
    {
        let address = link_in(fields::identity_of(image));
        match service {
            Service::Reset => answered_by(
                Sends::Remembered,
                Link::after_reset(Reply::plain(Control::Ack, address)),
            ),
            Service::UserData(bit) => {
                self.counted(bit, || self.user_data(address, bit, user, image, clock))
            }
            Service::Status => answered_by(Sends::Status(address), self),
            Service::Collection(bit) => {
                self.counted(bit, || self.collection(address, bit, image))
            }
        }
    }
}
