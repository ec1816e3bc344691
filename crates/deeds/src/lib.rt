#![tactic(auto)]
// What a message does when it is carried out: the session, the order to the meter, what waits.
ghost use Rattle.std.specs.Prelude.{◌≡◌, ◌++◌, replicate};
ghost use Rattle.label.specs.Label.{label_a_octets, label_b_octets};
ghost use Rattle.message.specs.Table.{table, row_in};
ghost use Rattle.deeds.specs.Deeds.{deed_of, mirror_by, leaving, ordering, done_by, carried_out, nothing_pending, is_waiting};

use label::{LabelA, LabelB};
use message::{Deed, Request};
use octets::Kept;
use rules::{Rule, Session};

// What is given next. The octets of the request stand beside it. Nothing is one state of eight and no None: each is met in one match with the others.
#[derive(Clone, Copy)]
pub enum Waiting {
    NoReply,
    // A mirror with a cause and P/N 0; one with cause 7 and P/N 1.
    Mirror(u8),
    Denied,
    // Mirror 7, then data.
    Begin,
    // Data, when so many of the chosen readings or events are given already.
    More(usize),
    Type71,
    Type72,
    Type131,
}

// An order to the meter. Its time octets stand beside it and not in it, and no order is a case of it and no None: `tender`'s theorems (`no_time_law`,
// the wrong card `babbler`) say what the time octets are where there is no order, and name the two side by side.
#[derive(Clone, Copy)]
pub enum Order {
    NoOrder,
    SetClock,
    SetDates,
}

// What waits, with the request and the clock that was taken for 103.
#[derive(Clone, Copy)]
pub struct Pending {
    pub waiting: Waiting,
    pub request: Kept,
    pub clock: [u8; 7],
}

// A message carried out: the rule that applied, what it did, the session after it, an order to the meter with its time octets, what waits.
#[derive(Clone, Copy)]
pub struct Carried {
    pub rule: Rule,
    pub deed: Deed,
    pub session: Session,
    pub order: Order,
    pub time: [u8; 10],
    pub pending: Pending,
}

// What is done: the session after it, an order with its time octets, what waits, the clock that is taken.
#[derive(Clone, Copy)]
struct Done {
    session: Session,
    order: Order,
    time: [u8; 10],
    waiting: Waiting,
    clock: [u8; 7],
}

fn deed_of(rule: Rule, type_id: u8) -> Deed
    ensures { result ≡ deed_of rule (row_in table type_id) }
{
    match message::row_of(type_id) {
        Some(row) => rule.deed(row.deed),
        None => rule.deed(Deed::Refused),
    }
}

fn mirror_by(rule: Rule) -> Waiting
    ensures { result ≡ mirror_by rule }
{
    if rule.pn() {
        Waiting::Denied
    } else {
        Waiting::Mirror(rule.cause())
    }
}

fn leaving(session: Session, waiting: Waiting) -> Done
    ensures { result ≡ leaving session waiting }
{
    Done {
        session,
        order: Order::NoOrder,
        time: [0; 10],
        waiting,
        clock: [0; 7],
    }
}

fn ordering(session: Session, order: Order, time: [u8; 10]) -> Done
    ensures { result ≡ ordering session order time }
{
    Done {
        order,
        time,
        ..leaving(session, Waiting::Mirror(7))
    }
}

fn clock_octets(label: LabelB) -> [u8; 10]
    ensures { result ≡ label_b_octets label ++ replicate 3 0 }
{
    let b = label.octets();
    [b[0], b[1], b[2], b[3], b[4], b[5], b[6], 0, 0, 0]
}

fn dates_octets(first: LabelA, last: LabelA) -> [u8; 10]
    ensures { result ≡ label_a_octets first ++ label_a_octets last }
{
    let a = first.octets();
    let z = last.octets();
    [a[0], a[1], a[2], a[3], a[4], z[0], z[1], z[2], z[3], z[4]]
}

fn done_by(rule: Rule, session: Session, clock: [u8; 7], request: Request, deed: Deed) -> Done
    ensures { result ≡ done_by rule session clock request deed }
{
    match deed {
        Deed::Refused => leaving(session, mirror_by(rule)),
        Deed::ShutOut => leaving(Session::Closed, mirror_by(rule)),
        Deed::Opens => leaving(Session::Open(request.header.point), Waiting::Mirror(7)),
        Deed::Closes => leaving(Session::Closed, Waiting::Mirror(7)),
        Deed::Gives71 => leaving(session, Waiting::Type71),
        Deed::Gives72 => Done {
            clock,
            ..leaving(session, Waiting::Type72)
        },
        Deed::Gives131 => leaving(session, Waiting::Type131),
        Deed::GivesData => leaving(session, Waiting::Begin),
        Deed::SetsClock => ordering(session, Order::SetClock, clock_octets(request.time)),
        Deed::SetsDates => ordering(
            session,
            Order::SetDates,
            dates_octets(request.first, request.last),
        ),
    }
}

// The first rule that applies decides what a message does.
#[tactic(auto, unfolding(crate::specs::Deeds::carried_out))]
pub fn carry_out(session: Session, image: &[u8], clock: [u8; 7], request: Kept) -> Carried
    ensures { result ≡ carried_out session image.now clock request }
{
    let read = Request::read(request.as_slice());
    let rule = rules::decide(session, image, clock, read);
    let deed = deed_of(rule, read.header.type_id);
    let Done {
        session,
        order,
        time,
        waiting,
        clock,
    } = done_by(rule, session, clock, read, deed);
    Carried {
        rule,
        deed,
        session,
        order,
        time,
        pending: Pending {
            waiting,
            request,
            clock,
        },
    }
}

impl Pending {
    #[tactic(auto, unfolding(crate::specs::Deeds::nothing_pending))]
    pub fn new() -> Pending
        ensures { result ≡ nothing_pending }
    {
        Pending {
            waiting: Waiting::NoReply,
            request: Kept::new(),
            clock: [0; 7],
        }
    }

    // Whether a reply waits.
    pub fn is_waiting(self) -> bool
        ensures { result ≡ is_waiting self.waiting }
    {
        !matches!(self.waiting, Waiting::NoReply)
    }
}
