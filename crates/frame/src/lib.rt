#![tactic(auto)]
// Frames of FT 1.2: a run is judged, its control field read, a reply written.
ghost use Rattle.std.specs.Prelude.{◌≡◌, ◌+◌, ◌≤◌, [], ◌∷◌, ◌++◌, length, take, slice_index};
ghost use Rattle.frame.specs.Family.{sapr};
ghost use Rattle.octets.specs.Numbers.{low_first};
ghost use Rattle.octets.specs.Sum.{checksum};
ghost use Rattle.octets.specs.Over.{laid_in, Does};
ghost use Rattle.frame.specs.Frame.{fixed, variable, fixed_form, variable_form, sum_right, judge, body_of, start_with, written, fault_number};
ghost use Rattle.frame.specs.Calls.{verdict_says, judged_says, user_part, answer_to, left_of};
ghost use Rattle.frame.specs.Controls.{offered, control_of};
ghost use Rattle.frame.specs.Writing.{reply_octets, plain};

use address::LinkAddress;
use octets::{Kept, Number};

// Why a run is no sound frame: empty, over 261 octets, a wrong parity bit, not the form of a frame, a wrong checksum. Octets have no parity bit: `judge`
// finds none wrong.
#[derive(Clone, Copy, Debug, PartialEq, Eq)]
pub enum Fault {
    Empty = 1,
    Long = 2,
    Parity = 10,
    Malformed = 3,
    Spoiled = 4,
}

// A sound frame.
#[derive(Clone, Copy)]
pub enum Judged {
    Fixed {
        control: u8,
        link: LinkAddress,
    },
    // How many user octets there are. `user` hands them out: a slice of them here would keep the run lent as long as what is judged is held.
    Variable {
        control: u8,
        link: LinkAddress,
        users: u8,
    },
}

#[derive(Clone, Copy)]
pub enum Form {
    Fixed,
    Variable,
}

// What the centre asks for, with the FCB where it counts.
#[derive(Clone, Copy)]
pub enum Service {
    Reset,
    UserData(u8),
    Status,
    Collection(u8),
}

// The control fields of replies: acknowledged, not acknowledged, data, nothing to give, the link's status.
#[derive(Clone, Copy)]
pub enum Control {
    Ack,
    Nack,
    Data,
    NothingToGive,
    Status,
}

// A reply: its control field, the link address that it carries and, for data, its user octets.
#[derive(Clone, Copy)]
pub struct Reply {
    pub control: Control,
    pub link: LinkAddress,
    pub user: Kept,
}

// Why no reply is written: the buffer is under 261 octets.
#[derive(Clone, Copy, Debug, PartialEq, Eq)]
pub enum WriteError {
    Short,
}

impl Judged {
    // The start octets of the two forms, and the end octet of both.
    pub const START_FIXED: u8 = 0x10;

    pub const START_VARIABLE: u8 = 0x68;

    pub const END: u8 = 0x16;

    // Octets of a fixed frame, and of the longest.
    pub const FIXED: usize = 6;

    pub const LONGEST: usize = 261;

    // Octets of a variable frame that are no user octets: 68 L L 68 C A A and S 16; and those that L does not count: all of these but C A A.
    pub const FRAMING: usize = 9;

    pub const UNCOUNTED: usize = 6;
}

impl Service {
    // The control fields of the centre, each with FCB 0; and the FCB.
    pub const RESET: u8 = 0x40;

    pub const USER_DATA: u8 = 0x53;

    pub const STATUS: u8 = 0x49;

    pub const COLLECTION: u8 = 0x5B;

    pub const FCB: u8 = 0x20;
}

impl Control {
    // Its octet.
    fn octet(self) -> u8
        ensures { result ≡ control_of self }
    {
        match self {
            Control::Ack => Control::ACK,
            Control::Nack => Control::NACK,
            Control::Data => Control::DATA,
            Control::NothingToGive => Control::NOTHING_TO_GIVE,
            Control::Status => Control::STATUS,
        }
    }

    pub const ACK: u8 = 0x00;

    pub const NACK: u8 = 0x01;

    pub const DATA: u8 = 0x08;

    pub const NOTHING_TO_GIVE: u8 = 0x09;

    pub const STATUS: u8 = 0x0B;
}

impl Fault {
    // Document 01's number.
    pub fn number(self) -> u8
        ensures { result ≡ fault_number self }
    {
        self as u8
    }
}

#[tactic(auto, unfolding(crate::specs::Frame::fixed_form, octets::specs::Conditions::holds))]
fn fixed_form(run: &[u8]) -> bool
    ensures { result ≡ fixed_form sapr run.now }
{
    run.len() == Judged::FIXED && run[0] == Judged::START_FIXED && run[5] == Judged::END
}

#[tactic(auto, unfolding(crate::specs::Frame::variable_form, octets::specs::Conditions::holds))]
fn variable_form(run: &[u8]) -> bool
    ensures { result ≡ variable_form sapr run.now }
{
    let n = run.len();
    Judged::FRAMING <= n
        && n == run[1] as usize + Judged::UNCOUNTED
        && run[0] == Judged::START_VARIABLE
        && run[2] == run[1]
        && run[3] == Judged::START_VARIABLE
        && run[n - 1] == Judged::END
}

fn sum_right(run: &[u8], start: usize) -> bool
    requires { start + 2 ≤ length run.now }
    ensures { result ≡ sum_right start run.now }
{
    let end = run.len() - 2;
    octets::checksum(&run[start..end]) == run[end]
}

// The address at a place, low octet first.
fn link_at(run: &[u8], at: usize) -> LinkAddress
    requires { at + 2 ≤ length run.now }
    ensures { result.0 ≡ low_first (slice_index run.now at ∷ slice_index run.now (at + 1) ∷ []) }
{
    LinkAddress(u16::from_low_first([run[at], run[at + 1]]))
}

// What a run is: a sound frame, or why it is none.
#[tactic(auto, using(crate::proofs::Frame::fixed_facts, crate::proofs::Frame::variable_facts, crate::proofs::Frame::judge_empty, crate::proofs::Frame::judge_long, crate::proofs::Frame::judge_malformed, crate::proofs::Judging::says_fixed, crate::proofs::Judging::says_variable, crate::proofs::Judging::says_spoiled_fixed, crate::proofs::Judging::says_spoiled_variable))]
pub fn judge(run: &[u8]) -> Result<Judged, Fault>
    ensures { judged_says result ≡ verdict_says (judge sapr run.now) }
{
    let n = run.len();
    if n == 0 {
        return Err(Fault::Empty);
    }
    if Judged::LONGEST < n {
        return Err(Fault::Long);
    }
    if fixed_form(run) {
        if !sum_right(run, 1) {
            return Err(Fault::Spoiled);
        }
        return Ok(Judged::Fixed {
            control: run[1],
            link: link_at(run, 2),
        });
    }
    if variable_form(run) {
        if !sum_right(run, 4) {
            return Err(Fault::Spoiled);
        }
        return Ok(Judged::Variable {
            control: run[4],
            link: link_at(run, 5),
            users: (n - Judged::FRAMING) as u8,
        });
    }
    Err(Fault::Malformed)
}

// The user octets of a variable frame, as a part of its run; of any run, so many of those behind the first seven, as far as there are any.
pub fn user(run: &[u8], users: u8) -> &[u8]
    ensures { result.now ≡ user_part users run.now }
{
    octets::part(run, 7, users as usize)
}

// What a control field asks for in a frame of a form.
pub fn service_of(form: Form, control: u8) -> Option<Service>
    ensures { result ≡ offered form control }
{
    match form {
        Form::Fixed => fixed_service(control),
        Form::Variable => variable_service(control),
    }
}

// With FCV 0 either FCB serves.
#[tactic(auto, unfolding(crate::specs::Controls::offered), using(crate::proofs::Controls::fixed_only))]
fn fixed_service(control: u8) -> Option<Service>
    ensures { result ≡ offered Form.Fixed control }
{
    if control == Service::COLLECTION {
        Some(Service::Collection(0))
    } else if control == Service::COLLECTION + Service::FCB {
        Some(Service::Collection(1))
    } else if control == Service::RESET || control == Service::RESET + Service::FCB {
        Some(Service::Reset)
    } else if control == Service::STATUS || control == Service::STATUS + Service::FCB {
        Some(Service::Status)
    } else {
        None
    }
}

#[tactic(auto, unfolding(crate::specs::Controls::offered), using(crate::proofs::Controls::variable_only))]
fn variable_service(control: u8) -> Option<Service>
    ensures { result ≡ offered Form.Variable control }
{
    if control == Service::USER_DATA {
        Some(Service::UserData(0))
    } else if control == Service::USER_DATA + Service::FCB {
        Some(Service::UserData(1))
    } else {
        None
    }
}

impl Reply {
    // A reply without user octets.
    pub fn plain(control: Control, link: LinkAddress) -> Reply
        ensures { result ≡ plain control link }
    {
        Reply {
            control,
            link,
            user: Kept::new(),
        }
    }
}

// Writes a reply into the first octets of the buffer, and answers how many they are.
pub fn write(buffer: &mut [u8], reply: Reply) -> Result<u16, WriteError>
    ensures { Does (answer_to buffer.old (reply_octets reply)) (left_of buffer.old (reply_octets reply)) result buffer.new }
{
    let Some(space) = buffer.first_chunk_mut::<{ Judged::LONGEST }>() else {
        return Err(WriteError::Short);
    };
    Ok(write_into(space, reply))
}

// The same, where the longest frame has room. The clause `whole` is for the lender: it is not told the length of an array that it lends out of a slice.
#[tactic(auto, unfolding(octets::specs::Keeping::octets_of))]
fn write_into(space: &mut [u8; Judged::LONGEST], reply: Reply) -> u16
    ensures stands { Does (length (reply_octets reply)) (laid_in space.old (reply_octets reply)) result space.new }
    ensures whole { length space.new ≡ 261 }
{
    let control = reply.control.octet();
    let link = reply.link.0;
    match reply.control {
        Control::Data => {
            let user = reply.user;
            write_variable(space, control, link, user.as_slice())
        }
        Control::Ack | Control::Nack | Control::NothingToGive | Control::Status => {
            write_fixed(space, control, link)
        }
    }
}

// C A A: the control field, and the address low octet first. The two are given apart here and below, as the definition's `fixed` and `variable` take
// them: a struct of both would be `Judged::Fixed` once more.
fn control_and_address(control: u8, address: u16) -> [u8; 3]
    ensures { result ≡ body_of sapr (fixed control address) }
{
    let a = address.low_octets();
    [control, a[0], a[1]]
}

fn write_fixed(space: &mut [u8; Judged::LONGEST], control: u8, address: u16) -> u16
    ensures { Does (length (written sapr (fixed control address))) (laid_in space.old (written sapr (fixed control address))) result space.new }
{
    let body = control_and_address(control, address);
    let sum = octets::checksum(&body);
    octets::put(
        space,
        0,
        &[
            Judged::START_FIXED,
            body[0],
            body[1],
            body[2],
            sum,
            Judged::END,
        ],
    );
    Judged::FIXED as u16
}

fn write_variable(space: &mut [u8; Judged::LONGEST], control: u8, address: u16, user: &[u8]) -> u16
    requires { length user.now ≤ 252 }
    ensures { Does (length (written sapr (variable control address user.now))) (laid_in space.old (written sapr (variable control address user.now))) result space.new }
{
    write_front(space, control, address, user);
    octets::put(space, user.len() + 7, &variable_end(control, address, user));
    (user.len() + Judged::FRAMING) as u16
}

// 68 L L 68 C A A and the user octets.
fn write_front(space: &mut [u8; Judged::LONGEST], control: u8, address: u16, user: &[u8])
    requires { length user.now ≤ 252 }
    ensures { space.new ≡ laid_in space.old (start_with sapr (variable control address user.now) ++ body_of sapr (variable control address user.now)) }
{
    octets::put(space, 0, &variable_head(control, address, user));
    octets::put(space, 7, user);
}

// 68 L L 68 C A A. That there are 252 user octets at most is a clause here and where it is called: a type for such a slice would say no more.
fn variable_head(control: u8, address: u16, user: &[u8]) -> [u8; 7]
    requires { length user.now ≤ 252 }
    ensures { result ≡ start_with sapr (variable control address user.now) ++ body_of sapr (fixed control address) }
{
    let l = user.len() as u8 + 3;
    let body = control_and_address(control, address);
    [
        Judged::START_VARIABLE,
        l,
        l,
        Judged::START_VARIABLE,
        body[0],
        body[1],
        body[2],
    ]
}

// S 16.
fn variable_end(control: u8, address: u16, user: &[u8]) -> [u8; 2]
    ensures { result ≡ checksum (body_of sapr (variable control address user.now)) ∷ 0x16 ∷ [] }
{
    let body = control_and_address(control, address);
    [
        octets::checksum(&body).wrapping_add(octets::checksum(user)),
        Judged::END,
    ]
}
