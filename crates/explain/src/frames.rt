// Frames: the number of a run that is none, or what a frame asks or replies, and the message in it.
use crate::books::Books;
use crate::voice::Voice;
use crate::{messages, words};
use address::LinkAddress;
use frame::{Control, Form, Judged};

// The reply that has a control field, in a frame of its form.
fn reply_of(form: Form, control: u8) -> Option<Control> {
    match (form, control) {
        (Form::Fixed, Control::ACK) => Some(Control::Ack),
        (Form::Fixed, Control::NACK) => Some(Control::Nack),
        (Form::Fixed, Control::NOTHING_TO_GIVE) => Some(Control::NothingToGive),
        (Form::Fixed, Control::STATUS) => Some(Control::Status),
        (Form::Variable, Control::DATA) => Some(Control::Data),
        _ => None,
    }
}

// A reply's control field. A line of its own says that it is a reply, `named`; below the reply's octets that would be said twice.
fn reply(voice: Voice, reply: Control, named: bool) {
    if named {
        words::is_reply(voice);
    }
    words::replies(voice, reply);
}

// A control field that asks for nothing that is offered. Bit 7 is set in the centre's, and in no reply's.
fn other(voice: Voice, form: Form, control: u8, named: bool) {
    if control & 0x40 != 0 {
        words::number(voice, 6);
    } else if let Some(found) = reply_of(form, control) {
        reply(voice, found, named);
    } else {
        words::no_reply(voice, control);
    }
}

fn control(voice: Voice, form: Form, control: u8, to: LinkAddress, named: bool) {
    match frame::service_of(form, control) {
        Some(asked) => words::asks(voice, asked),
        None => other(voice, form, control, named),
    }
    words::link_address(voice, to);
}

// What stands in a frame's user octets: a message, or too few octets for one.
fn user(voice: Voice, user: &[u8], books: &Books) {
    words::user_octets(voice, user.len());
    if user.len() < 6 {
        messages::unused(voice, user);
    } else {
        voice.new_line();
        messages::explain(voice.indented(), user, books);
    }
}

// A run; what it carries begins new lines, and a reply is said to be one where it is to be `named`.
pub(crate) fn explain(voice: Voice, run: &[u8], named: bool, books: &Books) {
    match frame::judge(run) {
        Err(why) => words::number(voice, why.number()),
        Ok(
            Judged::Fixed {
                control: octet,
                link,
            },
        ) => control(voice, Form::Fixed, octet, link, named),
        Ok(
            Judged::Variable {
                control: octet,
                link,
                users,
            },
        ) => {
            control(voice, Form::Variable, octet, link, named);
            user(voice, frame::user(run, users), books);
        }
    }
}
