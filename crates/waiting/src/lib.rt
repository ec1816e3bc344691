#![tactic(auto)]
// The replies that wait: the next one, worked out from the image lent with its own gap.
ghost use Rattle.std.specs.Prelude.{◌+◌, ◌<◌, ◌^◌, ◌≡◌};
ghost use Rattle.message.specs.Requests.{request_of};
ghost use Rattle.octets.specs.Keeping.{octets_of};
ghost use Rattle.waiting.specs.NextReply.{lastly, nothing_found, mirror_with, data_pending, begin_with, identity_from, dates_from, clock_from, reading_type, data_from, after_data, next_of};

use data::Portion;
use deeds::{Pending, Waiting};
use fields::{Dates, Identity};
use message::Request;
use octets::Kept;

// The reply that waits, if one does, and what waits behind it.
#[derive(Clone, Copy)]
pub struct Next {
    pub message: Option<Kept>,
    pub pending: Pending,
}

// A reply behind which nothing waits.
#[tactic(auto, unfolding(crate::specs::NextReply::lastly, crate::specs::NextReply::firstly))]
fn lastly(message: Kept) -> Next
    ensures { result ≡ lastly message }
{
    Next {
        message: Some(message),
        pending: Pending::new(),
    }
}

#[tactic(auto, unfolding(crate::specs::NextReply::nothing_found))]
fn nothing() -> Next
    ensures { result ≡ nothing_found }
{
    Next {
        message: None,
        pending: Pending::new(),
    }
}

#[tactic(auto, unfolding(crate::specs::NextReply::mirror_with))]
fn mirror_with(request: Kept, pn: bool, cause: u8) -> Next
    ensures { result ≡ mirror_with request pn cause }
{
    lastly(message::mirrored(request, pn, cause))
}

// Data with so many of the chosen given already. Request and clock are given apart: most of what is below asks for the request alone.
#[tactic(auto, unfolding(crate::specs::NextReply::data_pending))]
fn data(request: Kept, clock: [u8; 7], before: usize) -> Pending
    ensures { result ≡ data_pending request clock before }
{
    Pending {
        waiting: Waiting::More(before),
        request,
        clock,
    }
}

// Mirror 7, then data.
#[tactic(auto, unfolding(crate::specs::NextReply::begin_with, crate::specs::NextReply::firstly))]
fn begin(request: Kept, clock: [u8; 7]) -> Next
    ensures { result ≡ begin_with request clock }
{
    Next {
        message: Some(message::mirrored(request, false, 7)),
        pending: data(request, clock, 0),
    }
}

// What the request that is kept asks.
fn asked(request: Kept) -> Request
    ensures { result ≡ request_of (octets_of request) }
{
    Request::read(request.as_slice())
}

fn identity_from(request: Kept, found: Option<Identity>) -> Next
    ensures { result ≡ identity_from request found }
{
    match found {
        Some(head) => lastly(data::identity(asked(request).header.point, head)),
        None => mirror_with(request, false, 14),
    }
}

fn dates_from(request: Kept, found: Option<Dates>) -> Next
    ensures { result ≡ dates_from request found }
{
    let Some(dates) = found else {
        return mirror_with(request, false, 14);
    };
    lastly(data::dates(asked(request).header.point, dates))
}

#[tactic(auto, unfolding(crate::specs::NextReply::clock_from))]
fn clock_from(request: Kept, clock: [u8; 7]) -> Next
    ensures { result ≡ clock_from request clock }
{
    lastly(data::clock(asked(request).header.point, clock))
}

// 122 asks for type 8, 123 for type 11.
fn reading_type(type_id: u8) -> u8
    ensures { result ≡ reading_type type_id }
{
    if type_id == 122 { 8 } else { 11 }
}

#[tactic(auto, unfolding(crate::specs::NextReply::data_from))]
fn data_from(request: Kept, image: &[u8], before: usize) -> Portion
    ensures { result ≡ data_from request image.now before }
{
    let asked = asked(request);
    let type_id = asked.header.type_id;
    let span = rules::span_of(asked);
    if type_id == 102 {
        data::events(image, span, before)
    } else {
        data::reading(image, span, asked.objects, reading_type(type_id), before)
    }
}

// Data, or mirror 10 when no more is chosen.
fn after_data(request: Kept, clock: [u8; 7], before: usize, some: Portion) -> Next
    requires { before + some.many < 2 ^ 64 }
    ensures { result ≡ after_data request clock before some }
{
    if some.many == 0 {
        return mirror_with(request, false, 10);
    }
    Next {
        message: Some(some.message),
        pending: data(request, clock, before + some.many),
    }
}

// The next waiting reply.
#[tactic(auto, unfolding(crate::specs::NextReply::next_of))]
pub fn next_reply(pending: Pending, image: &[u8]) -> Next
    ensures { result ≡ next_of pending image.now }
{
    let Pending {
        waiting,
        request,
        clock,
    } = pending;
    match waiting {
        Waiting::NoReply => nothing(),
        Waiting::Mirror(cause) => mirror_with(request, false, cause),
        Waiting::Denied => mirror_with(request, true, 7),
        Waiting::Begin => begin(request, clock),
        Waiting::More(before) => after_data(
            request,
            clock,
            before,
            data_from(request, image, before),
        ),
        Waiting::Type71 => identity_from(request, fields::identity_of(image)),
        Waiting::Type72 => clock_from(request, clock),
        Waiting::Type131 => dates_from(request, fields::dates_of(image)),
    }
}
