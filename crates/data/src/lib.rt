#![tactic(auto)]
// The data messages that the card gives: types 1, 8, 11, 71, 72 and 131.
ghost use Rattle.std.specs.Prelude.{◌≤◌, true, [], ◌≡◌, length, take, drop};
ghost use Rattle.records.specs.Records.{kind_at, record_at};
ghost use Rattle.choice.specs.declared.Query.TheVariants.{Event};
ghost use Rattle.choice.specs.Choice.{choice};
ghost use Rattle.octets.specs.Keeping.{kept_of, octets_of};
ghost use Rattle.octets.specs.Calls.{added};
ghost use Rattle.message.specs.Requests.{objects_offered};
ghost use Rattle.data.specs.Messages.{reply_header, identity_reply, clock_reply, dates_reply, object_octets, reading_reply, event_octets, events_octets};
ghost use Rattle.data.specs.Portions.{portion, next_reading, next_events};

use address::PointAddress;
use choice::{Query, Span};
use fields::{Dates, Identity};
use message::{Header, ObjectRange};
use octets::{Kept, Number};

// A message, and how many of the chosen records it has; none, and no octets, when no record is left. No record is a count as any other, since what is
// given already is counted on by it.
#[derive(Clone, Copy)]
pub struct Portion {
    pub message: Kept,
    pub many: usize,
}

// A message that has its header only. All data messages are of cause 5.
fn headed(type_id: u8, count: u8, point: PointAddress, address: u8) -> Kept
    ensures { result ≡ kept_of (reply_header type_id count point address) }
{
    let header = Header {
        type_id,
        structure: count,
        cause: 5,
        point,
        record_address: address,
    };
    Kept::new().with(&header.octets())
}

// Type 71: what the meter is.
pub fn identity(point: PointAddress, head: Identity) -> Kept
    ensures { result ≡ kept_of (identity_reply point head) }
{
    let product = head.product.low_octets();
    headed(71, 1, point, 0).with(&[
        head.date, head.maker, product[0], product[1], product[2], product[3],
    ])
}

// Type 72: the clock.
pub fn clock(point: PointAddress, clock: [u8; 7]) -> Kept
    ensures { result ≡ kept_of (clock_reply point clock) }
{
    headed(72, 1, point, 0).with(&clock)
}

// Type 131: the switch dates.
pub fn dates(point: PointAddress, dates: Dates) -> Kept
    ensures { result ≡ kept_of (dates_reply point dates) }
{
    headed(131, 1, point, 0)
        .with(&dates.first.octets())
        .with(&dates.second.octets())
}

// Number, value and quality of an object of the reading at a place. A reading has all six, so the way out is never taken.
fn object_octets(image: &[u8], at: usize, object: u8) -> [u8; 6]
    requires at_value { kind_at image.now at ≡ 4 }
    requires le_object { 1 ≤ object }
    requires object_bound { object ≤ 6 }
    ensures { result ≡ object_octets object (record_at image.now at) }
{
    let Some(found) = fields::value_at(image, at, object) else {
        return [0; 6];
    };
    let value = octets::unsigned(found.value).low_octets();
    [
        object,
        value[0],
        value[1],
        value[2],
        value[3],
        found.quality,
    ]
}

// The reading at a place, with the objects that are asked for: what types 8 and 11 share.
fn reading_at(image: &[u8], at: usize, span: Span, objects: ObjectRange, type_id: u8) -> Kept
    requires at_value { kind_at image.now at ≡ 4 }
    requires objects_value { objects_offered objects ≡ true }
    ensures { result ≡ kept_of (reading_reply type_id span.point span.record_address objects (record_at image.now at)) }
{
    let many = objects.last - objects.first + 1;
    let mut message = headed(type_id, many, span.point, span.record_address);
    for object in objects.first..objects.last + 1 {
        message = message.with(&object_octets(image, at, object));
    }
    message.with(&fields::key_at(image, at).label.a.octets())
}

// No octets, and none of the chosen records.
fn none() -> Portion
    ensures { result ≡ portion [] 0 }
{
    Portion {
        message: Kept::new(),
        many: 0,
    }
}

// Types 8 and 11: of the chosen readings the one after those that are given already, with the objects that are asked for. Of objects that are not
// offered nothing is given.
pub fn reading(
    image: &[u8],
    span: Span,
    objects: ObjectRange,
    type_id: u8,
    before: usize,
) -> Portion
    ensures { result ≡ next_reading type_id span objects image.now before }
{
    if !objects.are_offered() {
        return none();
    }
    let Some(at) = choice::find(image, Query::Reading(span), before) else {
        return none();
    };
    Portion {
        message: reading_at(image, at, span, objects, type_id),
        many: 1,
    }
}

// SPA, SPQ/SPI octet and time b of the event at a place, which is there.
fn event_octets(image: &[u8], at: usize) -> [u8; 9]
    requires { kind_at image.now at ≡ 5 }
    ensures { result ≡ event_octets (record_at image.now at) }
{
    let Some(event) = fields::event_at(image, at) else {
        return [0; 9];
    };
    let label = event.label.octets();
    [
        event.spa, event.spq, label[0], label[1], label[2], label[3], label[4], label[5], label[6],
    ]
}

// Up to 27 events' octets, without a header: how many they are is known when the last has come. An
// iterator over the chosen would be a type that holds `find` and `next` of choice, for this one loop.
fn gathered(image: &[u8], span: Span, before: usize) -> Portion
    ensures { let rs = take 27 (drop before (choice (Event span) image.now)) in result ≡ portion (events_octets rs) (length rs) }
{
    let query = Query::Event(span);
    let mut message = Kept::new();
    let mut found = choice::find(image, query, before);
    for many in 0..27 {
        let Some(at) = found else {
            return Portion { message, many };
        };
        message = message.with(&event_octets(image, at));
        found = choice::next(image, query, records::after(image, at));
    }
    Portion { message, many: 27 }
}

// Type 1: of the chosen events up to 27 after those that are given already. Where none is left nothing is gathered: no octets, no header.
pub fn events(image: &[u8], span: Span, before: usize) -> Portion
    ensures { result ≡ next_events span image.now before }
{
    let next = gathered(image, span, before);
    if next.many == 0 {
        return next;
    }
    let header = headed(1, next.many as u8, span.point, span.record_address);
    Portion {
        message: header.with(next.message.as_slice()),
        ..next
    }
}
