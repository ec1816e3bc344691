#![tactic(auto)]
// Requests: the first rule of document 01 that applies to a message.
ghost use Rattle.std.specs.Prelude.{◌&&◌, not, false, ◌≡◌, eqb};
ghost use Rattle.octets.specs.Choice.{when◌then◌else◌};
ghost use Rattle.message.specs.Requests.{objects_offered};
ghost use Rattle.message.specs.Table.{table, row_in};
ghost use Rattle.rules.specs.declared.Rule.TheVariants.{Shape, Address, Objects, ReadingLabel, ReadingRange, NoReading, NoDates, TimeLabel, Accepted};
ghost use Rattle.choice.specs.declared.Query.TheVariants.{Reading};
ghost use Rattle.fields.specs.Answers.{dates_found};
ghost use Rattle.rules.specs.Rules.{cause_by, pn_by, deed_by};
ghost use Rattle.rules.specs.Decide.{marked, is_closed, known, is_other, shaped_as, addressed_as, labels_valid, first_after_last, span_of, none_in, dated, opens, by_type, decide};

use address::PointAddress;
use choice::{Query, Span};
use fields::Point;
use label::LabelB;
use message::{Addresses, Deed, Request, Row};

// The password session: closed, or open for a point.
#[derive(Clone, Copy)]
pub enum Session {
    Closed,
    Open(PointAddress),
}

// The rules by which a message is refused, in document 01's order, and that none of them applies: a case and no None, since it has a cause, a P/N, a deed
// and a place as each rule has (`ruling` of specs/).
#[derive(Clone, Copy)]
pub enum Rule {
    Marked,
    UnknownType,
    NoSession,
    UnknownPoint,
    OtherSession,
    Shape,
    Address,
    Objects,
    ReadingLabel,
    ReadingRange,
    NoReading,
    EventLabel,
    EventRange,
    NoEvent,
    ClockUnset,
    NoDates,
    TimeLabel,
    WrongPassword,
    Accepted,
}

impl Rule {
    // The cause of the mirror that a rule gives.
    pub fn cause(self) -> u8
        ensures { result ≡ cause_by self }
    {
        match self {
            Rule::Marked
            | Rule::UnknownType
            | Rule::NoSession
            | Rule::OtherSession
            | Rule::Shape
            | Rule::NoDates => 14,
            Rule::Address => 15,
            Rule::UnknownPoint => 16,
            Rule::Objects => 17,
            Rule::ReadingLabel
            | Rule::ReadingRange
            | Rule::NoReading
            | Rule::EventLabel
            | Rule::EventRange => 18,
            Rule::NoEvent | Rule::ClockUnset => 13,
            Rule::TimeLabel | Rule::WrongPassword | Rule::Accepted => 7,
        }
    }

    // Its P/N.
    pub fn pn(self) -> bool
        ensures { result ≡ pn_by self }
    {
        matches!(self, Rule::TimeLabel | Rule::WrongPassword)
    }

    // What a message does by a rule: accepted, what its row says.
    pub fn deed(self, its: Deed) -> Deed
        ensures { result ≡ deed_by self its }
    {
        match self {
            Rule::Accepted => its,
            Rule::WrongPassword => Deed::ShutOut,
            _ => Deed::Refused,
        }
    }
}

// What a request chooses: its point's records of that record address, from the first label to the last.
#[tactic(auto, unfolding(crate::specs::Decide::span_of))]
pub fn span_of(request: Request) -> Span
    ensures { result ≡ span_of request }
{
    Span {
        point: request.header.point,
        record_address: request.header.record_address,
        first: request.first.instant(),
        last: request.last.instant(),
    }
}

// T and P/N are the two highest bits.
fn is_marked(cause: u8) -> bool
    ensures { result ≡ marked cause }
{
    cause / 128 % 2 != 0 || cause / 64 % 2 != 0
}

// A type other than 183 needs a session.
fn lacks_session(session: Session, type_id: u8) -> bool
    ensures { result ≡ (is_closed session && not (eqb type_id 183)) }
{
    match session {
        Session::Closed => type_id != 183,
        Session::Open(_) => false,
    }
}

// And it needs the session of its own point.
fn is_other(session: Session, point: PointAddress, type_id: u8) -> bool
    ensures { result ≡ (is_other session point && not (eqb type_id 183)) }
{
    match session {
        Session::Closed => false,
        Session::Open(own) => own != point && type_id != 183,
    }
}

fn is_shaped(row: Row, request: Request) -> bool
    ensures { result ≡ shaped_as row request }
{
    request.header.structure == row.count
        && request.octets == row.octets as usize
        && request.header.cause % 64 == row.cause
}

fn is_addressed(addresses: Addresses, address: u8) -> bool
    ensures { result ≡ addressed_as addresses address }
{
    match addresses {
        Addresses::Only(own) => address == own,
        Addresses::Events => image::is_event_record(address),
    }
}

#[tactic(auto, unfolding(crate::specs::Decide::labels_valid))]
fn are_labels_valid(request: Request) -> bool
    ensures { result ≡ labels_valid request }
{
    request.first.is_valid() && request.last.is_valid()
}

#[tactic(auto, unfolding(crate::specs::Decide::first_after_last))]
fn is_first_after_last(request: Request) -> bool
    ensures { result ≡ first_after_last request }
{
    request.last.is_before(request.first)
}

// Whether nothing is chosen: the search ends at the first that is.
fn is_none(image: &[u8], query: Query) -> bool
    ensures { result ≡ none_in query image.now }
{
    choice::find(image, query, 0).is_none()
}

fn is_dated(image: &[u8]) -> bool
    ensures { result ≡ dated (dates_found image.now) }
{
    fields::dates_of(image).is_some()
}

fn does_open(found: Option<Point>, password: u32) -> bool
    ensures { result ≡ opens found password }
{
    found.is_some_and(|point| point.password == password)
}

// A rule, unless what it asks holds.
fn unless(holds: bool, rule: Rule) -> Rule
    ensures { result ≡ (when not holds then rule else Accepted) }
{
    if holds { Rule::Accepted } else { rule }
}

// Labels, their order and what they choose, each refused by its rule. The three rules are named where they are given: a struct of them would be
// built for the call and taken apart here.
fn ranged(
    image: &[u8],
    request: Request,
    query: Query,
    label: Rule,
    range: Rule,
    none: Rule,
) -> Rule
    ensures { result ≡ (when not (labels_valid request) then label else when first_after_last request then range else when none_in query image.now then none else Accepted) }
{
    if !are_labels_valid(request) {
        label
    } else if is_first_after_last(request) {
        range
    } else if is_none(image, query) {
        none
    } else {
        Rule::Accepted
    }
}

fn for_readings(image: &[u8], request: Request) -> Rule
    ensures { result ≡ (when not (objects_offered request.objects) then Objects else when not (labels_valid request) then ReadingLabel else when first_after_last request then ReadingRange else when none_in (Reading (span_of request)) image.now then NoReading else Accepted) }
{
    if request.objects.are_offered() {
        ranged(
            image,
            request,
            Query::Reading(span_of(request)),
            Rule::ReadingLabel,
            Rule::ReadingRange,
            Rule::NoReading,
        )
    } else {
        Rule::Objects
    }
}

fn for_switch(image: &[u8], request: Request) -> Rule
    ensures { result ≡ (when not (dated (dates_found image.now)) then NoDates else when not (labels_valid request) then TimeLabel else Accepted) }
{
    if is_dated(image) {
        unless(are_labels_valid(request), Rule::TimeLabel)
    } else {
        Rule::NoDates
    }
}

#[tactic(auto, unfolding(crate::specs::Decide::by_type, crate::specs::Decide::labels_valid, crate::specs::Decide::first_after_last, crate::specs::Decide::span_of, message::specs::Requests::asks_readings))]
fn by_type(image: &[u8], clock: [u8; 7], request: Request) -> Rule
    ensures { result ≡ by_type image.now clock request }
{
    match request.header.type_id {
        122 | 123 => for_readings(image, request),
        102 => ranged(
            image,
            request,
            Query::Event(span_of(request)),
            Rule::EventLabel,
            Rule::EventRange,
            Rule::NoEvent,
        ),
        103 => unless(LabelB::read(&clock).is_valid(), Rule::ClockUnset),
        181 => unless(request.time.is_valid(), Rule::TimeLabel),
        183 => unless(
            does_open(
                fields::point_of(image, request.header.point),
                request.password,
            ),
            Rule::WrongPassword,
        ),
        185 => unless(is_dated(image), Rule::NoDates),
        186 => for_switch(image, request),
        _ => Rule::Accepted,
    }
}

// The first rule that applies to a message, in document 01's order. No waiting reply is looked at, and nothing is changed.
#[tactic(auto, unfolding(crate::specs::Decide::decide))]
pub fn decide(session: Session, image: &[u8], clock: [u8; 7], request: Request) -> Rule
    ensures { result ≡ decide session image.now clock request }
{
    let header = request.header;
    if is_marked(header.cause) {
        return Rule::Marked;
    }
    let Some(row) = message::row_of(header.type_id) else {
        return Rule::UnknownType;
    };
    if lacks_session(session, header.type_id) {
        return Rule::NoSession;
    }
    if fields::point_of(image, header.point).is_none() {
        return Rule::UnknownPoint;
    }
    if is_other(session, header.point, header.type_id) {
        return Rule::OtherSession;
    }
    if !is_shaped(row, request) {
        return Rule::Shape;
    }
    if !is_addressed(row.addresses, header.record_address) {
        return Rule::Address;
    }
    by_type(image, clock, request)
}
