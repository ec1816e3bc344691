#![tactic(auto)]
// The single parts of an image and of its records. Every call serves any octets and any place.
ghost use Rattle.std.specs.Prelude.{◌≡◌, ◌≢◌, ◌+◌, ◌≤◌, ◌<◌, length, MatchOption};
ghost use Rattle.std.specs.Iterator.{YieldsFirst, item_count};
ghost use Rattle.records.specs.Records.{length_of, kind_at, place_after};
ghost use Rattle.fields.specs.Parts.{number_at, point_of, record_address};
ghost use Rattle.fields.specs.working.Key.{at_minute, no_label, key, key_at, key_as};
ghost use Rattle.fields.specs.Answers.{identity_found, points_from, points_of, point_found, dates_at, dates_found};
ghost use Rattle.fields.specs.Calls.{value_found, event_found};
ghost use Rattle.fields.specs.working.Standing.{StandsThere, entries_from};

use address::{LinkAddress, PointAddress};
use label::{LabelA, LabelB};
use octets::Number;

// What a record is chosen and ordered by. A point has no record address, and of the labels only those of readings and events
// count: what a record of its kind does not have is 0. A reading's label stands at the start of its minute. Kind 0 says that
// there is no record: `key_at` promises it, in place of an Option, and so do `choice` and `image`, which compare kinds.
#[derive(Clone, Copy)]
pub struct Key {
    pub kind: u8,
    pub point: PointAddress,
    pub record_address: u8,
    pub label: LabelB,
}

// The first record of an image.
#[derive(Clone, Copy)]
pub struct Identity {
    pub link: LinkAddress,
    pub date: u8,
    pub maker: u8,
    pub product: u32,
}

// A point's number among the points, from 1, and its password.
#[derive(Clone, Copy)]
pub struct Point {
    pub number: usize,
    pub password: u32,
}

// The two switch dates.
#[derive(Clone, Copy)]
pub struct Dates {
    pub first: LabelA,
    pub second: LabelA,
}

// One object of a reading.
#[derive(Clone, Copy)]
pub struct Value {
    pub value: i32,
    pub quality: u8,
}

#[derive(Clone, Copy)]
pub struct Event {
    pub spa: u8,
    pub spq: u8,
    pub label: LabelB,
}

// The number of N octets at a place.
#[tactic(auto, unfolding(crate::specs::Parts::number_at))]
fn number_at<T: Number<N>, const N: usize>(r: &[u8], at: usize) -> T
    requires { at + N ≤ length r.now }
    ensures { T.value result ≡ number_at N r.now at }
{
    let octets = r[at..at + N].as_array().unwrap();
    T::from_high_first(*octets)
}

// The octets of the record of a kind at a place. Asks for that kind alone, which is quicker than to ask which kind stands there.
fn of_kind(s: &[u8], at: usize, kind: u8) -> Option<&[u8]>
    requires { 0 < length_of kind }
    ensures { MatchOption result (kind_at s.now at ≢ kind) (λ r. StandsThere kind s.now at r.now) }
{
    let length = records::length_of(kind);
    let r = s.get(at..)?.get(..2 + length as usize)?;
    let said: u16 = number_at(r, 0);
    if r[2] == kind && said == length {
        Some(r)
    } else {
        None
    }
}

fn at_minute(a: LabelA) -> LabelB
    ensures { result ≡ at_minute a }
{
    LabelB { low: 0, high: 0, a }
}

fn no_label() -> LabelB
    ensures { result ≡ no_label }
{
    at_minute(LabelA {
        minute: 0,
        hour: 0,
        day: 0,
        month: 0,
        year: 0,
    })
}

// The key of what is no point, no reading and no event: it has its kind alone.
fn other_key(kind: u8) -> Key
    ensures { result ≡ key kind 0 0 no_label }
{
    Key {
        kind,
        point: PointAddress(0),
        record_address: 0,
        label: no_label(),
    }
}

// The key of a reading or an event, given its octets and its label.
#[tactic(auto, unfolding(crate::specs::Parts::point_of, crate::specs::Parts::record_address))]
fn labelled(r: &[u8], kind: u8, label: LabelB) -> Key
    requires { 6 ≤ length r.now }
    ensures { result ≡ key kind (point_of r.now) (record_address r.now) label }
{
    Key {
        kind,
        point: PointAddress(number_at(r, 3)),
        record_address: r[5],
        label,
    }
}

// The key of the point at a place; kind 0 where none stands. Points, readings and events have a function each, since what they read differs
// in more than the kind.
#[tactic(auto, unfolding(records::specs::Records::length_of, crate::specs::Parts::point_of), using(crate::proofs::Parts::point_there, crate::proofs::Parts::key_not_as))]
fn point_key(s: &[u8], at: usize) -> Key
    ensures { result ≡ key_as 2 s.now at }
{
    match of_kind(s, at, 2) {
        Some(r) => Key {
            point: PointAddress(number_at(r, 3)),
            ..other_key(2)
        },
        None => other_key(0),
    }
}

// The key of the reading at a place; kind 0 where none stands. Small, so that a walk over readings has it inlined.
#[tactic(auto, unfolding(records::specs::Records::length_of), using(crate::proofs::Parts::reading_there, crate::proofs::Parts::key_not_as))]
pub fn reading_key(s: &[u8], at: usize) -> Key
    ensures { result ≡ key_as 4 s.now at }
{
    match of_kind(s, at, 4) {
        Some(r) => labelled(r, 4, at_minute(LabelA::read(&r[6..11]))),
        None => other_key(0),
    }
}

// The key of the event at a place; kind 0 where none stands.
#[tactic(auto, unfolding(records::specs::Records::length_of), using(crate::proofs::Parts::event_there, crate::proofs::Parts::key_not_as))]
pub fn event_key(s: &[u8], at: usize) -> Key
    ensures { result ≡ key_as 5 s.now at }
{
    match of_kind(s, at, 5) {
        Some(r) => labelled(r, 5, LabelB::read(&r[8..15])),
        None => other_key(0),
    }
}

// The key of the whole record at a place; kind 0 where none stands.
#[tactic(auto, using(crate::proofs::Parts::key_as_law, crate::proofs::Parts::key_other))]
pub fn key_at(s: &[u8], at: usize) -> Key
    ensures { result ≡ key_at s.now at }
{
    match records::kind_at(s, at) {
        2 => point_key(s, at),
        4 => reading_key(s, at),
        5 => event_key(s, at),
        kind => other_key(kind),
    }
}

// Link address, date, maker and product: the first record, where it is of kind 1.
#[tactic(auto, unfolding(records::specs::Records::length_of, crate::specs::Answers::identity_found, crate::specs::Parts::link_of, crate::specs::Parts::date_of, crate::specs::Parts::maker_of, crate::specs::Parts::product_of))]
pub fn identity_of(image: &[u8]) -> Option<Identity>
    ensures { result ≡ identity_found image.now }
{
    let r = of_kind(image, 1, 1)?;
    Some(Identity {
        link: LinkAddress(number_at(r, 3)),
        date: r[5],
        maker: r[6],
        product: number_at(r, 7),
    })
}

// The points that stand one behind the other from a place on: the address and the password of each.
#[derive(Clone, Copy)]
struct PointsFrom<'a> {
    image: &'a [u8],
    at: usize,
}

impl<'a> Iterator for PointsFrom<'a> {
    type Item = (PointAddress, u32);

    ghost next_gives = { YieldsFirst (λ s. entries_from s.image.now s.at) };

    ghost remaining = { item_count (λ s. entries_from s.image.now s.at) };

    fn next(&mut self) -> Option<(PointAddress, u32)> {
        let r = of_kind(self.image, self.at, 2)?;
        self.at += 9;
        Some((PointAddress(number_at(r, 3)), number_at(r, 5)))
    }
}

// The points of an image, which stand behind the first record.
fn points_of(image: &[u8]) -> PointsFrom
    ensures { (result.image.now ≡ image.now) × (result.at ≡ place_after image.now 1) }
{
    PointsFrom {
        image,
        at: records::after(image, 1),
    }
}

// How many points stand behind the first record.
pub fn points(image: &[u8]) -> usize
    ensures { result ≡ length (points_of image.now) }
{
    points_of(image).count()
}

// The first point with an address: its number among the points and its password.
pub fn point_of(image: &[u8], address: PointAddress) -> Option<Point>
    ensures { result ≡ point_found address image.now }
{
    let (passed, (_, password)) = points_of(image)
        .enumerate()
        .find(|(_, (own, _))| *own == address)?;
    Some(Point {
        number: passed + 1,
        password,
    })
}

// The two switch dates at a place.
#[tactic(auto, unfolding(records::specs::Records::length_of, crate::specs::Answers::dates_at, crate::specs::Parts::first_date, crate::specs::Parts::second_date), using(crate::proofs::Answers::dates_there))]
pub fn dates_at(image: &[u8], at: usize) -> Option<Dates>
    ensures { result ≡ dates_at image.now at }
{
    let r = of_kind(image, at, 3)?;
    Some(Dates {
        first: LabelA::read(&r[3..8]),
        second: LabelA::read(&r[8..13]),
    })
}

// The two switch dates of an image, which stand behind the points.
pub fn dates_of(image: &[u8]) -> Option<Dates>
    ensures { result ≡ dates_found image.now }
{
    dates_at(image, records::after(image, 1) + 9 * points(image))
}

// The value and quality of an object, 1 to 6, of the reading at a place.
#[tactic(auto, unfolding(records::specs::Records::length_of, crate::specs::Calls::value_found, crate::specs::Parts::value_of, crate::specs::Parts::quality_of))]
pub fn value_at(image: &[u8], at: usize, object: u8) -> Option<Value>
    ensures { result ≡ value_found object image.now at }
{
    let r = of_kind(image, at, 4)?;
    if !(1..=6).contains(&object) {
        return None;
    }
    let place = (object as usize - 1) * 5;
    Some(Value {
        value: octets::signed(number_at(r, 11 + place)),
        quality: r[15 + place],
    })
}

// The event at a place.
#[tactic(auto, unfolding(records::specs::Records::length_of, crate::specs::Calls::event_found, crate::specs::Parts::spa_of, crate::specs::Parts::spq_of, crate::specs::Parts::event_label), using(crate::proofs::Answers::event_there))]
pub fn event_at(image: &[u8], at: usize) -> Option<Event>
    ensures { result ≡ event_found image.now at }
{
    let r = of_kind(image, at, 5)?;
    Some(Event {
        spa: r[6],
        spq: r[7],
        label: LabelB::read(&r[8..15]),
    })
}
