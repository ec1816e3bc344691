#![tactic(auto)]
// Why a label is not valid, and why an image is not sound: the first thing that is wrong, by name and by place. For a tool that explains
// captures; each call looks again at what it needs, since clarity counts here and speed does not.
ghost use Rattle.std.specs.Prelude.{◌≡◌, true, not, ◌&&◌, [], ◌≤◌, ◌<◌, leb, eqb, drop};
ghost use Rattle.label.specs.Calendar.{leap, month_length};
ghost use Rattle.records.specs.Records.{whole_at, record_at};
ghost use Rattle.fields.specs.working.Key.{key_of};
ghost use Rattle.fields.specs.Answers.{records_of};
ghost use Rattle.faults.specs.Labels.{time_fault, label_fault_a, label_fault_b};
ghost use Rattle.faults.specs.Images.{of_whole, broken_rule, fault_from, image_fault};
ghost use Rattle.faults.specs.working.Walking.{unless, own_rule, dates_rule, point_rule, further, fault_there, Room, FollowsThere, PlaceThere, RuleThere, EndThere};

use fields::{Dates, Key};
use label::{DateTime, LabelA, LabelB};
use octets::Number;

// The part of a label that is wrong, in the order in which they are looked at; those of a label b's front come before the rest.
#[derive(Clone, Copy)]
pub enum LabelFault {
    Iv,
    Tis,
    HourReserved,
    EtiPti,
    YearReserved,
    Year,
    Month,
    Day,
    Hour,
    Minute,
    Second,
    Millisecond,
}

// The rule that is broken: of the whole image; of a record, given those before it; of octets that are no whole record; of the records' end.
#[derive(Clone, Copy)]
pub enum ImageRule {
    TooLong,
    Version,
    FirstKind,
    PointZero,
    FirstDate,
    SecondDate,
    ReadingAddress,
    ReadingLabel,
    EventAddress,
    EventLabel,
    OutOfOrder,
    NinthPoint,
    NoPointBefore,
    UnknownPoint,
    Kind,
    Length,
    Cut,
    NoRecord,
    NoPoint,
}

// A record's number, from 1 on, and the place of its first octet.
#[derive(Clone, Copy)]
pub struct RecordPlace {
    pub number: usize,
    pub at: usize,
}

// What is wrong with an image: the rule that is broken, and the record at fault; none where the image as a whole is.
#[derive(Clone, Copy)]
pub struct ImageFault {
    pub rule: ImageRule,
    pub place: Option<RecordPlace>,
}

// Whether the month of a date has its day. The label at midnight is asked, since all else in it is right.
#[tactic(auto, using(crate::proofs::Parts::day_alone, crate::proofs::Parts::day_late))]
fn has_day(time: DateTime) -> bool
    requires { (time.year ≤ 99) × (1 ≤ time.month) × (time.month ≤ 12) }
    ensures { result ≡ (leb 1 time.day && leb time.day (month_length (leap time.year) time.month)) }
{
    let midnight = LabelA {
        minute: 0,
        hour: 0,
        day: time.day,
        month: time.month,
        year: time.year,
    };
    time.day <= 31 && midnight.is_valid()
}

#[tactic(auto, unfolding(crate::specs::Labels::time_fault))]
fn time_fault(time: DateTime) -> Option<LabelFault>
    ensures { result ≡ time_fault time }
{
    if 99 < time.year {
        Some(LabelFault::Year)
    } else if time.month < 1 || 12 < time.month {
        Some(LabelFault::Month)
    } else if !has_day(time) {
        Some(LabelFault::Day)
    } else if 23 < time.hour {
        Some(LabelFault::Hour)
    } else if 59 < time.minute {
        Some(LabelFault::Minute)
    } else {
        None
    }
}

// The first part of a label a that is wrong. A bit is looked at by division, as its definition looks at it.
#[tactic(auto, unfolding(crate::specs::Labels::label_fault_a))]
pub fn of_label_a(label: LabelA) -> Option<LabelFault>
    ensures { result ≡ label_fault_a label }
{
    if label.minute / 128 % 2 != 0 {
        Some(LabelFault::Iv)
    } else if label.minute / 64 % 2 != 0 {
        Some(LabelFault::Tis)
    } else if label.hour / 32 % 4 != 0 {
        Some(LabelFault::HourReserved)
    } else if label.month / 16 % 16 != 0 {
        Some(LabelFault::EtiPti)
    } else if label.year / 128 % 2 != 0 {
        Some(LabelFault::YearReserved)
    } else {
        time_fault(label.date_time())
    }
}

// The first part of a label b that is wrong: second and millisecond, then its label a.
#[tactic(auto, unfolding(crate::specs::Labels::label_fault_b))]
pub fn of_label_b(label: LabelB) -> Option<LabelFault>
    ensures { result ≡ label_fault_b label }
{
    if 59 < label.second() {
        Some(LabelFault::Second)
    } else if 999 < label.millisecond() {
        Some(LabelFault::Millisecond)
    } else {
        of_label_a(label.a)
    }
}

// A fault of the image as a whole.
fn of_whole(rule: ImageRule) -> Option<ImageFault>
    ensures { result ≡ of_whole rule }
{
    Some(ImageFault { rule, place: None })
}

// A rule that is broken unless something holds.
fn unless(holds: bool, rule: ImageRule) -> Option<ImageRule>
    ensures { result ≡ unless holds rule }
{
    if holds { None } else { Some(rule) }
}

#[tactic(auto, unfolding(crate::specs::working::Walking::dates_rule))]
fn dates_rule(found: Option<Dates>) -> Option<ImageRule>
    ensures { result ≡ dates_rule found }
{
    let dates = found?;
    unless(dates.first.is_valid(), ImageRule::FirstDate).or(unless(
        dates.second.is_valid(),
        ImageRule::SecondDate,
    ))
}

// The record at a place by itself. Here and in the two below that ask it the key of the record is given: it is read once a record, and where each of the
// three read it again, an image took a fifth longer.
fn own_rule(image: &[u8], at: usize, key: Key) -> Option<ImageRule>
    requires { (whole_at image.now at ≡ true) × (key ≡ key_of (record_at image.now at)) }
    ensures { result ≡ own_rule (record_at image.now at) }
{
    match key.kind {
        2 => unless(key.point.0 != 0, ImageRule::PointZero),
        3 => dates_rule(fields::dates_at(image, at)),
        4 => unless(
            image::is_reading_record(key.record_address),
            ImageRule::ReadingAddress,
        )
        .or(unless(key.label.a.is_valid(), ImageRule::ReadingLabel)),
        5 => unless(
            image::is_event_record(key.record_address),
            ImageRule::EventAddress,
        )
        .or(unless(key.label.is_valid(), ImageRule::EventLabel)),
        _ => None,
    }
}

// By the number of points before a record of a kind, and whether the point that it names is known.
#[tactic(auto, unfolding(crate::specs::working::Walking::point_rule))]
fn point_rule(kind: u8, points: usize, known: bool) -> Option<ImageRule>
    ensures { result ≡ point_rule kind points known }
{
    if kind == 2 {
        unless(points < 8, ImageRule::NinthPoint)
    } else if 3 <= kind && points == 0 {
        Some(ImageRule::NoPointBefore)
    } else {
        unless(kind < 4 || known, ImageRule::UnknownPoint)
    }
}

// Where a walk over the records stands: how many are passed, how many of them are points, where the last of them stands, and the place behind it.
// The image is lent beside it, as the definitions have it. That a whole record stands there is a clause and no type's: the walk stands at the
// records' end too, and a type for the rest of its way would be built at one place, to be asked once.
#[derive(Clone, Copy)]
struct Walk {
    passed: usize,
    points: usize,
    last: usize,
    at: usize,
}

impl Walk {
    // A fault of the record where the walk stands.
    fn fault(self, rule: ImageRule) -> ImageFault
        requires { self.passed < self.at }
        ensures { result ≡ fault_there self rule }
    {
        ImageFault {
            rule,
            place: Some(RecordPlace {
                number: self.passed + 1,
                at: self.at,
            }),
        }
    }

    // The walk one record further.
    #[tactic(auto, unfolding(crate::specs::working::Walking::further))]
    fn further(self, image: &[u8]) -> Walk
        requires { Room image.now self }
        ensures { result ≡ further image.now self }
    {
        let next = Walk {
            passed: self.passed + 1,
            last: self.at,
            at: records::after(image, self.at),
            ..self
        };
        if records::kind_at(image, self.at) == 2 {
            Walk {
                points: self.points + 1,
                ..next
            }
        } else {
            next
        }
    }
}

// The record where the walk stands, in order behind the last one; the first has none before it.
fn does_follow(image: &[u8], walk: Walk, key: Key) -> bool
    requires { (whole_at image.now walk.at ≡ true) × (key ≡ key_of (record_at image.now walk.at)) }
    ensures { FollowsThere image.now walk result }
{
    walk.passed == 0 || image::in_order(fields::key_at(image, walk.last), key)
}

// The same record by all that stands before it.
fn place_rule(image: &[u8], walk: Walk, key: Key) -> Option<ImageRule>
    requires { (whole_at image.now walk.at ≡ true) × (key ≡ key_of (record_at image.now walk.at)) }
    ensures { PlaceThere image.now walk result }
{
    if does_follow(image, walk, key) {
        let known = fields::point_of(image, key.point).is_some();
        point_rule(key.kind, walk.points, known)
    } else {
        Some(ImageRule::OutOfOrder)
    }
}

// The first record is of kind 1.
fn lacks_head(passed: usize, kind: u8) -> bool
    ensures { result ≡ (eqb passed 0 && not (eqb kind 1)) }
{
    passed == 0 && kind != 1
}

// The rule that the record where the walk stands breaks, if any.
fn rule_there(image: &[u8], walk: Walk) -> Option<ImageRule>
    requires { whole_at image.now walk.at ≡ true }
    ensures { RuleThere image.now walk result }
{
    let key = fields::key_at(image, walk.at);
    if lacks_head(walk.passed, key.kind) {
        Some(ImageRule::FirstKind)
    } else {
        match own_rule(image, walk.at, key) {
            Some(rule) => Some(rule),
            None => place_rule(image, walk, key),
        }
    }
}

// Octets that are no whole record: what is wrong with them.
fn broken_rule(image: &[u8], at: usize) -> ImageRule
    ensures { result ≡ broken_rule (drop at image.now) }
{
    let [high, low, kind] = octets::part(image, at, 3) else {
        return ImageRule::Cut;
    };
    let length = records::length_of(*kind);
    if length == 0 {
        ImageRule::Kind
    } else if u16::from_high_first([*high, *low]) != length {
        ImageRule::Length
    } else {
        ImageRule::Cut
    }
}

// The end of the whole records: what is left there, or what is missing.
fn at_end(image: &[u8], walk: Walk) -> Option<ImageFault>
    requires { walk.passed < walk.at }
    ensures { EndThere image.now walk result }
{
    if walk.at < image.len() {
        Some(walk.fault(broken_rule(image, walk.at)))
    } else if walk.passed == 0 {
        of_whole(ImageRule::NoRecord)
    } else if walk.points == 0 {
        of_whole(ImageRule::NoPoint)
    } else {
        None
    }
}

// The walk over the records. A loop, since the end of the records needs the place where the walk came to.
fn first_fault(image: &[u8]) -> Option<ImageFault>
    ensures { result ≡ fault_from image.now [] (records_of image.now) }
{
    let mut walk = Walk {
        passed: 0,
        points: 0,
        last: 0,
        at: 1,
    };
    while records::is_whole(image, walk.at) {
        if let Some(rule) = rule_there(image, walk) {
            return Some(walk.fault(rule));
        }
        walk = walk.further(image);
    }
    at_end(image, walk)
}

// The first fault of an image: the record, its place and the rule that it breaks.
#[tactic(auto, unfolding(crate::specs::Images::image_fault))]
pub fn of_image(image: &[u8]) -> Option<ImageFault>
    ensures { result ≡ image_fault image.now }
{
    if 65535 < image.len() {
        of_whole(ImageRule::TooLong)
    } else if octets::octet_at(image, 0) != 1 {
        of_whole(ImageRule::Version)
    } else {
        first_fault(image)
    }
}
