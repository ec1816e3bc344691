#![tactic(auto)]
// Whether an image is sound. The records are walked once, with constant work a record. Readings and events stand in long runs of one
// kind; a walk over a run keeps the instant of the last record, so that each label is judged once, and looks a point up among the
// first records only where it differs from the last record's.
ghost use Rattle.std.specs.Prelude.{◌≡◌, ℕ, ◌+◌, true, not, ◌&&◌, MatchOption, false};
ghost use Rattle.label.specs.Label.{instant, before_b};
ghost use Rattle.label.specs.Calls.{moment_of};
ghost use Rattle.records.specs.Records.{length_of, whole_at, record_at};
ghost use Rattle.fields.specs.working.Key.{key, no_label, key_of};
ghost use Rattle.fields.specs.Answers.{points_of};
ghost use Rattle.image.specs.Image.{reading_record, event_record, right, sound_image};
ghost use Rattle.image.specs.working.Keys.{valid_dates, by_key, key_before, keys_in_order, fronted, orderly, fits, left, key_known, key_fits, Passed, Behind, Onward, run_key, kind_address, kind_valid, kind_follows, instant_where, Runs, of_readings, of_events, reading_takes, event_takes};

use address::PointAddress;
use fields::{Dates, Key};
use label::{LabelA, LabelB};

// Record addresses of readings: periods and totals.
#[tactic(auto, unfolding(crate::specs::Image::reading_record))]
pub fn is_reading_record(address: u8) -> bool
    ensures { result ≡ reading_record address }
{
    matches!(address, 11 | 21)
}

// Record addresses of events.
#[tactic(auto, unfolding(crate::specs::Image::event_record))]
pub fn is_event_record(address: u8) -> bool
    ensures { result ≡ event_record address }
{
    matches!(address, 52..=55 | 128 | 129)
}

#[tactic(auto, unfolding(crate::specs::working::Keys::valid_dates))]
fn are_valid(found: Option<Dates>) -> bool
    ensures { result ≡ valid_dates found }
{
    found.is_some_and(|dates| dates.first.is_valid() && dates.second.is_valid())
}

// By point, record address and label; no PartialOrd, as with labels.
#[tactic(auto, unfolding(crate::specs::working::Keys::key_before, crate::specs::working::Keys::by_key))]
fn is_before(mine: Key, other: Key) -> bool
    ensures { result ≡ key_before mine other }
{
    if mine.point != other.point {
        mine.point.0 < other.point.0
    } else if mine.record_address != other.record_address {
        mine.record_address < other.record_address
    } else {
        mine.label.is_before(other.label)
    }
}

// Whether a record may stand right behind another: kinds rise; points and readings rise strictly, events may be equal.
#[tactic(auto, unfolding(crate::specs::working::Keys::keys_in_order))]
pub fn in_order(front: Key, behind: Key) -> bool
    ensures { result ≡ keys_in_order front behind }
{
    match front.kind {
        kind if kind != behind.kind => kind < behind.kind,
        2 => front.point.0 < behind.point.0,
        4 => is_before(front, behind),
        5 => !is_before(behind, front),
        _ => false,
    }
}

// The key that stands before every record. It is that of `fields::other_key` at kind 0, which is private there: to hand it out would be one promise more.
fn before_all() -> Key
    ensures { result ≡ key 0 0 0 no_label }
{
    Key {
        kind: 0,
        point: PointAddress(0),
        record_address: 0,
        label: LabelB {
            low: 0,
            high: 0,
            a: LabelA {
                minute: 0,
                hour: 0,
                day: 0,
                month: 0,
                year: 0,
            },
        },
    }
}

// The point of a reading or an event is among the points.
#[tactic(auto, using(crate::proofs::Known::known_low, crate::proofs::Known::known_high))]
fn is_known(image: &[u8], key: Key) -> bool
    ensures { result ≡ key_known (points_of image.now) key }
{
    key.kind < 4 || fields::point_of(image, key.point).is_some()
}

// A whole record of an image, by its place and its key.
#[derive(Clone, Copy)]
struct Standing<'a> {
    image: &'a [u8],
    at: usize,
    key: Key,
    ghost whole: { whole_at image.now at ≡ true },
    ghost own_key: { key ≡ key_of (record_at image.now at) },
}

impl<'a> Standing<'a> {
    // By itself: a point's address, a record address, valid labels.
    fn is_right(&self) -> bool
        ensures { result ≡ right (record_at self.now.image.now self.now.at) }
    {
        let key = self.key;
        match key.kind {
            2 => 1 <= key.point.0,
            3 => are_valid(fields::dates_at(self.image, self.at)),
            4 => is_reading_record(key.record_address) && key.label.a.is_valid(),
            5 => is_event_record(key.record_address) && key.label.is_valid(),
            _ => true,
        }
    }

    // Behind the last one: right by itself, in order, its point known.
    fn fits_behind(&self, last: Key) -> bool
        ensures { result ≡ fits (points_of self.now.image.now) last (record_at self.now.image.now self.now.at) }
    {
        self.is_right() && in_order(last, self.key) && is_known(self.image, self.key)
    }
}

// A kind whose records stand in runs: readings and events. The walk over a run is compiled for each of the two, since one that asks for the
// kind at each record is slower.
trait Series {
    // How many octets a record takes.
    const OCTETS: usize;

    ghost OCTETS: { ℕ };

    ghost kind: { ℕ };

    // The key of the record of this kind at a place, if one stands there.
    fn key_at(image: &[u8], at: usize) -> Option<Key>
        ensures { result ≡ run_key kind image.now at };

    fn has_address(address: u8) -> bool
        ensures { result ≡ kind_address kind address };

    // The instant of a label that is valid for a record of this kind.
    fn moment(label: LabelB) -> Option<i64>
        ensures { result ≡ moment_of (kind_valid kind label) label.a };

    // Whether a label may stand behind the last one, given the instants of both.
    fn may_follow(last: LabelB, minute: i64, label: LabelB, now: i64) -> bool
        requires { (minute ≡ instant last.a) × (now ≡ instant label.a) }
        ensures { result ≡ kind_follows kind last label };

    ghost runs: { Runs kind };

    ghost takes: { OCTETS ≡ 2 + length_of kind };
}

struct Readings;

struct Events;

impl Series for Readings {
    const OCTETS: usize = 41;

    ghost OCTETS = { 41 };

    ghost kind = { 4 };

    #[tactic(auto, using(crate::proofs::Runs::read_key))]
    fn key_at(image: &[u8], at: usize) -> Option<Key> {
        let key = fields::reading_key(image, at);
        (key.kind == 4).then_some(key)
    }

    fn has_address(address: u8) -> bool {
        is_reading_record(address)
    }

    fn moment(label: LabelB) -> Option<i64> {
        label.a.moment()
    }

    // Readings rise strictly.
    fn may_follow(last: LabelB, minute: i64, label: LabelB, now: i64) -> bool {
        minute < now
    }

    ghost runs = { of_readings };

    ghost takes = { reading_takes };
}

impl Series for Events {
    const OCTETS: usize = 15;

    ghost OCTETS = { 15 };

    ghost kind = { 5 };

    #[tactic(auto, using(crate::proofs::Runs::read_key))]
    fn key_at(image: &[u8], at: usize) -> Option<Key> {
        let key = fields::event_key(image, at);
        (key.kind == 5).then_some(key)
    }

    fn has_address(address: u8) -> bool {
        is_event_record(address)
    }

    fn moment(label: LabelB) -> Option<i64> {
        label.moment().ok()
    }

    // Events may be equal: in one minute the milliseconds decide. No pairs are compared, so that in another minute they are not worked out.
    fn may_follow(last: LabelB, minute: i64, label: LabelB, now: i64) -> bool {
        now > minute || now == minute && last.in_minute() <= label.in_minute()
    }

    ghost runs = { of_events };

    ghost takes = { event_takes };
}

// A reading or an event behind the last one of its kind: in order, where `later` is what the labels say, and its point known. The
// last one's point is known, so that only another is looked up.
fn goes_on(image: &[u8], last: Key, key: Key, later: bool) -> bool
    requires { (last.kind ≡ key.kind) × (key_known (points_of image.now) last ≡ true) }
    ensures { result ≡ (by_key last key later && key_known (points_of image.now) key) }
{
    if last.point != key.point {
        last.point.0 < key.point.0 && is_known(image, key)
    } else if last.record_address != key.record_address {
        last.record_address < key.record_address
    } else {
        later
    }
}

// A record of a run behind the last one, whose instant is known: its own instant, where it fits.
fn moment_behind<S: Series>(image: &[u8], last: Key, minute: i64, key: Key) -> Option<i64>
    requires { Behind S.kind image.now last minute key }
    ensures { result ≡ instant_where (key_fits (points_of image.now) last key) key }
{
    let now = S::moment(key.label)?;
    let later = S::may_follow(last.label, minute, key.label, now);
    if S::has_address(key.record_address) && goes_on(image, last, key, later) {
        Some(now)
    } else {
        None
    }
}

// How far a walk over the records has come: the place behind the last one, and its key.
#[derive(Clone, Copy)]
struct Walk {
    at: usize,
    last: Key,
}

// The walk past the run that goes on behind a record of its kind, or none where a record of the run does not fit. The
// next one stands behind the octets of its kind: an iterator over places would read each length again.
fn past_run<S: Series>(image: &[u8], from: Walk) -> Option<Walk>
    requires { (from.last.kind ≡ S.kind) × Passed image.now from.last }
    ensures { MatchOption result (left image.now from.at from.last ≡ false) (λ walk. Onward image.now from walk) }
{
    let mut walk = from;
    let mut minute = from.last.label.a.instant();
    while let Some(key) = S::key_at(image, walk.at) {
        minute = moment_behind::<S>(image, walk.last, minute, key)?;
        walk = Walk {
            at: walk.at + S::OCTETS,
            last: key,
        };
    }
    Some(walk)
}

// The walk past the run, if any, that goes on behind a record.
fn past_any_run(image: &[u8], from: Walk) -> Option<Walk>
    requires { Passed image.now from.last }
    ensures { MatchOption result (left image.now from.at from.last ≡ false) (λ walk. Onward image.now from walk) }
{
    match from.last.kind {
        4 => past_run::<Readings>(image, from),
        5 => past_run::<Events>(image, from),
        _ => Some(from),
    }
}

// The walk: each record right, neighbours in order, each point named among the points, records to the exact end. A loop, since a step goes
// past a run.
fn is_orderly(image: &[u8]) -> bool
    ensures { result ≡ orderly image.now }
{
    let mut walk = Walk {
        at: 1,
        last: before_all(),
    };
    let mut next = records::after(image, walk.at);
    while walk.at < next {
        let here = Standing {
            image,
            at: walk.at,
            key: fields::key_at(image, walk.at),
        };
        if !here.fits_behind(walk.last) {
            return false;
        }
        let behind = Walk {
            at: next,
            last: here.key,
        };
        let Some(on) = past_any_run(image, behind) else {
            return false;
        };
        walk = on;
        next = records::after(image, walk.at);
    }
    walk.at == image.len()
}

// What is asked before the walk: the size, version 1, a first record of kind 1, and 1 to 8 points behind it, so that the walk looks a
// point up among eight at most.
#[tactic(auto, unfolding(crate::specs::working::Keys::fronted))]
fn has_front(image: &[u8]) -> bool
    ensures { result ≡ fronted image.now }
{
    image.len() <= 65535
        && octets::octet_at(image, 0) == 1
        && records::kind_at(image, 1) == 1
        && (1..=8).contains(&fields::points(image))
}

// Whether an image is sound: at most 65,535 octets, version 1, and records as document 01 has them, to the exact end.
pub fn sound(image: &[u8]) -> bool
    ensures { result ≡ sound_image image.now }
{
    has_front(image) && is_orderly(image)
}
