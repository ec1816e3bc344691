#![tactic(auto)]
// What is chosen from an image: the n-th of the chosen records, and the next from a place on. One walk serves both.
ghost use Rattle.std.specs.Prelude.{◌≡◌, ◌&&◌, eqb};
ghost use Rattle.std.specs.Int.Signed.{le_z};
ghost use Rattle.fields.specs.working.Key.{key_at};
ghost use Rattle.choice.specs.Calls.{places_from, nth_place};
ghost use Rattle.choice.specs.working.Keys.{key_in_span, key_chosen};

use address::PointAddress;
use fields::Key;
use records::PlacesFrom;

// The records of a point and record address with an instant from first to last, both in.
#[derive(Clone, Copy)]
pub struct Span {
    pub point: PointAddress,
    pub record_address: u8,
    pub first: i64,
    pub last: i64,
}

// What is looked for: readings or events of a span.
#[derive(Clone, Copy)]
pub enum Query {
    Reading(Span),
    Event(Span),
}

fn in_time(span: Span, time: i64) -> bool
    ensures { result ≡ (le_z span.first time && le_z time span.last) }
{
    span.first <= time && time <= span.last
}

// Whether a key is of a kind, and lies in a span.
#[tactic(auto, unfolding(crate::specs::working::Keys::key_in_span))]
fn in_span(kind: u8, span: Span, key: Key) -> bool
    ensures { result ≡ (eqb key.kind kind && key_in_span span key) }
{
    key.kind == kind
        && key.point.0 == span.point.0
        && key.record_address == span.record_address
        && in_time(span, key.label.a.instant())
}

// Reads no more of the record at a place than the query asks for.
fn is_chosen(query: Query, image: &[u8], at: usize) -> bool
    ensures { result ≡ key_chosen query (key_at image.now at) }
{
    match query {
        Query::Reading(span) => in_span(4, span, fields::reading_key(image, at)),
        Query::Event(span) => in_span(5, span, fields::event_key(image, at)),
    }
}

// The one walk: n of the chosen among the records from a place on are passed, and the one behind them is found.
fn walk(image: &[u8], query: Query, from: usize, n: usize) -> Option<usize>
    ensures { result ≡ nth_place n (places_from query image.now from) }
{
    PlacesFrom {
        octets: image,
        at: from,
    }
    .filter(|at| is_chosen(query, image, *at))
    .nth(n)
}

// The place of the n-th chosen record, counted from 0.
pub fn find(image: &[u8], query: Query, n: usize) -> Option<usize>
    ensures { result ≡ nth_place n (places_from query image.now 1) }
{
    walk(image, query, 1, n)
}

// The place of the first chosen among the records from a place on, so that a caller goes on from the place after the last one.
pub fn next(image: &[u8], query: Query, from: usize) -> Option<usize>
    ensures { result ≡ nth_place 0 (places_from query image.now from) }
{
    walk(image, query, from, 0)
}
