#![tactic(auto)]
// The records of any octets: whether a whole record stands at a place, its kind, and the place after it.
ghost use Rattle.std.specs.Prelude.{◌≡◌, ◌≤◌, true, false, MatchOption};
ghost use Rattle.std.specs.Iterator.{YieldsFirst, item_count};
ghost use Rattle.records.specs.Records.{length_of, whole_at, record_at, kind_at, place_after};
ghost use Rattle.records.specs.Said.{places_behind};

use octets::Number;

// The length that a record of a kind has, and 0 for what is no kind: the definitions `length_of` and `kind_at` count in plain numbers, and no record is of kind 0.
#[tactic(auto, unfolding(crate::specs::Records::length_of))]
pub fn length_of(kind: u8) -> u16
    ensures { (result ≡ length_of kind) × (result ≤ 39) }
{
    match kind {
        1 => 9,
        2 => 7,
        3 => 11,
        4 => 39,
        5 => 13,
        _ => 0,
    }
}

// The whole record at a place, with the octets of its length: one of the five kinds, with that kind's length, and all of it there.
fn record_at(s: &[u8], at: usize) -> Option<&[u8]>
    ensures { MatchOption result (whole_at s.now at ≡ false) (λ whole. (whole_at s.now at ≡ true) × (whole.now ≡ record_at s.now at)) }
{
    let rest = s.get(at..)?;
    let [high, low, kind, ..] = rest else {
        return None;
    };
    let length = length_of(*kind);
    if length == 0 || u16::from_high_first([*high, *low]) != length {
        return None;
    }
    rest.get(..2 + length as usize)
}

// Whether a whole record stands at a place.
pub fn is_whole(s: &[u8], at: usize) -> bool
    ensures { result ≡ whole_at s.now at }
{
    record_at(s, at).is_some()
}

// The kind of the whole record at a place, and 0 where none stands.
pub fn kind_at(s: &[u8], at: usize) -> u8
    ensures { result ≡ kind_at s.now at }
{
    match record_at(s, at) {
        Some(whole) => whole[2],
        None => 0,
    }
}

// The place after the whole record at a place, and the place itself where none stands.
pub fn after(s: &[u8], at: usize) -> usize
    ensures { result ≡ place_after s.now at }
{
    match record_at(s, at) {
        Some(whole) => at + whole.len(),
        None => at,
    }
}

// The places of the whole records from a place on, one behind the other: what a walk over records goes by that asks them one by one.
#[derive(Clone, Copy)]
pub struct PlacesFrom<'a> {
    pub octets: &'a [u8],
    pub at: usize,
}

impl<'a> Iterator for PlacesFrom<'a> {
    type Item = usize;

    ghost next_gives = { YieldsFirst (λ s. places_behind s.octets.now s.at) };

    ghost remaining = { item_count (λ s. places_behind s.octets.now s.at) };

    fn next(&mut self) -> Option<usize> {
        let at = self.at;
        let whole = record_at(self.octets, at)?;
        self.at = at + whole.len();
        Some(at)
    }
}
