#![tactic(auto)]
// How the programs' inputs are taken apart: functions on the octets read so far, so that a program only reads, calls and writes.
ghost use Rattle.std.specs.Prelude.{◌+◌, ◌*◌, ◌≤◌, ◌≡◌, ltb, length};
ghost use Rattle.octets.specs.Choice.{when◌then◌else◌};
ghost use Rattle.input.specs.Input.{length_of2, length_of3, clock_at, head_size, image_in, clock_in, head_found, run_size, run_found, are_bits, call_size, whole_call, call_found};

use octets::Number;
use profile::Profile;

// What stands before the runs: another version, input that is cut, an unsound image, or all in order. It is no Result: `turns::start` gives each of
// the four its own text, and `head_found` of specs/ names them in one list.
#[derive(Clone, Copy)]
pub enum Head {
    Version,
    Cut,
    Image,
    Whole,
}

// What follows: no more runs, one that is cut, or one that is whole. It is no Option or Result: none of the three carries a value, `turns::turn` hands
// none on with `?` and gives each its own text, and `run_found` of specs/ names them in one list.
#[derive(Clone, Copy)]
pub enum Run {
    End,
    Cut,
    Whole,
}

// A call of the driving program: none is left, one that is cut, one that is none, or one of the eight. It is no Result: none of them carries a value,
// `driving::step` hands none on with `?` and does each by itself, and `after_call` of driving's specs/ tells of them in one list.
#[derive(Clone, Copy)]
pub enum Call {
    End,
    Cut,
    Wrong,
    Image,
    Clock,
    Room,
    Octets,
    ElevenBits,
    Characters,
    Gap,
    Why,
}

// The longest image that an I may have, and the most octets that a B may lend.
const LONGEST_IMAGE: u32 = 65_600;

const MOST_ROOM: u16 = 300;

// A 2-octet length, big-endian.
#[tactic(auto, unfolding(crate::specs::Input::length_of2))]
pub fn length_of_2(read: &[u8], at: u8) -> u16
    ensures { result ≡ length_of2 read.now at }
{
    let at = at as usize;
    u16::from_high_first([octets::octet_at(read, at), octets::octet_at(read, at + 1)])
}

// A 3-octet length, big-endian.
fn length_of_3(read: &[u8], at: u8) -> u32
    ensures { result ≡ length_of3 read.now at }
{
    let at = at as usize;
    u32::from_high_first([
        0,
        octets::octet_at(read, at),
        octets::octet_at(read, at + 1),
        octets::octet_at(read, at + 2),
    ])
}

// Seven clock octets from an index on; a clock that is cut ends with zeros.
pub fn clock_at(read: &[u8], at: usize) -> [u8; 7]
    ensures { result ≡ clock_at read.now at }
{
    let mut clock = [0; 7];
    octets::put(&mut clock, 0, octets::part(read, at, 7));
    clock
}

// How many octets the head has, as far as those read tell.
#[tactic(auto, unfolding(crate::specs::Input::head_size))]
pub fn head_size(read: &[u8]) -> usize
    ensures { result ≡ head_size read.now }
{
    if read.is_empty() || octets::octet_at(read, 0) != 1 {
        1
    } else if read.len() < 3 {
        3
    } else {
        10 + length_of_2(read, 1) as usize
    }
}

#[tactic(auto, unfolding(crate::specs::Input::image_in))]
pub fn image_in(read: &[u8]) -> &[u8]
    ensures { result.now ≡ image_in read.now }
{
    octets::part(read, 3, length_of_2(read, 1) as usize)
}

#[tactic(auto, unfolding(crate::specs::Input::clock_in))]
pub fn clock_in(read: &[u8]) -> [u8; 7]
    ensures { result ≡ clock_in read.now }
{
    clock_at(read, 3 + length_of_2(read, 1) as usize)
}

// What a head is, when no more octets come.
#[tactic(auto, unfolding(crate::specs::Input::head_found))]
pub fn judge_head(read: &[u8]) -> Head
    ensures { result ≡ head_found read.now }
{
    if read.is_empty() {
        Head::Cut
    } else if octets::octet_at(read, 0) != 1 {
        Head::Version
    } else if read.len() < head_size(read) {
        Head::Cut
    } else if !image::sound(image_in(read)) {
        Head::Image
    } else {
        Head::Whole
    }
}

#[tactic(auto, unfolding(crate::specs::Input::run_size))]
pub fn run_size(read: &[u8]) -> usize
    ensures { result ≡ run_size read.now }
{
    if read.len() < 2 {
        2
    } else {
        2 + length_of_2(read, 0) as usize
    }
}

#[tactic(auto, unfolding(crate::specs::Input::run_found))]
pub fn judge_run(read: &[u8]) -> Run
    ensures { result ≡ run_found read.now }
{
    if read.is_empty() {
        Run::End
    } else if read.len() < run_size(read) {
        Run::Cut
    } else {
        Run::Whole
    }
}

// How many octets an I has: of one whose image is too long only the length is asked for.
fn image_size(read: &[u8]) -> usize
    ensures { result ≡ (when ltb (length read.now) 4 then 4 else when ltb 65600 (length_of3 read.now 1) then 4 else 4 + length_of3 read.now 1) }
{
    if read.len() < 4 || LONGEST_IMAGE < length_of_3(read, 1) {
        4
    } else {
        4 + length_of_3(read, 1) as usize
    }
}

// How many octets a call has whose letter a 2-octet length follows, and so many times `width` octets.
fn counted_size(read: &[u8], width: usize) -> usize
    requires { width ≤ 2 }
    ensures { result ≡ (when ltb (length read.now) 3 then 3 else 3 + width * length_of2 read.now 1) }
{
    if read.len() < 3 {
        3
    } else {
        3 + width * length_of_2(read, 1) as usize
    }
}

// Whether every second octet is a parity bit.
fn are_bits(pairs: &[u8]) -> bool
    ensures { result ≡ are_bits pairs.now }
{
    pairs.chunks_exact(2).all(|pair| pair[1] < 2)
}

#[tactic(auto, unfolding(crate::specs::Input::call_size))]
pub fn call_size(profile: Profile, read: &[u8]) -> usize
    ensures { result ≡ call_size profile read.now }
{
    match octets::octet_at(read, 0) {
        b'I' => image_size(read),
        b'C' => 8,
        b'B' => 3,
        b'O' | b'W' => counted_size(read, 1),
        b'P' if matches!(profile, Profile::Eleven) => counted_size(read, 2),
        _ => 1,
    }
}

#[tactic(auto, unfolding(crate::specs::Input::whole_call))]
fn whole_call(profile: Profile, read: &[u8]) -> Call
    ensures { result ≡ whole_call profile read.now }
{
    match octets::octet_at(read, 0) {
        b'I' if length_of_3(read, 1) <= LONGEST_IMAGE => Call::Image,
        b'C' => Call::Clock,
        b'B' if length_of_2(read, 1) <= MOST_ROOM => Call::Room,
        b'O' => Call::Octets,
        b'E' => Call::ElevenBits,
        b'P' if matches!(profile, Profile::Eleven) && are_bits(octets::part(read, 3, read.len())) =>
            Call::Characters,
        b'G' => Call::Gap,
        b'W' => Call::Why,
        _ => Call::Wrong,
    }
}

#[tactic(auto, unfolding(crate::specs::Input::call_found))]
pub fn judge_call(profile: Profile, read: &[u8]) -> Call
    ensures { result ≡ call_found profile read.now }
{
    if read.is_empty() {
        Call::End
    } else if read.len() < call_size(profile, read) {
        Call::Cut
    } else {
        whole_call(profile, read)
    }
}
