#![tactic(auto)]
// The calls of the driving program: what each does to the bench, so that the program only reads, steps and writes.
ghost use Rattle.std.specs.Prelude.{true, false, [], ◌≡◌, length, take};
ghost use Rattle.profile.specs.declared.Profile.TheVariants.{Eleven};
ghost use Rattle.card.specs.State.{with_characters, with_octets};
ghost use Rattle.card.specs.Gap.{gapped, Gapped};
ghost use Rattle.input.specs.declared.Call.TheVariants as call;
ghost use Rattle.input.specs.Input.{characters_in, call_found};
ghost use Rattle.printing.specs.Line.{Lined};
ghost use Rattle.driving.specs.Driven.{at_start, image_of, gap_step, why_text, call_step};
ghost use Rattle.driving.specs.Stepped.{bench_of, held_of, gone_line, left_by, Writes, Stepped, ImageAfter};

use card::{Card, Gone};
use frame::Judged;
use input::Call;
use profile::{Character, Profile};

// What is held between two calls: the profile, the card, the clock, how many octets of the reply buffer a gap is lent.
#[derive(Clone, Copy)]
pub struct Held {
    pub profile: Profile,
    pub card: Card,
    pub clock: [u8; 7],
    pub room: u16,
}

// What a call leaves: how many octets its text has, what is held, whether another may follow. What is held is no Option by that: `last_step` of specs/
// tells of it also where no call follows. It is no one type with the Left of `turns`: neither crate knows the other, and a text too long for its
// buffer does not occur there and is counted as none here (`Taken`, `Writes`).
#[derive(Clone, Copy)]
pub struct Left {
    pub count: usize,
    pub held: Held,
    pub more: bool,
}

// A last line, and all as it was.
fn last(out: &mut [u8], text: &[u8], held: Held) -> Left
    ensures { Writes out.old text.now held false result out.new }
{
    Left {
        count: printing::put_text(out, text),
        held,
        more: false,
    }
}

// No text, and another call may follow.
#[tactic(auto, unfolding(crate::specs::Stepped::left_by))]
fn silent(held: Held) -> Left
    ensures { result ≡ left_by [] held true }
{
    Left {
        count: 0,
        held,
        more: true,
    }
}

// Octets come in one by one, as a line delivers them.
fn octet_by_octet(card: Card, octets: &[u8]) -> Card
    ensures { result ≡ with_octets card octets.now }
{
    octets.iter().fold(card, |card, octet| card.octet(*octet))
}

// Characters come in one by one: pairs of an octet and its parity bit.
fn pair_by_pair(card: Card, pairs: &[u8]) -> Card
    ensures { result ≡ with_characters Eleven card (characters_in pairs.now) }
{
    pairs.chunks_exact(2).fold(card, |card, pair| {
        card.character(Character {
            octet: pair[0],
            parity: pair[1] == 1,
        })
    })
}

// A gap that is lent so many octets of the buffer, or as many as it has.
fn lent(card: Card, image: &[u8], clock: [u8; 7], buffer: &mut [u8], room: usize) -> Gone
    ensures { Gapped (gapped card image.now clock (length (take room buffer.old))) buffer.old result buffer.new }
{
    let most = room.min(buffer.len());
    card.gap(image, clock, &mut buffer[..most])
}

// The line of a gap, with all of the buffer.
#[tactic(auto, unfolding(crate::specs::Stepped::gone_line))]
fn line(out: &mut [u8], gone: Gone, buffer: &[u8]) -> usize
    ensures { Lined out.old (gone_line gone buffer.now) result out.new }
{
    printing::gap_line(
        out,
        gone.number,
        gone.length,
        gone.order,
        gone.time,
        gone.card.damaged,
        buffer,
    )
}

// A gap and its line.
fn gap(out: &mut [u8], held: Held, image: &[u8], buffer: &mut [u8]) -> Left
    ensures { Stepped out.old (gap_step (bench_of held image.now buffer.old)) result buffer.new out.new }
{
    let gone = lent(held.card, image, held.clock, buffer, held.room as usize);
    Left {
        count: line(out, gone, buffer),
        held: Held {
            card: gone.card,
            ..held
        },
        more: true,
    }
}

// Why the card as it is would refuse a message. Nothing is changed.
fn asked(out: &mut [u8], held: Held, image: &[u8], message: &[u8]) -> Left
    ensures { Writes out.old (why_text (bench_of held image.now []) message.now) held true result out.new }
{
    let text = why::line(why::ask(held.card, image, held.clock, message));
    Left {
        count: printing::put_text(out, text.as_slice()),
        held,
        more: true,
    }
}

// A call as it was read, or what is read of it when no more octets come: its text, and what is held after it. A text that does not fit is not
// written. The image is the one that is lent; that of an I is put into its place by `image_after`.
pub fn step(out: &mut [u8], held: Held, image: &[u8], buffer: &mut [u8], call: &[u8]) -> Left
    ensures { Stepped out.old (call_step (bench_of held image.now buffer.old) call.now) result buffer.new
        out.new }
{
    match input::judge_call(held.profile, call) {
        Call::End => last(out, b"", held),
        Call::Cut => last(out, b"cut\n", held),
        Call::Wrong => last(out, b"call\n", held),
        Call::Image => silent(held),
        Call::Clock => silent(Held {
            clock: input::clock_at(call, 1),
            ..held
        }),
        Call::Room => silent(Held {
            room: input::length_of_2(call, 1),
            ..held
        }),
        // With eleven bits each octet has its right parity bit, and is taken as it is without.
        Call::Octets => silent(Held {
            card: octet_by_octet(held.card, octets::part(call, 3, call.len())),
            ..held
        }),
        Call::ElevenBits => silent(Held {
            profile: Profile::Eleven,
            card: Card::power_on(),
            ..held
        }),
        Call::Characters => silent(Held {
            card: pair_by_pair(held.card, octets::part(call, 3, call.len())),
            ..held
        }),
        Call::Gap => gap(out, held, image, buffer),
        Call::Why => asked(out, held, image, octets::part(call, 3, call.len())),
    }
}

// Puts an image into its space, if it fits.
fn stand(space: &mut [u8], had: usize, image: &[u8]) -> usize
    ensures { ImageAfter call.Image space.old had image.now result space.new }
{
    if octets::put(space, 0, image) {
        image.len()
    } else {
        had
    }
}

// The image lent after a call: how many of its space's octets count. That of an I takes the place of the one before.
pub fn image_after(profile: Profile, space: &mut [u8], had: usize, call: &[u8]) -> usize
    ensures { ImageAfter (call_found profile call.now) space.old had (image_of call.now) result space.new }
{
    match input::judge_call(profile, call) {
        Call::Image => stand(space, had, octets::part(call, 4, call.len())),
        _ => had,
    }
}

// What is held at the start.
#[tactic(auto, unfolding(crate::specs::Driven::at_start, crate::specs::Stepped::held_of))]
pub fn start() -> Held
    ensures { result ≡ held_of at_start }
{
    Held {
        profile: Profile::Ten,
        card: Card::power_on(),
        clock: [0; 7],
        room: Judged::LONGEST as u16,
    }
}
