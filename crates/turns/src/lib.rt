#![tactic(auto)]
// The turns of the printing program: the head, then run after run. Each writes its text into a lent buffer, so that the program only reads,
// steps and writes.
ghost use Rattle.std.specs.Prelude.{◌≤◌, [], ◌≡◌, length, take};
ghost use Rattle.printing.specs.Line.{line_of, Lined};
ghost use Rattle.card.specs.State.{card_at_power_on};
ghost use Rattle.turns.specs.Printed.{last_turn, head_turn, gap_turn, run_turn};
ghost use Rattle.turns.specs.Turned.{left_by, Taken, Turned};

use card::{Card, Gone};
use frame::Judged;
use input::{Head, Run};

// What a turn leaves: how many octets its text has, the card after it, whether a run may follow. The card is no Option by that: `last_turn` of specs/
// tells of it also where no run follows. It is no one type with the Left of `driving`: neither crate knows the other, and a text too long for its
// buffer is counted as none there and does not occur here (`Writes`, `Taken`).
#[derive(Clone, Copy)]
pub struct Left {
    pub count: usize,
    pub card: Card,
    pub more: bool,
}

impl Left {
    // Room for every text. A buffer with less is short, and refused before anything is done, so that the card before a run need not be kept.
    pub const ROOM: usize = 1024;
}

// A short buffer: no text, the card as it was, and no run follows.
#[tactic(auto, unfolding(crate::specs::Turned::left_by))]
fn refused(card: Card) -> Left
    ensures { result ≡ left_by (last_turn [] card) }
{
    Left {
        count: 0,
        card,
        more: false,
    }
}

// A last text, and the card as it was.
fn said(out: &mut [u8], text: &[u8], card: Card) -> Left
    requires { (1024 ≤ length out.old) × (length text.now ≤ 1024) }
    ensures { Taken out.old (last_turn text.now card) result out.new }
{
    Left {
        count: printing::put_text(out, text),
        card,
        more: false,
    }
}

// The head, or what is read of it when no more octets come: its text, and the card at power-on. A short buffer is refused, and no run
// follows.
pub fn start(out: &mut [u8], read: &[u8]) -> Left
    ensures { Turned out.old card_at_power_on (head_turn read.now) result out.new }
{
    let card = Card::power_on();
    if out.len() < Left::ROOM {
        refused(card)
    } else {
        match input::judge_head(read) {
            Head::Version => said(out, b"version\n", card),
            Head::Cut => said(out, b"cut\n", card),
            Head::Image => said(out, b"image\n", card),
            Head::Whole => Left {
                count: 0,
                card,
                more: true,
            },
        }
    }
}

// The line of a gap: the reply stands in the first octets of its buffer.
fn line(out: &mut [u8], number: u64, gone: Gone, buffer: &[u8]) -> usize
    ensures { Lined out.old (line_of number gone.number gone.order (take gone.length buffer.now)) result out.new }
{
    let reply = octets::part(buffer, 0, gone.length as usize);
    printing::line(out, number, gone.number, gone.order, reply)
}

// A gap and its line.
fn answer(out: &mut [u8], card: Card, image: &[u8], clock: [u8; 7], number: u64) -> Left
    requires { 1024 ≤ length out.old }
    ensures { Taken out.old (gap_turn card image.now clock number) result out.new }
{
    let mut buffer = [0u8; Judged::LONGEST];
    let gone = card.gap(image, clock, &mut buffer);
    Left {
        count: line(out, number, gone, &buffer),
        card: gone.card,
        more: true,
    }
}

// A run with its length, as it was read: its text, and the card after it. A short buffer is refused: the card is as it was, and no run
// follows.
pub fn turn(
    out: &mut [u8],
    card: Card,
    image: &[u8],
    clock: [u8; 7],
    number: u64,
    run: &[u8],
) -> Left
    ensures { Turned out.old card (run_turn card image.now clock number run.now) result out.new }
{
    if out.len() < Left::ROOM {
        refused(card)
    } else {
        match input::judge_run(run) {
            Run::End => said(out, b"", card),
            Run::Cut => said(out, b"cut\n", card),
            Run::Whole => {
                let card = card.octets(octets::part(run, 2, run.len()));
                answer(out, card, image, clock, number)
            }
        }
    }
}
