#![tactic(auto)]

// Explains what the card makes of octets, line by line: labels, frames, messages, images, books of event names, a card that is given runs, and why it
// refuses a message. Text in, text out.

mod bench;
mod books;
mod cards;
mod frames;
mod held;
mod images;
mod labels;
mod lines;
mod messages;
mod reading;
mod requests;
mod voice;
mod whys;
mod words;

use bench::Bench;
use held::Held;
use reading::Reading;
use requests::{Progress, Refusal, Request, Step};
use voice::Voice;

fn complain(voice: Voice, line: u64, refusal: Refusal) {
    words::place(voice, line, refusal.column);
    words::expected(voice, refusal.matter);
    voice.new_line();
}

fn pass_on(voice: Voice, line: &[u8]) {
    voice.pass_on(lines::passed_on(line));
    voice.new_line();
}

fn carry_out(voice: Voice, bench: &mut Bench, request: Request, given: &Held) {
    bench.obey(voice, request, given);
    voice.new_line();
}

// What the line that stands first asks for.
fn next_step(
    progress: &mut Progress,
    number: u64,
    input: &Reading,
    bench: &Bench,
    given: &mut Held,
) -> Step {
    if input.is_empty() {
        progress.end()
    } else if input.is_too_long() {
        progress.long_line(number)
    } else {
        progress.line(number, input.line(), bench.profile, given)
    }
}

// Lines until the input ends. A loop must end, so its budget is the line's number: no input uses it up.
fn explain_lines(input: &mut Reading, voice: Voice, bench: &mut Bench, given: &mut Held) {
    let mut progress = Progress::Idle;
    for number in 1..u64::MAX {
        input.read_line();
        match next_step(&mut progress, number, input, bench, given) {
            Step::PassOn => pass_on(voice, input.line()),
            Step::Wait => {}
            Step::Complain(line, refusal) => complain(voice, line, refusal),
            Step::Carry(request) => carry_out(voice, bench, request, given),
            Step::End => return,
        }
        input.pass_line();
    }
}

// All that the program keeps stands here: the lines that are read, the bench, and what a request gives.
fn main(rt: HostRuntime) {
    let mut input = Reading::new(rt.stdin());
    let mut bench = Bench::new();
    let mut given = Held::new();
    explain_lines(&mut input, Voice::new(rt.stdout()), &mut bench, &mut given);
}
