#![tactic(auto)]

// The driving program: calls of a card from standard input, a line for each gap. second/README.md, "The driving face". It only reads
// (`stream`), steps (`driving`) and writes (`stream`), each line at once.
ghost use Rattle.std.specs.Prelude.{◌≡◌};
ghost use Rattle.input.specs.Input.{call_size};

use driving::Held;
use profile::Profile;
use std::io::Stdout;
use stream::{Input, Sizes, Texts, Window};

// A call under a profile: its letter, its length, all of it.
#[derive(Clone, Copy)]
struct CallSize(Profile);

impl Sizes for CallSize {
    const TURNS: u8 = 3;

    ghost TURNS = { 3 };

    ghost says = { λ sizes read size. size ≡ call_size sizes.0 read };

    fn size(&self, read: &[u8]) -> usize {
        input::call_size(self.0, read)
    }
}

// The image that is lent: the first so many octets of a space. It is no Vec, since the project's rule is fixed memory and no heap.
#[derive(Drop)]
struct Image<'a> {
    space: &'a mut [u8],
    count: usize,
}

impl<'a> Image<'a> {
    fn lent(&self) -> &[u8] {
        octets::part(self.space, 0, self.count)
    }

    // That of an I takes the place of the one before.
    fn follow(&mut self, profile: Profile, call: &[u8]) {
        self.count = driving::image_after(profile, self.space, self.count, call);
    }
}

// What is kept between two calls: what is held, the image, and the reply buffer.
#[derive(Drop)]
struct Bench<'a> {
    held: Held,
    image: Image<'a>,
    buffer: [u8; 300],
}

impl<'a> Bench<'a> {
    // A call is done, its text written. Answers whether another may follow.
    fn done(&mut self, output: Stdout, call: &[u8]) -> bool {
        let mut text = [0u8; 1024];
        let held = self.held;
        let left = driving::step(&mut text, held, self.image.lent(), &mut self.buffer, call);
        self.image.follow(held.profile, call);
        self.held = left.held;
        let texts = Texts {
            count: left.count,
            going: left.more,
        };
        texts.out(output, &text).going
    }
}

// The next call of the input: a letter and what follows it. Answers whether another may follow.
fn turn(from: &mut Input<'_>, output: Stdout, bench: &mut Bench<'_>) -> bool {
    let profile = bench.held.profile;
    from.read(&CallSize(profile));
    let read = from.seen();
    let size = input::call_size(profile, read);
    let more = bench.done(output, octets::part(read, 0, size));
    from.take(size);
    more
}

// Calls until the input ends. A loop must end, so it has a budget that no input uses up.
fn calls(from: &mut Input<'_>, output: Stdout, bench: &mut Bench<'_>) {
    for _ in 0..u64::MAX {
        if !turn(from, output, bench) {
            return;
        }
    }
}

fn main(rt: HostRuntime) {
    // The longest call, a P of 65,535 characters, has 131,073 octets.
    let mut space = [0u8; 196608];
    let mut image = [0u8; 65600];
    let mut from = Input {
        from: rt.stdin(),
        space: &mut space,
        window: Window::default(),
    };
    let mut bench = Bench {
        held: driving::start(),
        image: Image {
            space: &mut image,
            count: 0,
        },
        buffer: [0xAA; 300],
    };
    calls(&mut from, rt.stdout(), &mut bench);
}
