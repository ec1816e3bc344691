#![tactic(auto)]

// The printing program: reads an input, takes turn after turn of it and writes what each gives. Document 01, "The printing program"; the
// crate `turns` defines what is printed, and proves each turn.
ghost use Rattle.std.specs.Prelude.{◌≡◌};
ghost use Rattle.input.specs.Input.{head_size, run_size};

use card::Card;
use stream::{Input, Output, Sizes, Texts, Window};

// The head: its version, its image's length, all of it.
struct HeadSize;

impl Sizes for HeadSize {
    const TURNS: u8 = 3;

    ghost TURNS = { 3 };

    ghost says = { λ sizes read size. size ≡ head_size read };

    fn size(&self, read: &[u8]) -> usize {
        input::head_size(read)
    }
}

// A run: its length, all of it.
struct RunSize;

impl Sizes for RunSize {
    const TURNS: u8 = 2;

    ghost TURNS = { 2 };

    ghost says = { λ sizes read size. size ≡ run_size read };

    fn size(&self, read: &[u8]) -> usize {
        input::run_size(read)
    }
}

// What goes on between the input and the output: what is read, what is written, the text of a turn, and the card.
#[derive(Drop)]
struct Talk<'a> {
    from: Input<'a>,
    to: Output<'a>,
    text: [u8; 1024],
    card: Card,
}

impl<'a> Talk<'a> {
    // The turn of the head that stands first in what is read, and its text. Nothing of it is lent.
    fn begin(&mut self) {
        let read = self.from.seen();
        let size = input::head_size(read);
        let left = turns::start(&mut self.text, read);
        self.from.take(size);
        self.to
            .tell(octets::part(&self.text, 0, left.count), left.more);
        self.card = left.card;
    }

    // What is read begins with a run and its length, or with what is left of the input. What waits is written where the run is still to be read, so
    // that a centre that waits for an answer has it.
    fn read_run(&mut self) {
        let read = self.from.seen();
        if read.len() < input::run_size(read) {
            self.to.out();
        }
        self.from.read(&RunSize);
    }

    // The turn of the next run, and its text: it is lent the image and the clock of the head.
    fn turn(&mut self, head: &[u8], number: u64) {
        self.read_run();
        let read = self.from.seen();
        let size = input::run_size(read);
        let run = octets::part(read, 0, size);
        let image = input::image_in(head);
        let left = turns::turn(
            &mut self.text,
            self.card,
            image,
            input::clock_in(head),
            number,
            run,
        );
        self.from.take(size);
        self.to
            .tell(octets::part(&self.text, 0, left.count), left.more);
        self.card = left.card;
    }

    // Runs until the input ends. A loop must end, so its budget is the run number: no input uses it up.
    fn runs(&mut self, head: &[u8]) {
        for before in 0..u64::MAX {
            if !self.to.texts.going {
                return;
            }
            self.turn(head, before + 1);
        }
    }
}

// The head is kept apart from what is read after it, since its image and its clock are lent to every gap.
fn main(rt: HostRuntime) {
    let mut space = [0u8; 131072];
    let mut head = [0u8; 65545];
    let mut block = [0u8; 65536];
    let mut talk = Talk {
        from: Input {
            from: rt.stdin(),
            space: &mut space,
            window: Window::default(),
        },
        to: Output {
            to: rt.stdout(),
            block: &mut block,
            texts: Texts::NONE,
        },
        text: [0; 1024],
        card: Card::power_on(),
    };
    talk.from.read(&HeadSize);
    let read = talk.from.seen();
    octets::put(&mut head, 0, octets::part(read, 0, input::head_size(read)));
    talk.begin();
    talk.runs(&head);
}
