#![tactic(auto)]

// Octets from standard input and text to standard output, both by the block. One read brings what is there, which may be many runs; none is
// made while enough octets stand in the window, and none waits for more than is asked for. Texts wait in a block until it is full, or until
// the program is about to read.
ghost use Rattle.std.specs.Prelude.{◌+◌, ◌-◌, ◌≤◌, ℕ, List, false, true, ◌≡◌, length, take, drop};
ghost use Rattle.std.specs.Io.KnownBytes.{Appends};
ghost use Rattle.octets.specs.Over.{laid_in, Does};
ghost use Rattle.stream.specs.Texts.{Out, AddedFirst, Added, Told};
ghost use Rattle.stream.specs.Window.{count_of, seen_in, taken_of, has_in, Kept, Filled, FilledAs};

use std::fmt;
use std::io::{Read, Stdin, Stdout, Write};

// How many octets what stands first in an input has, as far as those read tell: of the first ones it may only be known how many are needed to
// know more.
pub trait Sizes {
    // How often it is asked, from no octets on, until it has said all.
    const TURNS: u8;

    ghost TURNS: { ℕ };

    // What it may say of some octets.
    ghost says: { Self → List ℕ → ℕ → Type 0 };

    fn size(&self, read: &[u8]) -> usize
        ensures { says self.now read.now result };
}

// What has been read and not taken yet: the octets of a space from one index to another.
#[derive(Clone, Copy, Default)]
pub struct Window {
    pub from: usize,
    pub to: usize,
}

impl Window {
    fn count(self) -> usize
        ensures { result ≡ count_of self }
    {
        self.to.saturating_sub(self.from)
    }

    // The octets in the window, or as many of them as the space has.
    pub fn seen(self, space: &[u8]) -> &[u8]
        ensures { result.now ≡ seen_in space.now self }
    {
        octets::part(space, self.from, self.count())
    }

    // So many octets are taken, or as many as there are.
    pub fn taken(self, many: usize) -> Window
        ensures { result ≡ taken_of self many }
    {
        Window {
            from: self.from + many.min(self.count()),
            ..self
        }
    }

    // The octets in the window are moved to the front. Answers how many they are.
    fn to_front(self, space: &mut [u8]) -> usize
        ensures { Does (length (seen_in space.old self)) (laid_in space.old (seen_in space.old self)) result space.new }
    {
        let from = self.from.min(space.len());
        let have = self.seen(space).len();
        space.copy_within(from..from + have, 0);
        have
    }

    // Whether so many octets stand in a window of the space.
    fn has(self, space: &[u8], size: usize) -> bool
        ensures { result ≡ has_in space.now self size }
    {
        self.to <= space.len() && self.from <= self.to && size <= self.to - self.from
    }

    // Reads on until so many octets stand in the window, the space is full, or the input ends. What comes in depends on the world outside, so
    // this says what holds whatever is read: what has not been taken stands first, and the window lies in the space; and where so many stand
    // there already, window and space are as they were. Where too few stand, one that reads nothing is allowed: the input may have ended.
    pub fn filled(self, input: Stdin, space: &mut [u8], size: usize) -> Window
        ensures { Filled space.old self size result space.new }
    {
        if self.has(space, size) {
            return self;
        }
        let have = self.to_front(space);
        Window {
            from: 0,
            to: read_on(input, space, have, size),
        }
    }

    // Reads on until as many octets stand in the window as the sizes say of those that stand there, the space is full, or the input ends: where
    // not even the first ones stand there it reads for them, and then once more each time that the sizes are asked anew. What is promised is
    // that of `filled` at the first size said.
    pub fn read<S: Sizes>(self, input: Stdin, space: &mut [u8], sizes: &S) -> Window
        ensures { FilledAs (S.says sizes.now) space.old self result space.new }
    {
        let mut now = self;
        if now.seen(space).len() < sizes.size(b"") {
            now = now.filled(input, space, sizes.size(now.seen(space)));
        }
        for _ in 2..S::TURNS {
            now = now.filled(input, space, sizes.size(now.seen(space)));
        }
        now.filled(input, space, sizes.size(now.seen(space)))
    }
}

// One read behind the first so many octets. One that fails brings none.
fn read_behind(mut input: Stdin, space: &mut [u8], have: usize) -> usize
    requires { have ≤ length space.old }
    ensures { (have + result ≤ length space.old) × Kept have space.old space.new }
{
    input.read(&mut space[have..]).unwrap_or(0)
}

// Reads behind the first so many octets, until `size` stand there, the space is full, or the input ends. What it counts is what each read brings, and no
// index.
fn read_on(input: Stdin, space: &mut [u8], had: usize, size: usize) -> usize
    requires { had ≤ length space.old }
    ensures { (had ≤ result) × (result ≤ length space.old) × Kept had space.old space.new }
{
    let mut have = had;
    while have < space.len() && have < size {
        let more = read_behind(input, space, have);
        if more == 0 {
            return have;
        }
        have += more;
    }
    have
}

// Texts that wait to be written: how many octets of a block they have, and whether everything before them could be written. The flag stands
// beside the count and not around it: a text is laid into the block once nothing goes on too (`Told`, `left_so`).
#[derive(Clone, Copy)]
pub struct Texts {
    pub count: usize,
    pub going: bool,
}

// Writes a text, and answers whether it could. Where it could, what the writer holds, if that is known, has the text behind it.
fn write_whole<W: Write>(to: &mut W, text: &[u8]) -> bool
    ensures { result ≡ true → Appends (W.contents to.old) (W.contents to.new) text.now }
{
    to.write_all(text).is_ok()
}

// Writes a text to standard output or error, and answers whether it could. Nothing can be promised: no contract speaks of the world outside, and
// whether it could be written is the world's answer.
pub fn say<W: Write + Drop>(mut to: W, text: &[u8]) -> bool
    ensures { Unit {0} }
{
    write_whole(&mut to, text)
}

// Writes a text piece by piece, as it is put together. A piece that cannot be written is lost, and those behind it are still tried: for programs that
// have no one to tell.
#[derive(Drop)]
pub struct Pieces<W>(pub W);

impl<W: Write> fmt::Write for Pieces<W> {
    fn write_str(&mut self, piece: &str) -> fmt::Result {
        write_whole(&mut self.0, piece.as_bytes());
        Ok(())
    }
}

impl Texts {
    // Nothing waits yet, and all could be written.
    pub const NONE: Texts = Texts {
        count: 0,
        going: true,
    };

    // What waits is written, and nothing waits. Whether it could be written is the world's answer; once something could not, nothing goes on.
    pub fn out(self, output: Stdout, block: &[u8]) -> Texts
        ensures { Out self result }
    {
        let written = say(output, octets::part(block, 0, self.count));
        Texts {
            count: 0,
            going: self.going && written,
        }
    }

    // What waits is written, and a text is the first that waits. One that is longer than the block is refused.
    fn add_first(self, output: Stdout, block: &mut [u8], text: &[u8]) -> Texts
        ensures { AddedFirst block.old self text.now result block.new }
    {
        let before = self.out(output, block);
        if octets::put(block, 0, text) {
            Texts {
                count: text.len(),
                ..before
            }
        } else {
            Texts {
                count: 0,
                going: false,
            }
        }
    }

    // One text more waits; where it does not fit behind the others, they are written first.
    #[tactic(auto, unfolding(octets::specs::Calls::fits_at))]
    fn add(self, output: Stdout, block: &mut [u8], text: &[u8]) -> Texts
        ensures { Added block.old self text.now result block.new }
    {
        if octets::put(block, self.count, text) {
            Texts {
                count: self.count + text.len(),
                ..self
            }
        } else {
            self.add_first(output, block, text)
        }
    }

    // One text more waits, and where no other follows all is written and nothing goes on.
    pub fn tell(self, output: Stdout, block: &mut [u8], text: &[u8], more: bool) -> Texts
        ensures { Told block.old self text.now more result block.new }
    {
        let next = self.add(output, block, text);
        if more {
            return next;
        }
        next.out(output, block);
        Texts {
            count: 0,
            going: false,
        }
    }
}

// What a program reads: standard input, the space into which it is read, and the window of what is not taken yet.
#[derive(Drop)]
pub struct Input<'a> {
    pub from: Stdin,
    pub space: &'a mut [u8],
    pub window: Window,
}

impl<'a> Input<'a> {
    // The octets that are read and not taken yet.
    pub fn seen(&self) -> &[u8]
        ensures { result.now ≡ seen_in self.now.space.now self.now.window }
    {
        self.window.seen(self.space)
    }

    // Reads on as `Window::read` does.
    pub fn read<S: Sizes>(&mut self, sizes: &S)
        ensures { FilledAs (S.says sizes.now) self.old.space.now self.old.window self.new.window self.new.space.now }
    {
        self.window = self.window.read(self.from, self.space, sizes);
    }

    // So many octets are taken, or as many as there are.
    pub fn take(&mut self, many: usize)
        ensures { (self.new.window ≡ taken_of self.old.window many) × (self.new.space.now ≡ self.old.space.now) }
    {
        self.window = self.window.taken(many);
    }
}

// What a program writes: standard output, the block in which texts wait, and how many octets of it wait.
#[derive(Drop)]
pub struct Output<'a> {
    pub to: Stdout,
    pub block: &'a mut [u8],
    pub texts: Texts,
}

impl<'a> Output<'a> {
    // It is lent whole: of a block that is lent alone nothing would be known afterwards.
    fn written(&self) -> Texts
        ensures { Out self.now.texts result }
    {
        self.texts.out(self.to, self.block)
    }

    // What waits is written.
    pub fn out(&mut self)
        ensures { Out self.old.texts self.new.texts × (self.new.block.now ≡ self.old.block.now) }
    {
        self.texts = self.written();
    }

    // One text more waits, and where no other follows all is written and nothing goes on.
    pub fn tell(&mut self, text: &[u8], more: bool)
        ensures { Told self.old.block.now self.old.texts text.now more self.new.texts self.new.block.now }
    {
        self.texts = self.texts.tell(self.to, self.block, text, more);
    }
}
