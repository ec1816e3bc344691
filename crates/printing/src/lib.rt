#![tactic(auto)]
// The lines that the programs print: functions that write into a lent buffer, so that a program only reads, calls and writes.
ghost use Rattle.std.specs.Prelude.{◌+◌, ◌*◌, ◌≤◌, ◌<◌, ℕ, List, [], ◌++◌, ◌≡◌, ltb, length, take};
ghost use Rattle.octets.specs.Calls.{added};
ghost use Rattle.octets.specs.Keeping.{kept_of};
ghost use Rattle.printing.specs.Text.{decimal, hex_figure, pair_of, pairs};
ghost use Rattle.printing.specs.Line.{space, newline, word, beginning, dash_for, time_text, line_of, gap_line, PutAt, Lined};

use deeds::Order;
use octets::Kept;
use std::marker::Model;

// A figure in hex. It is worked out and not looked up: so the pairs of a line are laid many at a time, where a table is asked for each figure.
#[tactic(auto, unfolding(crate::specs::Text::hex_figure))]
fn hex_figure(n: u8) -> u8
    requires { n < 16 }
    ensures { result ≡ hex_figure n }
{
    if n < 10 { b'0' + n } else { b'A' - 10 + n }
}

// An octet in hex. That is plainer here than a formatter: a line is laid from arrays, in no String.
fn pair(octet: u8) -> [u8; 2]
    ensures { result ≡ pair_of octet }
{
    [hex_figure(octet / 16), hex_figure(octet % 16)]
}

// An order as a word.
fn word(order: Order) -> &'static [u8]
    ensures { result.now ≡ word order }
{
    match order {
        Order::NoOrder => b"-",
        Order::SetClock => b"clock",
        Order::SetDates => b"dates",
    }
}

// The head of a line is all of it but the last octets in hex. It is short, and is put together apart, because only its length tells whether the line
// fits. Its columns stand a space apart.
#[derive(Drop)]
struct Head {
    octets: [u8; 96],
    length: usize,
}

impl Model for Head {
    ghost Value = { List ℕ };

    ghost view = { λ head. take head.length head.octets };

    ghost invariant = { λ head. head.length ≤ 96 };
}

impl Head {
    fn new() -> Head
        ensures { result ≡ [] }
    {
        Head {
            octets: [0; 96],
            length: 0,
        }
    }

    fn as_slice(&self) -> &[u8]
        ensures { result.now ≡ self.now }
    {
        octets::part(&self.octets, 0, self.length)
    }

    fn put(&mut self, part: &[u8])
        ensures { length self.old + length part.now ≤ 96 → self.new ≡ self.old ++ part.now }
    {
        if octets::put(&mut self.octets, self.length, part) {
            self.length += part.len();
        }
    }

    fn put_decimal(&mut self, n: u64)
        ensures { length self.old + 20 ≤ 96 → self.new ≡ self.old ++ decimal n }
    {
        self.put(itoa::Buffer::new().format(n).as_bytes());
    }

    fn put_pairs(&mut self, octets: &[u8])
        ensures { length self.old + 2 * length octets.now ≤ 96 → self.new ≡ self.old ++ pairs [] octets.now }
    {
        for octet in octets {
            self.put(&pair(*octet));
        }
    }

    // The octets of an order.
    fn put_time(&mut self, order: Order, time: &[u8])
        ensures { length self.old + 20 ≤ 96 → self.new ≡ self.old ++ time_text order time.now }
    {
        match order {
            Order::NoOrder => self.put(b"-"),
            Order::SetClock => self.put_pairs(octets::part(time, 0, 7)),
            Order::SetDates => self.put_pairs(octets::part(time, 0, 10)),
        }
    }

    // What both lines begin with.
    fn begin(&mut self, first: u64, second: u64, order: Order)
        ensures { self.old ≡ [] → self.new ≡ beginning first second order }
    {
        self.put_decimal(first);
        self.put(b" ");
        self.put_decimal(second);
        self.put(b" ");
        self.put(word(order));
    }

    // The head of a gap's line.
    fn put_gap(&mut self, number: u64, count: u64, order: Order, time: &[u8], damaged: u64)
        ensures { self.old ≡ [] → self.new ≡ beginning number count order ++ space ++ time_text order time.now ++ space ++ decimal damaged ++ space }
    {
        self.begin(number, count, order);
        self.put(b" ");
        self.put_time(order, time);
        self.put(b" ");
        self.put_decimal(damaged);
        self.put(b" ");
    }
}

// What stands for a reply that has no octets.
fn dash(reply: &[u8]) -> &'static [u8]
    ensures { result.now ≡ dash_for reply.now }
{
    if reply.is_empty() { b" -" } else { b"" }
}

// Whether `many` times `width` octets, `rest` more and one for the newline fit.
fn fits(room: usize, width: usize, many: usize, rest: usize) -> bool
    ensures { result ≡ ltb (rest + many * width) room }
{
    many.checked_mul(width)
        .and_then(|pairs| rest.checked_add(pairs))
        .is_some_and(|all| all < room)
}

// Writes a part of a line from an index on, and answers where it ends.
fn put_part(out: &mut [u8], at: usize, part: &[u8]) -> usize
    requires { at + length part.now ≤ length out.old }
    ensures { PutAt out.old at part.now result out.new }
{
    octets::put(out, at, part);
    at + part.len()
}

// Writes a line for which there is room: its head, the pairs of some octets with `before` in front of each, a newline. The place of writing is kept by hand:
// a pair with what stands in front of it has two octets or three, so that no chunks of one size fit.
fn put_line(out: &mut [u8], head: &[u8], before: &[u8], octets: &[u8]) -> usize
    requires { length head.now + length (pairs before.now octets.now) < length out.old }
    ensures { PutAt out.old 0 (head.now ++ pairs before.now octets.now ++ newline) result out.new }
{
    let mut end = put_part(out, 0, head);
    for octet in octets {
        end = put_part(out, end, before);
        end = put_part(out, end, &pair(*octet));
    }
    put_part(out, end, b"\n")
}

// Writes a line, if all of it fits.
fn lay(out: &mut [u8], head: &[u8], before: &[u8], octets: &[u8]) -> usize
    requires { length before.now ≤ 1 }
    ensures { Lined out.old (head.now ++ pairs before.now octets.now ++ newline) result out.new }
{
    if fits(out.len(), before.len() + 2, octets.len(), head.len()) {
        put_line(out, head, before, octets)
    } else {
        0
    }
}

// A text that is kept, and a number behind it.
pub fn with_decimal(text: Kept, n: u64) -> Kept
    ensures { result ≡ added text (decimal n) }
{
    text.with(itoa::Buffer::new().format(n).as_bytes())
}

// Writes a text, or nothing where it does not fit, and answers how many octets are written.
pub fn put_text(out: &mut [u8], text: &[u8]) -> usize
    ensures { Lined out.old text.now result out.new }
{
    if octets::put(out, 0, text) {
        text.len()
    } else {
        0
    }
}

// Writes a run's line, or nothing where it does not fit, and answers how many octets it has.
pub fn line(out: &mut [u8], number: u64, res: u8, order: Order, reply: &[u8]) -> usize
    ensures { Lined out.old (line_of number res order reply.now) result out.new }
{
    let mut head = Head::new();
    head.begin(number, u64::from(res), order);
    head.put(dash(reply));
    lay(out, head.as_slice(), b" ", reply)
}

// Writes the line of a gap of the driving program.
pub fn gap_line(
    out: &mut [u8],
    number: u8,
    length: u16,
    order: Order,
    time: [u8; 10],
    damaged: u16,
    buffer: &[u8],
) -> usize
    ensures { Lined out.old (gap_line number length order time damaged buffer.now) result out.new }
{
    let mut head = Head::new();
    head.put_gap(
        u64::from(number),
        u64::from(length),
        order,
        &time,
        u64::from(damaged),
    );
    lay(out, head.as_slice(), b"", buffer)
}
