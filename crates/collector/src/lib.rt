#![tactic(auto)]
// What comes in: the collector of characters, and the count of damaged runs.
ghost use Rattle.std.specs.Prelude.{◌≡◌};
ghost use Rattle.profile.specs.declared.Profile.TheVariants.{Ten, Eleven};
ghost use Rattle.collector.specs.Collecting.{emptied, overfull, collected, collected_in};
ghost use Rattle.collector.specs.Calls.{collected_all, PutIn};
ghost use Rattle.collector.specs.Damage.{damages, one_more};

use frame::{Fault, Judged};
use profile::Character;

// The octets since the last gap: the first so many of the array, zeros behind. The mark says that a parity bit was wrong; it stands where the array leaves
// one octet before the length, so that it costs no room. A length over 261 means overfull. C lends one to `collect`, so that it is an array with a length.
#[repr(C)]
#[derive(Clone, Copy)]
pub struct Collector {
    pub octets: [u8; 261],
    pub marked: bool,
    pub length: u16,
}

impl Collector {
    #[tactic(auto, unfolding(crate::specs::Collecting::emptied))]
    pub fn new() -> Collector
        ensures { result ≡ emptied }
    {
        Collector {
            octets: [0; 261],
            marked: false,
            length: 0,
        }
    }

    // An octet is put in; one more than there is room for marks the collector overfull.
    #[tactic(auto, unfolding(crate::specs::Collecting::collected_in))]
    pub fn with(self, octet: u8) -> Collector
        ensures { result ≡ collected self octet }
    {
        // by index: what `get_mut` leaves in the array no proof knows
        let at = self.length as usize;
        if at < Judged::LONGEST {
            let mut next = self;
            next.octets[at] = octet;
            next.length += 1;
            next
        } else {
            Collector::overfull()
        }
    }

    // A character is put in: a wrong parity bit marks the run, and the octet counts.
    #[tactic(auto, unfolding(crate::specs::Collecting::collected_in))]
    pub fn with_character(self, character: Character) -> Collector
        ensures { result ≡ collected_in Eleven self character }
    {
        let marked = !character.is_right() || self.marked;
        Collector { marked, ..self }.with(character.octet)
    }

    // The same of an octet and the parity bit that came with it: `collect_character` hands its parameters on as they came, as the law of proofs/Lent has it.
    fn with_parity(self, octet: u8, parity: bool) -> Collector
        ensures { result ≡ collected_in Eleven self (record { octet = octet; parity = parity }) }
    {
        self.with_character(Character { octet, parity })
    }

    // Octets are put in, one after the other: behind those that are in, all at once. Where one finds no room, the collector is overfull.
    pub fn with_all(self, octets: &[u8]) -> Collector
        ensures { result ≡ collected_all self octets.now }
    {
        if octets.is_empty() {
            return self;
        }
        let mut next = self;
        if octets::put(&mut next.octets, self.length as usize, octets) {
            next.length += octets.len() as u16;
            next
        } else {
            Collector::overfull()
        }
    }

    fn overfull() -> Collector
        ensures { result ≡ overfull }
    {
        Collector {
            length: (Judged::LONGEST + 1) as u16,
            ..Collector::new()
        }
    }
}

// The same of a collector that is lent.
pub fn collect(collector: &mut Collector, octet: u8)
    ensures { PutIn Ten collector.old octet collector.new }
{
    *collector = collector.with(octet);
}

// A character put into a collector that is lent.
pub fn collect_character(collector: &mut Collector, octet: u8, parity: bool)
    ensures { PutIn Eleven collector.old (record { octet = octet; parity = parity }) collector.new }
{
    *collector = collector.with_parity(octet, parity);
}

// Whether a run that is no sound frame is damaged: one that is not empty.
pub fn is_damaged(fault: Fault) -> bool
    ensures { result ≡ damages fault }
{
    !matches!(fault, Fault::Empty)
}

// The count of damaged runs with one more.
#[tactic(auto, unfolding(crate::specs::Damage::one_more))]
pub fn one_more(damaged: u16) -> u16
    ensures { result ≡ one_more damaged }
{
    damaged.saturating_add(1)
}
