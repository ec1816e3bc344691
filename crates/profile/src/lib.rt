#![tactic(auto)]
// The two profiles of the line: ten bits without parity, and eleven with an even parity bit.
ghost use Rattle.std.specs.Prelude.{◌≡◌, ◌%◌, eqb};
ghost use Rattle.profile.specs.Character.{low_bits, ones, even_parity, rightly};

#[derive(Clone, Copy, Debug, PartialEq, Eq)]
pub enum Profile {
    Ten,
    Eleven,
}

// What a line of eleven bits delivers: an octet and the parity bit that came with it.
#[derive(Clone, Copy, Debug, PartialEq, Eq)]
pub struct Character {
    pub octet: u8,
    pub parity: bool,
}

impl Character {
    // An octet with the parity bit that is right.
    #[tactic(auto, unfolding(crate::specs::Character::rightly))]
    pub fn of(octet: u8) -> Character
        ensures { result ≡ rightly octet }
    {
        Character {
            octet,
            parity: is_odd(octet),
        }
    }

    // Whether data bits and parity bit together have an even number of ones.
    #[tactic(auto, using(crate::proofs::Parity::even_told))]
    pub fn is_right(self) -> bool
        ensures { result ≡ even_parity self }
    {
        is_odd(self.octet) == self.parity
    }
}

// Whether an odd number of the eight data bits are ones.
fn is_odd(octet: u8) -> bool
    ensures { result ≡ eqb (ones (low_bits 8 octet) % 2) 1 }
{
    octet.count_ones() % 2 == 1
}
