// The rings of the whole numbers modulo M.
#![tactic(auto)]

mod residue;

pub use residue::Residue;

// The two at hand: modulo the primes 2147483647 and 65521.
pub type RingA = Residue<2147483647>;

pub type RingB = Residue<65521>;
