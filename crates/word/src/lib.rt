// The ring of the whole numbers modulo 2^32.
#![tactic(auto)]

mod word;

pub use word::Word;

pub type RingW = Word;
