// Triples over any ring.
#![tactic(auto)]

mod triple;

pub use triple::Triple;
