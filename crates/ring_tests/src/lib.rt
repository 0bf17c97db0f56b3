// A kind of number written from the laws alone, and tests of the kinds of number at hand.
#![tactic(auto)]

mod fifteen;
mod slope;

pub use fifteen::Fifteen;
pub use slope::{cube, cube_slope};

#[cfg(test)]
mod tests;
