// Turns about the third axis and slides along it, without the products by the zeros and ones of their placements.
#![tactic(auto)]

mod slide;
mod turn;

pub use slide::Slide;
pub use turn::Turn;
