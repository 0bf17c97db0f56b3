// A tree of one-axis joints over slots that the caller lends.
#![tactic(auto)]

mod rig;
mod slot;
mod table;
mod work;

pub use rig::Rig;
pub use slot::Slot;
pub use work::Work;
