// The rig: a table of joints over lent slots.
ghost use Rattle.std.specs.Prelude.{◌≡◌, ℕ, ◌-◌, ◌≤◌, length};
ghost use Rattle.rig.specs.Tables.{Low};

use crate::slot::Slot;
use crate::table::Table;

mod asking;
mod making;
mod matrix;
mod reading;
mod setting;
mod torques;

// Joints 1 to n, at most 24; each has a parent that is lower, a joint or the base, which is 0. Joint i has slot i, and
// the base slot 0.
#[derive(Drop)]
pub struct Rig<'a, R> {
    slots: &'a mut [Slot<R>],
    table: Table,
    n: usize,
    ghost full: { length table.rows ≡ 24 },
    ghost few: { n ≤ 24 },
    ghost fit: { n ≤ length slots.now - 1 },
    ghost low: { Low n table },
}
