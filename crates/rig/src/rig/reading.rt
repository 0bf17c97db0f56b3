// Reading what a rig holds, joint by joint.
ghost use Rattle.std.specs.Prelude.{◌≡◌, ℕ, ◌-◌, ◌<◌, ◌≤◌, slice_index_or};
ghost use Rattle.pose.specs.Poses.{pose, posed};
ghost use Rattle.rig.specs.Slots.{slot, slot_joint};
ghost use Rattle.rig.specs.Holds.{HeldAt, rig_holds};
ghost use Rattle.rig.specs.declared.slot.Slot.{Slot as Slots};

use crate::rig::Rig;
use crate::slot::Slot;
use crate::table::Row;
use pose::Pose;
use ring::Ring;

// A joint as a rig holds it.
#[derive(Clone, Copy)]
pub(crate) struct HeldJoint<'r, R> {
    pub(crate) row: Row,
    pub(crate) slot: &'r Slot<R>,
}

impl<'a, R: Ring> Rig<'a, R> {
    // How many joints there are.
    pub fn joints(&self) -> usize
        ensures { result ≡ self.now.n }
    {
        self.n
    }

    pub(crate) fn joint(&self, i: usize) -> HeldJoint<'_, R>
        requires { (0 < i) × (i ≤ self.now.n) }
        ensures is { HeldAt R.Ring.ring R.Ring.value (rig_holds R.Ring.ring R.Ring.value self.now) i result.row result.slot.now }
        ensures same { (d : Slots R) → result.slot.now ≡ slice_index_or self.now.slots.now i d }
        ensures low { result.row.parent < i }
    {
        let slots = &*self.slots;
        HeldJoint {
            row: self.table.rows[i - 1],
            slot: &slots[i],
        }
    }
}

impl<'r, R: Ring> HeldJoint<'r, R> {
    // X and S.
    pub(crate) fn pose(self) -> Pose<R>
        ensures { posed R.Ring.ring (pose R.Ring.value result) ≡ slot_joint R.Ring.ring self.entry.row (slot R.Ring.value self.entry.slot.now) }
    {
        Pose {
            fixed: self.slot.fixed,
            own: self.slot.own(self.row.kind),
        }
    }
}
