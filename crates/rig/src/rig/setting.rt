// Setting what a rig holds.
ghost use Rattle.std.specs.Prelude.{◌≡◌, ℕ, ◌+◌, ◌-◌, ◌<◌, ◌≤◌, length, Ok, Err};
ghost use Rattle.std.specs.Fn.{FnOnceReturnsAtMut};
ghost use Rattle.rig.specs.Questions.{first_no, answered, weighting, setting, positioning, joint_number};
ghost use Rattle.rig.specs.Calls.{Changed, ChangedBy, Positioned, TrueToGiven, with_gravity, with_rate, with_acceleration, with_force};

use crate::rig::Rig;
use crate::rig::asking::within;
use crate::slot::Slot;
use refusal::Refusal;
use ring::Ring;
use triple::Triple;

impl<'a, R: Ring> Rig<'a, R> {
    pub fn set_gravity(&mut self, gravity: Triple<R>) -> Result<(), Refusal>
        ensures answer { result ≡ answered tt (first_no (weighting (length self.old.slots.now))) }
        ensures after { elim result [ Ok _ ↦ Changed self.old self.new 0 (with_gravity gravity) | Err _ ↦ self.new ≡ self.old ] }
        ensures keeps { TrueToGiven R.Ring.ring R.Ring.value self.old → TrueToGiven R.Ring.ring R.Ring.value self.new }
        ensures lent { self.new.slots.ghost_name ≡ self.old.slots.ghost_name }
    {
        if self.slots.len() == 0 {
            return Err(Refusal::NoSlot);
        }
        self.slots[0].gravity = gravity;
        Ok(())
    }

    // A revolute joint's position is the tangent of half its angle, a prismatic one's a length.
    pub fn set_position(&mut self, joint: i64, position: R) -> Result<(), Refusal>
        ensures answer { result ≡ answered tt (first_no (positioning R.Ring.ring self.old.n self.old.table joint (R.Ring.value position))) }
        ensures after { elim result [ Ok _ ↦ Positioned R.Ring.ring R.Ring.value self.old self.new (joint_number joint) position | Err _ ↦ self.new ≡ self.old ] }
        ensures keeps { TrueToGiven R.Ring.ring R.Ring.value self.old → TrueToGiven R.Ring.ring R.Ring.value self.new }
        ensures lent { self.new.slots.ghost_name ≡ self.old.slots.ghost_name }
    {
        let i = within(joint, 1, self.n).ok_or(Refusal::NoJoint)?;
        let kind = self.table.rows[i - 1].kind;
        let own = kind.placement(position).ok_or(Refusal::NoPosition(i))?;
        let slot = self.slots[i];
        self.slots[i] = Slot {
            position,
            cosine: own.rotation.x.x,
            sine: own.rotation.x.y,
            ..slot
        };
        Ok(())
    }

    pub fn set_rate(&mut self, joint: i64, rate: R) -> Result<(), Refusal>
        ensures answer { result ≡ answered tt (first_no (setting self.old.n joint)) }
        ensures after { elim result [ Ok _ ↦ Changed self.old self.new (joint_number joint) (with_rate rate) | Err _ ↦ self.new ≡ self.old ] }
        ensures keeps { TrueToGiven R.Ring.ring R.Ring.value self.old → TrueToGiven R.Ring.ring R.Ring.value self.new }
        ensures lent { self.new.slots.ghost_name ≡ self.old.slots.ghost_name }
    {
        self.change(joint, |slot| slot.rate = rate)
    }

    pub fn set_acceleration(&mut self, joint: i64, acceleration: R) -> Result<(), Refusal>
        ensures answer { result ≡ answered tt (first_no (setting self.old.n joint)) }
        ensures after { elim result [ Ok _ ↦ Changed self.old self.new (joint_number joint) (with_acceleration acceleration) | Err _ ↦ self.new ≡ self.old ] }
        ensures keeps { TrueToGiven R.Ring.ring R.Ring.value self.old → TrueToGiven R.Ring.ring R.Ring.value self.new }
        ensures lent { self.new.slots.ghost_name ≡ self.old.slots.ghost_name }
    {
        self.change(joint, |slot| slot.acceleration = acceleration)
    }

    // The force along or about the joint's axis: its torque, for a revolute joint.
    pub fn set_force(&mut self, joint: i64, force: R) -> Result<(), Refusal>
        ensures answer { result ≡ answered tt (first_no (setting self.old.n joint)) }
        ensures after { elim result [ Ok _ ↦ Changed self.old self.new (joint_number joint) (with_force force) | Err _ ↦ self.new ≡ self.old ] }
        ensures keeps { TrueToGiven R.Ring.ring R.Ring.value self.old → TrueToGiven R.Ring.ring R.Ring.value self.new }
        ensures lent { self.new.slots.ghost_name ≡ self.old.slots.ghost_name }
    {
        self.change(joint, |slot| slot.force = force)
    }

    // The slot of one joint changed.
    fn change<F: FnOnce(&mut Slot<R>)>(&mut self, joint: i64, change: F) -> Result<(), Refusal>
        requires { F.IsAlwaysCallable change }
        ensures answer { result ≡ answered tt (first_no (setting self.old.n joint)) }
        ensures after { elim result [ Ok _ ↦ ChangedBy self.old self.new (joint_number joint) (λ s t. FnOnceReturnsAtMut F.FnOnce change s tt t) | Err _ ↦ self.new ≡ self.old ] }
        ensures lent { self.new.slots.ghost_name ≡ self.old.slots.ghost_name }
    {
        let i = within(joint, 1, self.n).ok_or(Refusal::NoJoint)?;
        let slots = &mut *self.slots;
        change(&mut slots[i]);
        Ok(())
    }
}
