// The recursive Newton-Euler algorithm: the torques of what a rig holds.
ghost use Rattle.std.specs.Prelude.{◌≡◌, ℕ, suc, ◌+◌, ◌-◌, ◌<◌, ◌≤◌, length, Ok, Err};
ghost use Rattle.motion.specs.Vectors.{motion, force};
ghost use Rattle.dynamics.specs.Entries.{entries};
ghost use Rattle.dynamics.specs.Recursions.{torques};
ghost use Rattle.rig.specs.Questions.{first_no, answered, showing};
ghost use Rattle.rig.specs.Shows.{Shown};
ghost use Rattle.dynamics.specs.Held.{Held};
ghost use Rattle.rig.specs.Holds.{HeldAt, rig_holds};
ghost use Rattle.rig.specs.Moves.{BaseMoves, Follows, MovesTo};

use crate::rig::Rig;
use crate::rig::reading::HeldJoint;
use crate::work::{Moving, Work};
use motion::{Force, Motion};
use refusal::Refusal;
use ring::Ring;
use triple::Triple;

impl<'a, R: Ring> Rig<'a, R> {
    // v₀ = 0, a₀ = (0; -g).
    fn base(&self) -> Moving<R>
        requires { 0 < self.now.n }
        ensures { BaseMoves R.Ring.ring R.Ring.value (rig_holds R.Ring.ring R.Ring.value self.now) result }
    {
        let slots = &*self.slots;
        Moving {
            velocity: Motion::zero(),
            acceleration: Motion {
                angular: Triple::zero(),
                linear: -slots[0].gravity,
            },
            force: Force::zero(),
        }
    }

    // Outward from the base: how each joint moves, and the force on its own link.
    fn outward(&self, work: &mut [Work<R>])
        requires { (0 < self.now.n) × (self.now.n < length work.old) }
        ensures { MovesTo R.Ring.ring R.Ring.value (rig_holds R.Ring.ring R.Ring.value self.now) self.now.n work.new }
    {
        work[0].moving = self.base();
        for i in 1..=self.n {
            let joint = self.joint(i);
            let parent = work[joint.row.parent].moving;
            work[i].moving = joint.moved(parent);
        }
    }

    // Inward from the last joint: the torque of each is S·f, and f is carried to its parent.
    fn inward(&self, res: &mut [R], work: &mut [Work<R>])
        requires room { self.now.n ≤ length res.old }
        requires long { self.now.n < length work.old }
        requires moving { MovesTo R.Ring.ring R.Ring.value (rig_holds R.Ring.ring R.Ring.value self.now) self.now.n work.old }
        ensures { Shown R.Ring.value self.now.n (entries self.now.n (torques R.Ring.ring (rig_holds R.Ring.ring R.Ring.value self.now))) res.old res.new }
    {
        for i in (1..=self.n).rev() {
            let joint = self.joint(i);
            let pose = joint.pose();
            let force = work[i].moving.force;
            res[i - 1] = pose.component(force);
            let p = joint.row.parent;
            if p > 0 {
                let sum = work[p].moving.force + pose.inward(force);
                work[p].moving.force = sum;
            }
        }
    }

    // The torques of the held accelerations, into the first n entries of the result list.
    pub fn show_torques(&self, res: &mut [R], work: &mut [Work<R>]) -> Result<(), Refusal>
        ensures answer { result ≡ answered tt (first_no (showing self.now.n self.now.n (length res.old) (length work.old))) }
        ensures shown { elim result [ Ok _ ↦ Shown R.Ring.value self.now.n (entries self.now.n (torques R.Ring.ring (rig_holds R.Ring.ring R.Ring.value self.now))) res.old res.new | Err _ ↦ (res.new ≡ res.old) × (work.new ≡ work.old) ] }
    {
        self.check_lists(self.n, res, work)?;
        if self.n > 0 {
            self.outward(work);
            self.inward(res, work);
        }
        Ok(())
    }
}

impl<'r, R: Ring> HeldJoint<'r, R> {
    // How the joint moves on its parent: v = X v + S q', a = X a + v × S q' + S q'', f = I a + v ×* I v.
    fn moved(self, parent: Moving<R>) -> Moving<R>
        ensures { (h : Held R.Ring.Num) (i : ℕ) → HeldAt R.Ring.ring R.Ring.value h i self.entry.row self.entry.slot.now → Follows R.Ring.ring R.Ring.value h i parent result }
    {
        let slot = self.slot;
        let link = slot.link;
        let pose = self.pose();
        let spin = pose.along(slot.rate);
        let velocity = pose.outward(parent.velocity) + spin;
        let acceleration = pose.outward(parent.acceleration)
            + velocity.cross(spin)
            + pose.along(slot.acceleration);
        let force = link.apply(acceleration) + velocity.cross_force(link.apply(velocity));
        Moving {
            velocity,
            acceleration,
            force,
        }
    }
}
