// What the caller lends: a slot for the base and one for each joint.
ghost use Rattle.std.specs.Prelude.{◌≡◌};
ghost use Rattle.pose.specs.Poses.{moves, own_pose, own_at, placed_so};
ghost use Rattle.rig.specs.Slots.{slot, blank_slot};

use joint::JointKind;
use pose::Own;
use ring::Ring;
use rotation::Quaternion;
use spatial::{Link, Placement};
use symmetric::Symmetric3;
use third_axis::{Slide, Turn};
use triple::Triple;

// The numbers of a joint as given, with its state, and what was worked out from them when they were given:
// the rotation of the fixed placement from `turn`, and from a revolute joint's position its cosine and its sine.
// A joint's kind stands in its rig's table alone, so that a slot has both what a turn and what a slide would need.
// Slot 0 is the base's: only its gravity counts, and that of no other slot.
#[derive(Clone, Copy)]
pub struct Slot<R> {
    pub(crate) gravity: Triple<R>,
    pub(crate) turn: Quaternion<R>,
    pub(crate) fixed: Placement<R>,
    pub(crate) link: Link<R>,
    pub(crate) cosine: R,
    pub(crate) sine: R,
    pub(crate) position: R,
    pub(crate) rate: R,
    pub(crate) acceleration: R,
    pub(crate) force: R,
}

impl<R: Ring> Slot<R> {
    // The own placement of the joint whose slot this is, by its kind.
    pub(crate) fn own(&self, kind: JointKind) -> Own<R>
        ensures moves { moves result ≡ kind }
        ensures placed { placed_so R.Ring.ring (own_pose R.Ring.value result) ≡ own_at R.Ring.ring kind (R.Ring.value self.now.cosine) (R.Ring.value self.now.sine) (R.Ring.value self.now.position) }
    {
        match kind {
            JointKind::Revolute => Own::Turn(Turn {
                cosine: self.cosine,
                sine: self.sine,
            }),
            JointKind::Prismatic => Own::Slide(Slide {
                length: self.position,
            }),
        }
    }

    // A slot to lend: everything zero, and no rotation.
    pub fn blank() -> Slot<R>
        ensures { slot R.Ring.value result ≡ blank_slot R.Ring.ring }
    {
        let o = R::zero();
        Slot {
            gravity: Triple::zero(),
            turn: Quaternion {
                a: R::one(),
                b: o,
                c: o,
                d: o,
            },
            fixed: Placement::slide(o),
            link: Link {
                mass: o,
                first_moment: Triple::zero(),
                inertia: Symmetric3 {
                    xx: o,
                    xy: o,
                    xz: o,
                    yy: o,
                    yz: o,
                    zz: o,
                },
            },
            cosine: R::one(),
            sine: o,
            position: o,
            rate: o,
            acceleration: o,
            force: o,
        }
    }
}
