// Placements of one frame in another.
ghost use Rattle.std.specs.Prelude.{◌≡◌};
ghost use Rattle.std.specs.Option.{option_map};
ghost use Rattle.motion.specs.Vectors.{motion, force};
ghost use Rattle.spatial.specs.Placements.{placement, outward, inward, turned, turn, slid};

use linear::Matrix3;
use motion::{Force, Motion};
use ring::Ring;
use std::ops::{Add, Sub};
use triple::Triple;

// A 3 by 3 matrix E and a triple r.
#[derive(Clone, Copy)]
pub struct Placement<R> {
    pub rotation: Matrix3<R>,
    pub offset: Triple<R>,
}

impl<R: Ring> Placement<R> {
    // A motion, carried into the placed frame: (E ω; E (v - r × ω)).
    pub fn outward(self, m: Motion<R>) -> Motion<R>
        ensures { motion R.Ring.value result ≡ outward R.Ring.ring (placement R.Ring.value self) (motion R.Ring.value m) }
    {
        Motion {
            angular: self.rotation.apply(m.angular),
            linear: self.rotation.apply(m.linear - self.offset.cross(m.angular)),
        }
    }

    // A force, carried back out of the placed frame: (E' n + r × (E' f); E' f).
    pub fn inward(self, w: Force<R>) -> Force<R>
        ensures { force R.Ring.value result ≡ inward R.Ring.ring (placement R.Ring.value self) (force R.Ring.value w) }
    {
        let back = self.rotation.transpose();
        let linear = back.apply(w.linear);
        Force {
            moment: back.apply(w.moment) + self.offset.cross(linear),
            linear,
        }
    }

    // The turn about the third axis whose half angle has the tangent `t`, where `i` inverts 1 + t t.
    fn turned(t: R, i: R) -> Placement<R>
        ensures { placement R.Ring.value result ≡ turned R.Ring.ring (R.Ring.value t) (R.Ring.value i) }
    {
        let c = R::one().sub(t.mul(t)).mul(i);
        let s = t.add(t).mul(i);
        let o = R::zero();
        Placement {
            rotation: Matrix3 {
                x: Triple { x: c, y: s, z: o },
                y: Triple {
                    x: s.neg(),
                    y: c,
                    z: o,
                },
                z: Triple {
                    x: o,
                    y: o,
                    z: R::one(),
                },
            },
            offset: Triple::zero(),
        }
    }

    // The turn about the third axis whose half angle has the tangent `t`: none where 1 + t t is no unit.
    pub fn turn(t: R) -> Option<Placement<R>>
        ensures { option_map (placement R.Ring.value) result ≡ turn R.Ring.ring (R.Ring.value t) }
    {
        let i = R::one().add(t.mul(t)).inverse()?;
        Some(Placement::turned(t, i))
    }

    // The slide along the third axis by `q`.
    pub fn slide(q: R) -> Placement<R>
        ensures { placement R.Ring.value result ≡ slid R.Ring.ring (R.Ring.value q) }
    {
        let e = R::one();
        let o = R::zero();
        Placement {
            rotation: Matrix3 {
                x: Triple { x: e, y: o, z: o },
                y: Triple { x: o, y: e, z: o },
                z: Triple { x: o, y: o, z: e },
            },
            offset: Triple { x: o, y: o, z: q },
        }
    }
}
