// Rigid links.
ghost use Rattle.std.specs.Prelude.{◌≡◌};
ghost use Rattle.motion.specs.Vectors.{motion, force};
ghost use Rattle.spatial.specs.Links.{link, momentum};

use motion::{Force, Motion};
use ring::Ring;
use symmetric::Symmetric3;
use triple::Triple;

// Its mass m, first moment h and inertia J about its origin.
#[derive(Clone, Copy)]
pub struct Link<R> {
    pub mass: R,
    pub first_moment: Triple<R>,
    pub inertia: Symmetric3<R>,
}

impl<R: Ring> Link<R> {
    // The link's inertia applied to a motion: (J ω + h × v; m v - h × ω).
    pub fn apply(self, m: Motion<R>) -> Force<R>
        ensures { force R.Ring.value result ≡ momentum R.Ring.ring (link R.Ring.value self) (motion R.Ring.value m) }
    {
        Force {
            moment: self.inertia.apply(m.angular) + self.first_moment.cross(m.linear),
            linear: m.linear.scale(self.mass) - self.first_moment.cross(m.angular),
        }
    }
}
