// What a show works on: an entry for the base and one for each joint.
ghost use Rattle.std.specs.Prelude.{◌≡◌};
ghost use Rattle.rig.specs.Works.{work, blank_work};

use inertia::Inertia;
use linear::Matrix3;
use motion::{Force, Motion};
use ring::Ring;
use symmetric::Symmetric3;
use triple::Triple;

// How a joint's frame moves, and the force that moves it.
#[derive(Clone, Copy)]
pub struct Moving<R> {
    pub velocity: Motion<R>,
    pub acceleration: Motion<R>,
    pub force: Force<R>,
}

#[derive(Clone, Copy)]
pub struct Work<R> {
    pub(crate) moving: Moving<R>,
    pub(crate) inertia: Inertia<R>,
}

impl<R: Ring> Work<R> {
    // An entry to lend: everything zero. A show may leave anything in it.
    pub fn blank() -> Work<R>
        ensures { work R.Ring.value result ≡ blank_work R.Ring.ring }
    {
        let o = R::zero();
        let rows = Matrix3 {
            x: Triple::zero(),
            y: Triple::zero(),
            z: Triple::zero(),
        };
        let symmetric = Symmetric3 {
            xx: o,
            xy: o,
            xz: o,
            yy: o,
            yz: o,
            zz: o,
        };
        Work {
            moving: Moving {
                velocity: Motion::zero(),
                acceleration: Motion::zero(),
                force: Force::zero(),
            },
            inertia: Inertia {
                angular: symmetric,
                coupling: rows,
                linear: symmetric,
            },
        }
    }
}
