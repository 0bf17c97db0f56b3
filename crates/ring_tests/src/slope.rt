// Slopes by dual numbers: the value of a polynomial at x + e has its slope at x beside e.
ghost use Rattle.std.specs.Prelude.{◌≡◌};
ghost use Rattle.ring_tests.specs.Cubes.{cubed, slope_of_cube};

use dual::Dual;
use ring::Ring;

pub fn cube<R: Ring>(x: R) -> R
    ensures { R.Ring.value result ≡ cubed R.Ring.ring (R.Ring.value x) }
{
    x.mul(x).mul(x)
}

// The slope of the cube at `x`, in every ring: 3 x x.
pub fn cube_slope<R: Ring>(x: R) -> R
    ensures { R.Ring.value result ≡ slope_of_cube R.Ring.ring (R.Ring.value x) }
{
    let near = Dual {
        first: x,
        second: R::one(),
    };
    cube(near).second
}
