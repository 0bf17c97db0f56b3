// Rotations by four numbers, which need not have length one.
ghost use Rattle.std.specs.Prelude.{◌≡◌};
ghost use Rattle.std.specs.Option.{option_map};
ghost use Rattle.linear.specs.Matrices.{matrix};
ghost use Rattle.rotation.specs.Rotations.{quaternion, whole4, norm, rows, rotation};

use linear::Matrix3;
use ring::{Ring, whole};
use triple::Triple;

#[derive(Clone, Copy)]
pub struct Quaternion<R> {
    pub a: R,
    pub b: R,
    pub c: R,
    pub d: R,
}

impl<R: Ring> Quaternion<R> {
    // Four whole numbers, as they enter the ring.
    pub fn whole(a: i64, b: i64, c: i64, d: i64) -> Quaternion<R>
        ensures { quaternion R.Ring.value result ≡ whole4 R.Ring.ring a b c d }
    {
        Quaternion {
            a: whole(a),
            b: whole(b),
            c: whole(c),
            d: whole(d),
        }
    }

    // N = a a + b b + c c + d d.
    pub fn norm(self) -> R
        ensures { R.Ring.value result ≡ norm R.Ring.ring (quaternion R.Ring.value self) }
    {
        let Quaternion { a, b, c, d } = self;
        a.mul_add(a, b.mul_add(b, c.mul_add(c, d.mul(d))))
    }

    // The rows of the rotation, where `i` is 1/N.
    fn rows(self, i: R) -> Matrix3<R>
        ensures { matrix R.Ring.value result ≡ rows R.Ring.ring (quaternion R.Ring.value self) (R.Ring.value i) }
    {
        let Quaternion { a, b, c, d } = self;
        let (aa, bb, cc, dd) = (a.mul(a), b.mul(b), c.mul(c), d.mul(d));
        let (ab, ac, ad) = (a.mul(b), a.mul(c), a.mul(d));
        let (bc, bd, cd) = (b.mul(c), b.mul(d), c.mul(d));
        Matrix3 {
            x: Triple {
                x: i.mul(aa.add(bb).sub(cc.add(dd))),
                y: i.mul(twice(bc.add(ad))),
                z: i.mul(twice(bd.sub(ac))),
            },
            y: Triple {
                x: i.mul(twice(bc.sub(ad))),
                y: i.mul(aa.add(cc).sub(bb.add(dd))),
                z: i.mul(twice(cd.add(ab))),
            },
            z: Triple {
                x: i.mul(twice(bd.add(ac))),
                y: i.mul(twice(cd.sub(ab))),
                z: i.mul(aa.add(dd).sub(bb.add(cc))),
            },
        }
    }

    // The rotation: none where N is no unit.
    pub fn rotation(self) -> Option<Matrix3<R>>
        ensures { option_map (matrix R.Ring.value) result ≡ rotation R.Ring.ring (quaternion R.Ring.value self) }
    {
        let i = self.norm().inverse()?;
        Some(self.rows(i))
    }
}

fn twice<R: Ring>(x: R) -> R
    ensures { R.Ring.value result ≡ R.Ring.ring.add (R.Ring.value x) (R.Ring.value x) }
{
    x.add(x)
}
