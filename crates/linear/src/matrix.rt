// Matrices of three rows.
ghost use Rattle.std.specs.Prelude.{◌≡◌};
ghost use Rattle.triple.specs.Ops.{ops};
ghost use Rattle.triple.specs.Triples.{triple};
ghost use Rattle.linear.specs.Matrices.{matrix, transposed, times, matrix_add, conjugate, cross_columns, minus_outer};

use ring::Ring;
use std::ops::Add;
use triple::Triple;

// By rows.
#[derive(Clone, Copy)]
pub struct Matrix3<R> {
    pub x: Triple<R>,
    pub y: Triple<R>,
    pub z: Triple<R>,
}

impl<R: Ring> Add<Matrix3<R>> for Matrix3<R> {
    type Output = Matrix3<R>;

    ghost add_gives = { λ a b r. matrix R.Ring.value r ≡ matrix_add (ops R.Ring.ring) (matrix R.Ring.value a) (matrix R.Ring.value b) };

    fn add(self, other: Matrix3<R>) -> Matrix3<R> {
        Matrix3 {
            x: self.x + other.x,
            y: self.y + other.y,
            z: self.z + other.z,
        }
    }
}

impl<R: Ring> Matrix3<R> {
    // 9 products.
    pub fn apply(self, a: Triple<R>) -> Triple<R>
        ensures { triple R.Ring.value result ≡ times (ops R.Ring.ring) (matrix R.Ring.value self) (triple R.Ring.value a) }
    {
        Triple {
            x: self.x.dot(a),
            y: self.y.dot(a),
            z: self.z.dot(a),
        }
    }

    pub fn transpose(self) -> Matrix3<R>
        ensures { matrix R.Ring.value result ≡ transposed (matrix R.Ring.value self) }
    {
        let Matrix3 { x, y, z } = self;
        Matrix3 {
            x: Triple {
                x: x.x,
                y: y.x,
                z: z.x,
            },
            y: Triple {
                x: x.y,
                y: y.y,
                z: z.y,
            },
            z: Triple {
                x: x.z,
                y: y.z,
                z: z.z,
            },
        }
    }

    // E' C E, where this is C: 54 products.
    pub fn conjugate(self, e: Matrix3<R>) -> Matrix3<R>
        ensures { matrix R.Ring.value result ≡ conjugate (ops R.Ring.ring) (matrix R.Ring.value e) (matrix R.Ring.value self) }
    {
        let f = e.transpose();
        let g = Matrix3 {
            x: self.apply(f.x),
            y: self.apply(f.y),
            z: self.apply(f.z),
        };
        Matrix3 {
            x: g.apply(f.x),
            y: g.apply(f.y),
            z: g.apply(f.z),
        }
    }

    // r × each column: 18 products.
    pub fn cross_columns(self, r: Triple<R>) -> Matrix3<R>
        ensures { matrix R.Ring.value result ≡ cross_columns (ops R.Ring.ring) (triple R.Ring.value r) (matrix R.Ring.value self) }
    {
        Matrix3 {
            x: self.z.scale(r.y) - self.y.scale(r.z),
            y: self.x.scale(r.z) - self.z.scale(r.x),
            z: self.y.scale(r.x) - self.x.scale(r.y),
        }
    }

    // Less a b': 9 products.
    pub fn minus_outer(self, a: Triple<R>, b: Triple<R>) -> Matrix3<R>
        ensures { matrix R.Ring.value result ≡ minus_outer (ops R.Ring.ring) (triple R.Ring.value a) (triple R.Ring.value b) (matrix R.Ring.value self) }
    {
        Matrix3 {
            x: self.x - b.scale(a.x),
            y: self.y - b.scale(a.y),
            z: self.z - b.scale(a.z),
        }
    }
}
