// Numbers a + b e with e e = 0, over any ring.
ghost use Rattle.std.specs.Prelude.{◌≡◌, ◌+◌};
ghost use Rattle.ring.specs.RingMap.{RingMap};
ghost use Rattle.dual.specs.DualNumbers.{dual_map, first_part, duals, dual_parts, dual_parts_tell};
ghost use Rattle.dual.specs.declared.dual.Dual.{Dual as Pair};

use ring::Ring;

#[derive(Clone, Copy)]
pub struct Dual<R> {
    pub first: R,
    pub second: R,
}

impl<R: Ring> Dual<R> {
    // The first part. First parts are worked out from first parts alone: taking them is a map of rings.
    pub fn first_part(self) -> R
        ensures is { R.Ring.value result ≡ first_part (dual_map R.Ring.value self) }
        ensures maps { RingMap (duals R.Ring.ring) R.Ring.ring first_part }
    {
        let Dual { first, .. } = self;
        first
    }
}

impl<R: Ring> Ring for Dual<R> {
    ghost Num = { Pair R.Ring.Num };

    ghost ring = { duals R.Ring.ring };

    ghost value = { dual_map R.Ring.value };

    ghost count = { R.Ring.count + R.Ring.count };

    ghost parts = { dual_parts R.Ring.parts };

    ghost told = { dual_parts_tell R.Ring.told };

    fn zero() -> Dual<R> {
        Dual {
            first: R::zero(),
            second: R::zero(),
        }
    }

    fn one() -> Dual<R> {
        Dual {
            first: R::one(),
            second: R::zero(),
        }
    }

    fn add(self, other: Dual<R>) -> Dual<R> {
        Dual {
            first: self.first.add(other.first),
            second: self.second.add(other.second),
        }
    }

    fn neg(self) -> Dual<R> {
        Dual {
            first: self.first.neg(),
            second: self.second.neg(),
        }
    }

    fn mul(self, other: Dual<R>) -> Dual<R> {
        Dual {
            first: self.first.mul(other.first),
            second: self
                .first
                .mul_add(other.second, self.second.mul(other.first)),
        }
    }

    fn sub(self, other: Dual<R>) -> Dual<R> {
        Dual {
            first: self.first.sub(other.first),
            second: self.second.sub(other.second),
        }
    }

    fn mul_add(self, factor: Dual<R>, term: Dual<R>) -> Dual<R> {
        let beside = self.second.mul_add(factor.first, term.second);
        Dual {
            first: self.first.mul_add(factor.first, term.first),
            second: self.first.mul_add(factor.second, beside),
        }
    }

    fn equals(self, other: Dual<R>) -> bool {
        self.first.equals(other.first) & self.second.equals(other.second)
    }

    fn inverse(self) -> Option<Dual<R>> {
        let first = self.first.inverse()?;
        Some(Dual {
            first,
            second: self.second.mul(first).mul(first).neg(),
        })
    }

    fn part_count() -> usize {
        R::part_count().saturating_add(R::part_count())
    }

    fn part(self, i: usize) -> Option<u32> {
        self.first
            .part(i)
            .or_else(|| self.second.part(i - R::part_count()))
    }

    fn natural(n: u64) -> Dual<R> {
        Dual {
            first: R::natural(n),
            second: R::zero(),
        }
    }
}
