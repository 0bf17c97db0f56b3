// What a kind of number gives, and the laws that it keeps.
ghost use Rattle.std.specs.Prelude.{◌≡◌, ℕ, ◌-◌, ◌^◌, min, List};
ghost use Rattle.std.specs.Option.{option_map};
ghost use Rattle.std.specs.List.{slice_get};
ghost use Rattle.ring.specs.CommRing.{CommRing, Tells, difference};
ghost use Rattle.ring.specs.Parts.{Parts};
ghost use Rattle.ring.specs.Whole.{copies, whole as enters};

pub trait Ring: Copy {
    // The numbers, and the ring that they are.
    ghost Num: { Type 0 };

    ghost ring: { CommRing Num };

    // The number that a value stands for. Several values may stand for one number.
    ghost value: { Self → Num };

    // The parts of a number: as many for each, below 2^32, and equal only for equal numbers.
    ghost count: { ℕ };

    ghost parts: { Num → List ℕ };

    ghost told: { Parts count parts };

    fn zero() -> Self
        ensures { value result ≡ ring.zero };

    fn one() -> Self
        ensures { value result ≡ ring.one };

    fn add(self, other: Self) -> Self
        ensures { value result ≡ ring.add (value self) (value other) };

    fn neg(self) -> Self
        ensures { value result ≡ ring.neg (value self) };

    fn mul(self, other: Self) -> Self
        ensures { value result ≡ ring.mul (value self) (value other) };

    // A number less another. A ring that has a shorter way may take it.
    fn sub(self, other: Self) -> Self
        ensures { value result ≡ difference ring (value self) (value other) }
    {
        self.add(other.neg())
    }

    // This number times `factor`, and `term` more. A ring that has a shorter way may take it.
    fn mul_add(self, factor: Self, term: Self) -> Self
        ensures { value result ≡ ring.add (ring.mul (value self) (value factor)) (value term) }
    {
        self.mul(factor).add(term)
    }

    // Whether two values stand for one number.
    fn equals(self, other: Self) -> bool
        ensures { Tells (value self) (value other) result };

    // The number that this one multiplies to one, or none where no number does.
    fn inverse(self) -> Option<Self>
        ensures { option_map value result ≡ ring.inverse (value self) };

    // How many parts a number has, or the largest usize where there are more.
    fn part_count() -> usize
        ensures { result ≡ min count (2 ^ 64 - 1) };

    // The part at `i`, counted from 0.
    fn part(self, i: usize) -> Option<u32>
        ensures { result ≡ slice_get (parts (value self)) i };

    // `n` ones added, by doubling. A ring that has a shorter way may take it.
    fn natural(n: u64) -> Self
        ensures { value result ≡ copies ring n ring.one }
    {
        let mut sum = Self::zero();
        let mut power = Self::one();
        let mut rest = n;
        while rest > 0 {
            if rest % 2 == 1 {
                sum = sum.add(power);
            }
            power = power.add(power);
            rest = rest / 2;
        }
        sum
    }
}

// The whole number `k` as it enters a ring: `k` ones added, or `-k` negatives of one.
pub fn whole<R: Ring>(k: i64) -> R
    ensures { R.Ring.value result ≡ enters R.Ring.ring k }
{
    let size = R::natural(k.unsigned_abs());
    if k < 0 { size.neg() } else { size }
}
