// Whole numbers modulo 15, each as a digit. Any u8 is a digit: 0, 15 and 30 stand for one number.
ghost use Rattle.ring_tests.specs.Fifteen.{Number, fifteens, fifteen_value, one_part, one_part_tells};

use ring::Ring;

#[derive(Clone, Copy)]
pub struct Fifteen {
    pub digit: u8,
}

// The bodies of `sub`, `mul_add` and `natural` are the trait's own: they need no more than what stands here.
impl Ring for Fifteen {
    ghost Num = { Number };

    ghost ring = { fifteens };

    ghost value = { fifteen_value };

    ghost count = { 1 };

    ghost parts = { one_part };

    ghost told = { one_part_tells };

    fn zero() -> Fifteen {
        Fifteen { digit: 0 }
    }

    fn one() -> Fifteen {
        Fifteen { digit: 1 }
    }

    fn add(self, other: Fifteen) -> Fifteen {
        Fifteen {
            digit: (self.digit % 15 + other.digit % 15) % 15,
        }
    }

    fn neg(self) -> Fifteen {
        Fifteen {
            digit: (15 - self.digit % 15) % 15,
        }
    }

    fn mul(self, other: Fifteen) -> Fifteen {
        Fifteen {
            digit: (self.digit % 15) * (other.digit % 15) % 15,
        }
    }

    fn equals(self, other: Fifteen) -> bool {
        self.digit % 15 == other.digit % 15
    }

    // There are so few numbers that each is tried.
    fn inverse(self) -> Option<Fifteen> {
        (0..15)
            .map(|digit| Fifteen { digit })
            .find(|other| self.mul(*other).equals(Fifteen::one()))
    }

    fn part_count() -> usize {
        1
    }

    fn part(self, i: usize) -> Option<u32> {
        (i == 0).then_some((self.digit % 15) as u32)
    }
}
