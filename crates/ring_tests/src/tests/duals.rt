// Dual numbers over the integers modulo 2147483647.
use crate::tests::common::{parts_are, unit_is};
use dual::Dual;
use residue::RingA;
use ring::Ring;
use std::test::Fail;

fn dual(a: u32, b: u32) -> Dual<RingA> {
    Dual {
        first: RingA { word: a },
        second: RingA { word: b },
    }
}

// The parts are the first number's, and then the second's.
#[test]
fn parts_come_in_order(rt: HostRuntime) {
    parts_are(&rt, RingA { word: 4294967295 }, &[1]);
    parts_are(&rt, dual(2147483650, 4), &[3, 4]);
    let deep = Dual {
        first: dual(5, 2147483653),
        second: dual(7, 8),
    };
    parts_are(&rt, deep, &[5, 6, 7, 8]);
}

// The words of a + b e, and the parts of its inverse.
const UNITS: [(u32, u32, u32, u32); 5] = [
    (2, 0, 1073741824, 0),
    (2, 3, 1073741824, 536870911),
    (2147483646, 1, 2147483646, 2147483646),
    (4294967295, 2147483648, 1, 2147483646),
    (3000000000, 123456789, 322676610, 1957717460),
];

#[test]
fn units_have_inverses(rt: HostRuntime) -> Result<(), Fail> {
    for (a, b, i, j) in UNITS {
        let x = dual(a, b);
        let inverse = x.inverse().ok_or("a unit has an inverse")?;
        parts_are(&rt, inverse, &[i, j]);
        parts_are(&rt, x.mul(inverse), &[1, 0]);
    }
    Ok(())
}

// e times itself is zero, so e has no inverse; nor has what stands for zero plus a multiple of e.
#[test]
fn multiples_of_e_have_no_inverse(rt: HostRuntime) {
    parts_are(&rt, dual(0, 1).mul(dual(0, 1)), &[0, 0]);
    unit_is(&rt, dual(0, 1), false);
    unit_is(&rt, dual(2147483647, 2147483648), false);
    unit_is(&rt, dual(4294967294, 5), false);
}
