// The numbers modulo 15, and dual numbers over them.
use crate::fifteen::Fifteen;
use crate::slope::cube_slope;
use crate::tests::common::{parts_are, unit_is};
use dual::Dual;
use ring::{Ring, whole};

// Each number modulo 15 is there three times among the digits below 45.
#[test]
fn digits_are_read_modulo_15(rt: HostRuntime) {
    for a in 0..45u8 {
        for b in 0..45u8 {
            let (x, y) = (Fifteen { digit: a }, Fifteen { digit: b });
            assert_eq!(rt; x.add(y).digit, (a + b) % 15);
            assert_eq!(rt; x.sub(y).digit, (a + 45 - b) % 15);
            assert_eq!(rt; x.mul(y).digit as u32, a as u32 * b as u32 % 15);
            assert_eq!(rt; x.equals(y), a % 15 == b % 15);
        }
        let x = Fifteen { digit: a };
        assert_eq!(rt; x.neg().digit, (45 - a) % 15);
        parts_are(&rt, x, &[a as u32 % 15]);
    }
}

// By the number: its inverse, which it has where 3 and 5 do not divide it.
const INVERSES: [Option<u8>; 15] = [
    None,
    Some(1),
    Some(8),
    None,
    Some(4),
    None,
    None,
    Some(13),
    Some(2),
    None,
    None,
    Some(11),
    None,
    Some(7),
    Some(14),
];

#[test]
fn units_are_coprime_to_15(rt: HostRuntime) {
    for (digit, inverse) in (0..15u8).zip(INVERSES) {
        let x = Fifteen { digit };
        assert_eq!(rt; x.inverse().map(|y| y.digit), inverse);
        unit_is(&rt, x, digit % 3 != 0 && digit % 5 != 0);
    }
}

#[test]
fn dual_units_have_first_parts_coprime_to_15(rt: HostRuntime) {
    for a in 0..15u8 {
        for b in 0..15u8 {
            let x = Dual {
                first: Fifteen { digit: a },
                second: Fifteen { digit: b },
            };
            unit_is(&rt, x, a % 3 != 0 && a % 5 != 0);
        }
    }
}

// The slope of the cube of x is 3 x x, and the slope of that is 6 x.
#[test]
fn cubes_have_their_slopes(rt: HostRuntime) {
    for digit in 0..15u8 {
        let x = Fifteen { digit };
        let slope = whole::<Fifteen>(3).mul(x).mul(x);
        assert!(rt; cube_slope(x).equals(slope));
        let near = Dual {
            first: x,
            second: Fifteen::one(),
        };
        let slopes = cube_slope(near);
        assert!(rt; slopes.first.equals(slope));
        assert!(rt; slopes.second.equals(whole::<Fifteen>(6).mul(x)));
    }
}
