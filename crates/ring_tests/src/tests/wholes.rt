// Whole numbers as they enter rings.
use crate::fifteen::Fifteen;
use crate::tests::common::parts_are;
use dual::Dual;
use residue::{RingA, RingB};
use ring::whole;
use word::RingW;

// A whole number, and what it is modulo 2147483647, 65521, 2^32 and 15.
const ENTERED: [(i64, u32, u32, u32, u8); 6] = [
    (i64::MIN, 2147483645, 7448, 0, 7),
    (i64::MAX, 1, 58072, 4294967295, 7),
    (-1, 2147483646, 65520, 4294967295, 14),
    (0, 0, 0, 0, 0),
    (-9999999999, 737418236, 11584, 2884901889, 6),
    (99999999999, 1215752237, 15211, 1215752191, 9),
];

#[test]
fn enter_modulo(rt: HostRuntime) {
    for (k, a, b, w, fifteen) in ENTERED {
        assert_eq!(rt; whole::<RingA>(k).word, a);
        assert_eq!(rt; whole::<RingB>(k).word, b);
        assert_eq!(rt; whole::<RingW>(k).word, w);
        assert_eq!(rt; whole::<Fifteen>(k).digit, fifteen);
    }
}

// As a dual number a whole number has no second part.
#[test]
fn enter_duals(rt: HostRuntime) {
    for (k, a, _, _, fifteen) in ENTERED {
        parts_are(&rt, whole::<Dual<RingA>>(k), &[a, 0]);
        parts_are(
            &rt,
            whole::<Dual<Dual<Fifteen>>>(k),
            &[fifteen as u32, 0, 0, 0],
        );
    }
}
