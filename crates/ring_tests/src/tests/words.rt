// Rings whose numbers are words. Any word may stand for a number, and what is worked out is the least.
use crate::tests::common::parts_are;
use residue::{Residue, RingA, RingB};
use ring::Ring;
use std::process::Abort;
use word::{RingW, Word};

// A number that one word holds: the checks look at the word, since equal numbers may differ in it.
trait Stored: Ring {
    fn of(word: u32) -> Self;

    fn word(self) -> u32;
}

impl<const M: u32> Stored for Residue<M> {
    fn of(word: u32) -> Residue<M> {
        Residue { word }
    }

    fn word(self) -> u32 {
        self.word
    }
}

impl Stored for Word {
    fn of(word: u32) -> Word {
        Word { word }
    }

    fn word(self) -> u32 {
        self.word
    }
}

// A word, its part, and the words of its negative and its inverse.
type Single = (u32, u32, u32, Option<u32>);

// Two words, and the words of their sum, difference and product.
type Pair = (u32, u32, u32, u32, u32);

fn single_holds<R: Stored>(rt: &impl Abort, row: Single) {
    let (word, part, negative, inverse) = row;
    let x = R::of(word);
    parts_are(rt, x, &[part]);
    assert_eq!(rt; x.neg().word(), negative, "of {word}");
    assert_eq!(rt; x.inverse().map(|i| i.word()), inverse, "of {word}");
}

fn pair_holds<R: Stored>(rt: &impl Abort, row: Pair) {
    let (a, b, sum, difference, product) = row;
    let x = R::of(a);
    let y = R::of(b);
    assert_eq!(rt; x.add(y).word(), sum, "of {a} and {b}");
    assert_eq!(rt; x.sub(y).word(), difference, "of {a} and {b}");
    assert_eq!(rt; x.mul(y).word(), product, "of {a} and {b}");
    assert_eq!(rt; x.equals(y), difference == 0, "of {a} and {b}");
}

fn hold<R: Stored>(rt: &impl Abort, singles: &[Single], pairs: &[Pair]) {
    for row in singles {
        single_holds::<R>(rt, *row);
    }
    for row in pairs {
        pair_holds::<R>(rt, *row);
    }
}

const SINGLES_A: [Single; 8] = [
    (0, 0, 0, None),
    (2147483647, 0, 0, None),
    (4294967294, 0, 0, None),
    (2147483648, 1, 2147483646, Some(1)),
    (4294967295, 1, 2147483646, Some(1)),
    (2147483646, 2147483646, 1, Some(2147483646)),
    (2, 2, 2147483645, Some(1073741824)),
    (3000000000, 852516353, 1294967294, Some(322676610)),
];

const PAIRS_A: [Pair; 7] = [
    (0, 2147483647, 0, 0, 0),
    (2147483647, 2147483648, 1, 2147483646, 0),
    (2147483648, 4294967295, 2, 0, 1),
    (4294967295, 4294967295, 2, 0, 1),
    (2147483646, 2147483646, 2147483645, 0, 1),
    (4294967294, 2, 2, 2147483645, 0),
    (3000000000, 123456789, 975973142, 729059564, 2057656773),
];

const SINGLES_B: [Single; 10] = [
    (0, 0, 0, None),
    (65521, 0, 0, None),
    (4294967071, 0, 0, None),
    (65522, 1, 65520, Some(1)),
    (4294967295, 224, 65297, Some(32468)),
    (65520, 65520, 1, Some(65520)),
    (2, 2, 65519, Some(32761)),
    // 1 + 24297^2 and 1 + 41224^2, where the square is -1, and 1 + 24298^2
    (590344210, 0, 0, None),
    (1699418177, 0, 0, None),
    (590392805, 48595, 16926, Some(29594)),
];

const PAIRS_B: [Pair; 7] = [
    (0, 65521, 0, 0, 0),
    (65521, 65522, 1, 65520, 0),
    (65522, 4294967295, 225, 65298, 224),
    (4294967295, 4294967295, 448, 0, 50176),
    (65520, 65520, 65519, 0, 1),
    (4294967071, 2, 2, 65519, 0),
    (3000000000, 123456789, 5198, 40269, 2855),
];

const SINGLES_W: [Single; 8] = [
    (0, 0, 0, None),
    (2, 2, 4294967294, None),
    (2147483648, 2147483648, 2147483648, None),
    (4294967294, 4294967294, 2, None),
    (1, 1, 4294967295, Some(1)),
    (3, 3, 4294967293, Some(2863311531)),
    (4294967295, 4294967295, 1, Some(4294967295)),
    (123456789, 123456789, 4171510507, Some(102505021)),
];

const PAIRS_W: [Pair; 7] = [
    (0, 0, 0, 0, 0),
    (4294967295, 4294967295, 4294967294, 0, 1),
    (4294967295, 1, 0, 4294967294, 4294967295),
    (3, 2863311531, 2863311534, 1431655768, 1),
    (65536, 65536, 131072, 0, 0),
    (0, 1, 1, 4294967295, 0),
    (3000000000, 123456789, 3123456789, 2876543211, 4032673280),
];

#[test]
fn modulo_2147483647(rt: HostRuntime) {
    hold::<RingA>(&rt, &SINGLES_A, &PAIRS_A);
}

#[test]
fn modulo_65521(rt: HostRuntime) {
    hold::<RingB>(&rt, &SINGLES_B, &PAIRS_B);
}

#[test]
fn modulo_2_to_32(rt: HostRuntime) {
    hold::<RingW>(&rt, &SINGLES_W, &PAIRS_W);
}
