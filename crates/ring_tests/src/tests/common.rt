// What is checked of numbers of any kind.
use ring::Ring;
use std::process::Abort;

// `x` has these parts, in this order, and no more.
pub(crate) fn parts_are<R: Ring>(rt: &impl Abort, x: R, parts: &[u32]) {
    assert_eq!(rt; R::part_count(), parts.len());
    for (i, part) in parts.iter().enumerate() {
        assert_eq!(rt; x.part(i), Some(*part), "at {i}");
    }
    assert_eq!(rt; x.part(parts.len()), None);
    assert_eq!(rt; x.part(usize::MAX), None);
}

// `x` is a unit just where `expected` says so, and times its inverse it is one.
pub(crate) fn unit_is<R: Ring>(rt: &impl Abort, x: R, expected: bool) {
    let comes_to_one = x.inverse().map(|i| x.mul(i).equals(R::one()));
    assert_eq!(rt; comes_to_one, expected.then_some(true));
}
