// The refusals by their numbers, and the joints that they name.
use refusal::Refusal;

#[test]
fn numbers(rt: HostRuntime) {
    let table = [
        (Refusal::NoSlot, 1, 0),
        (Refusal::NoParent, 2, 0),
        (Refusal::NoKind, 3, 0),
        (Refusal::NoRotation, 4, 0),
        (Refusal::NoJoint, 5, 0),
        (Refusal::NoPosition(3), 6, 3),
        (Refusal::ShortResult, 7, 0),
        (Refusal::ShortWork, 8, 0),
    ];
    for (refusal, number, joint) in table {
        assert_eq!(rt; refusal.number(), number);
        assert_eq!(rt; refusal.joint(), joint);
    }
}
