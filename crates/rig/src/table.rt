// Which joint stands on which, and how it moves.
use joint::JointKind;

// The base is 0 here, as it is to callers and in the definitions; slot 0 and work entry 0 are its own.
#[derive(Clone, Copy)]
pub struct Row {
    pub parent: usize,
    pub kind: JointKind,
}

// Row k is of joint k + 1. A rig allocates nothing: its rows lie in it, and its count of joints beside them.
#[derive(Clone, Copy)]
pub struct Table {
    pub rows: [Row; 24],
}
