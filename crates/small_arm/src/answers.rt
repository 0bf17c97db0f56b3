// What the calls of a rig answer, as text.
ghost use Rattle.std.specs.Prelude.{◌++◌, Some, codes};
ghost use Rattle.std.specs.Fmt.{decimal};

use std::fmt;

// A call that answers nothing is done.
#[derive(Clone, Copy)]
pub struct Done;

impl fmt::Display for Done {
    ghost output = { λ _. Some (codes "done") };

    fn fmt<W: fmt::Write>(&self, f: &mut fmt::Formatter<W>) -> fmt::Result {
        f.write_str("done")
    }
}

// The number of the joint that was added.
#[derive(Clone, Copy)]
pub struct Joint(pub usize);

impl fmt::Display for Joint {
    ghost output = { λ joint. Some (codes "joint " ++ decimal joint.0) };

    fn fmt<W: fmt::Write>(&self, f: &mut fmt::Formatter<W>) -> fmt::Result {
        let number = self.0;
        write!(f, "joint {number}")
    }
}
