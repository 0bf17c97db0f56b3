// Making a rig, and adding joints to it.
ghost use Rattle.std.specs.Prelude.{◌≡◌, ℕ, ◌+◌, ◌<◌, ◌≤◌, length, replicate, slice_set, Some, Ok, Err};
ghost use Rattle.linear.specs.Matrices.{matrix};
ghost use Rattle.rotation.specs.Rotations.{quaternion, rotation as rotation_of};
ghost use Rattle.rig.specs.Tables.{blank_row, with_row};
ghost use Rattle.rig.specs.Questions.{first_no, answered, adding};
ghost use Rattle.rig.specs.Calls.{Begun, Fresh, Added, TrueToGiven};

use crate::rig::Rig;
use crate::rig::asking::within;
use crate::slot::Slot;
use crate::table::{Row, Table};
use joint::JointKind;
use linear::Matrix3;
use refusal::Refusal;
use ring::Ring;
use rotation::Quaternion;
use spatial::{Link, Placement};
use triple::Triple;

impl<'a, R: Ring> Rig<'a, R> {
    // A rig without joints and without gravity.
    pub fn new(slots: &'a mut [Slot<R>]) -> Rig<'a, R>
        ensures n { result.n ≡ 0 }
        ensures table { result.table.rows ≡ replicate 24 blank_row }
        ensures slots { Begun R.Ring.ring R.Ring.value slots.old result.slots.now }
        ensures given { TrueToGiven R.Ring.ring R.Ring.value result }
        ensures lent { result.slots.ghost_name ≡ slots.entry.ghost_name }
    {
        if slots.len() > 0 {
            slots[0].gravity = Triple::zero();
        }
        Rig {
            slots,
            table: Table {
                rows: [Row {
                    parent: 0,
                    kind: JointKind::Revolute,
                }; 24],
            },
            n: 0,
        }
    }

    // One joint more, at rest: answers its number. Any byte may be a caller's letter, and gets its answer.
    pub fn add(
        &mut self,
        parent: i64,
        letter: u8,
        offset: Triple<R>,
        turn: Quaternion<R>,
        link: Link<R>,
    ) -> Result<usize, Refusal>
        ensures answer { result ≡ answered (self.old.n + 1) (first_no (adding R.Ring.ring self.old.n (length self.old.slots.now) parent letter (quaternion R.Ring.value turn))) }
        ensures after { elim result [ Ok _ ↦ Added R.Ring.ring R.Ring.value self.old self.new parent letter offset turn link | Err _ ↦ self.new ≡ self.old ] }
        ensures keeps { TrueToGiven R.Ring.ring R.Ring.value self.old → TrueToGiven R.Ring.ring R.Ring.value self.new }
        ensures lent { self.new.slots.ghost_name ≡ self.old.slots.ghost_name }
    {
        if self.n >= 24 || self.n + 1 >= self.slots.len() {
            return Err(Refusal::NoSlot);
        }
        let parent = within(parent, 0, self.n).ok_or(Refusal::NoParent)?;
        let kind = JointKind::try_from(letter)?;
        let rotation = turn.rotation().ok_or(Refusal::NoRotation)?;
        let slot = at_rest(kind, Placement { rotation, offset }, turn, link);
        Ok(self.push(Row { parent, kind }, slot))
    }

    // The next joint's row and slot, where there is room for both.
    fn push(&mut self, row: Row, slot: Slot<R>) -> usize
        requires few { self.old.n < 24 }
        requires fit { self.old.n + 1 < length self.old.slots.now }
        requires low { row.parent ≤ self.old.n }
        ensures number { result ≡ self.old.n + 1 }
        ensures n { self.new.n ≡ self.old.n + 1 }
        ensures table { self.new.table ≡ with_row self.old.table self.old.n row }
        ensures slots { self.new.slots.now ≡ slice_set self.old.slots.now (self.old.n + 1) slot }
        ensures lent { self.new.slots.ghost_name ≡ self.old.slots.ghost_name }
    {
        let k = self.n;
        self.slots[k + 1] = slot;
        self.table.rows[k] = row;
        self.n = k + 1;
        self.n
    }
}

// The slot of a joint at position zero that does not move: its own placement is the identity, whatever its kind.
fn at_rest<R: Ring>(
    kind: JointKind,
    fixed: Placement<R>,
    turn: Quaternion<R>,
    link: Link<R>,
) -> Slot<R>
    ensures { rotation_of R.Ring.ring (quaternion R.Ring.value turn) ≡ Some (matrix R.Ring.value fixed.rotation) → Fresh R.Ring.ring R.Ring.value kind fixed.offset turn link result }
{
    Slot {
        turn,
        fixed,
        link,
        ..Slot::blank()
    }
}
