// The composite-rigid-body algorithm: the mass matrix of what a rig holds.
ghost use Rattle.std.specs.Prelude.{◌≡◌, ℕ, suc, ◌+◌, ◌-◌, ◌*◌, ◌<◌, ◌≤◌, length, Ok, Err, slice_set};
ghost use Rattle.dynamics.specs.Entries.{rows};
ghost use Rattle.dynamics.specs.Recursions.{masses};
ghost use Rattle.rig.specs.Holds.{rig_holds};
ghost use Rattle.rig.specs.Questions.{first_no, answered, showing};
ghost use Rattle.rig.specs.Shows.{Shown};
ghost use Rattle.rig.specs.Cells.{cell, Both, Past, Zeros, Climbs, OwnInertias};

use crate::rig::Rig;
use crate::work::Work;
use inertia::Inertia;
use motion::Force;
use refusal::Refusal;
use ring::Ring;

impl<'a, R: Ring> Rig<'a, R> {
    // K of each joint begins as the inertia of its own link.
    fn own_inertias(&self, work: &mut [Work<R>])
        requires { self.now.n < length work.old }
        ensures { OwnInertias R.Ring.ring R.Ring.value (rig_holds R.Ring.ring R.Ring.value self.now) self.now.n work.new }
    {
        for i in 1..=self.n {
            work[i].inertia = Inertia::from(self.joint(i).slot.link);
        }
    }

    // The force of joint `i`, step by step to the base: at each joint on the way, S·F is an entry of row i and of column i.
    fn climb(&self, i: usize, force: Force<R>, res: &mut [R])
        requires joint { (0 < i) × (i ≤ self.now.n) }
        requires room { self.now.n * self.now.n ≤ length res.old }
        requires clear { (b : ℕ) → b ≤ i - 1 → Both R.Ring.value self.now.n res.old (i - 1) b R.Ring.ring.zero }
        ensures { Climbs R.Ring.ring R.Ring.value (rig_holds R.Ring.ring R.Ring.value self.now) self.now.n (i - 1) force res.old res.new }
    {
        let mut j = i;
        let mut f = force;
        'steps: loop {
            let joint = self.joint(j);
            let pose = joint.pose();
            put_both(res, self.n, i - 1, j - 1, pose.component(f));
            let p = joint.row.parent;
            if p == 0 {
                return;
            }
            f = pose.inward(f);
            j = p;
        }
    }

    // Inward from the last joint: K S gives entries on the way to the base, and K is carried to the parent's.
    fn composites(&self, res: &mut [R], work: &mut [Work<R>])
        requires room { self.now.n * self.now.n ≤ length res.old }
        requires long { self.now.n < length work.old }
        requires own { OwnInertias R.Ring.ring R.Ring.value (rig_holds R.Ring.ring R.Ring.value self.now) self.now.n work.old }
        requires clear { Zeros R.Ring.ring R.Ring.value (self.now.n * self.now.n) res.old }
        ensures { Shown R.Ring.value (self.now.n * self.now.n) (rows self.now.n self.now.n (masses R.Ring.ring (rig_holds R.Ring.ring R.Ring.value self.now))) res.old res.new }
    {
        for i in (1..=self.n).rev() {
            let joint = self.joint(i);
            let pose = joint.pose();
            let inertia = work[i].inertia;
            self.climb(i, pose.column(inertia), res);
            let p = joint.row.parent;
            if p > 0 {
                let sum = work[p].inertia + pose.carried(inertia);
                work[p].inertia = sum;
            }
        }
    }

    // The mass matrix, row by row, into the first n × n entries of the result list.
    pub fn show_matrix(&self, res: &mut [R], work: &mut [Work<R>]) -> Result<(), Refusal>
        ensures answer { result ≡ answered tt (first_no (showing self.now.n (self.now.n * self.now.n) (length res.old) (length work.old))) }
        ensures shown { elim result [ Ok _ ↦ Shown R.Ring.value (self.now.n * self.now.n) (rows self.now.n self.now.n (masses R.Ring.ring (rig_holds R.Ring.ring R.Ring.value self.now))) res.old res.new | Err _ ↦ (res.new ≡ res.old) × (work.new ≡ work.old) ] }
    {
        let entries = self.n * self.n;
        self.check_lists(entries, res, work)?;
        clear(&mut res[..entries]);
        self.own_inertias(work);
        self.composites(res, work);
        Ok(())
    }
}

// Zero into every entry.
fn clear<R: Ring>(list: &mut [R])
    ensures { Zeros R.Ring.ring R.Ring.value (length list.old) list.new }
{
    let zero = R::zero();
    for entry in list {
        *entry = zero;
    }
}

// `x` into the entries (a, b) and (b, a) of a matrix of side `n`, rows and columns counted from 0.
fn put_both<R: Copy>(matrix: &mut [R], n: usize, a: usize, b: usize, x: R)
    requires few { n ≤ 24 }
    requires row { a < n }
    requires column { b < n }
    requires room { n * n ≤ length matrix.old }
    ensures { matrix.new ≡ slice_set (slice_set matrix.old (cell n a b) x) (cell n b a) x }
{
    matrix[a * n + b] = x;
    matrix[b * n + a] = x;
}
