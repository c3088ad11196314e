// The composition so far, and what each pair of runs adds to it.
ghost use Rattle.std.specs.Prelude.{◌≡◌, ◌<◌, ◌+◌, [], None, List, length, map, IfOk, OnOk, MatchResult};
ghost use Rattle.doc_op.specs.Actions.{Action, actions, insertion, deletion};
ghost use Rattle.doc_op.specs.Normal.{normal_form};
ghost use Rattle.doc_op.specs.Runs.{contents};
ghost use Rattle.op_compose.specs.Compose.{compose};
ghost use Rattle.op_runs.specs.Kept.{kept_actions, IsFitKept};
ghost use Rattle.op_compose.specs.Weaves.{expects, Passed, PassedSecond, Refused, HasRoom, Grows, IsInStep};

use crate::ComposeFault;
use crate::kept::write_both;
use crate::output::{delete_before, insert_after};
use change_table::{ChangeTable, Joint, Touched};
use change_view::{ChangeView, Rule, Test};
use doc_items::Memory;
use doc_op::{ContentRun, DocOp, NormalBuilder};
use op_runs::{Kept, common};
use std::alloc::Global;

/// What comes out so far, and how many items that the first operation gives are passed.
pub(crate) struct Weave {
    pub out: NormalBuilder,
    pub place: u64,
    /// The keys at which a change started or ended in either operation since the last pair of runs that both keep; any key at the
    /// beginning and after other runs.
    pub touched: Touched,
}

impl Drop for Weave {
    fn drop(self) {
        let Weave {
            out: _out,
            place: _,
            touched: _touched,
        } = self;
    }
}

impl Weave {
    /// Nothing is passed.
    #[tactic(auto, using(crate::proofs::Fronts::ahead_none))]
    pub fn new(alloc: Global) -> Weave
        ensures start { (f s : List Action) → expects result f s ≡ compose f s }
        ensures out { result.out ≡ [] }
        ensures place { result.place ≡ 0 }
        ensures touched { result.touched ≡ None }
    {
        Weave {
            out: NormalBuilder::new(alloc),
            place: 0,
            touched: Touched::any(),
        }
    }

    /// The first operation deletes.
    pub fn delete_first(
        &mut self,
        alloc: Global,
        run: ContentRun<'_>,
        changes: &ChangeView<'_>,
    ) -> Result<(), Memory>
        requires { HasRoom self.old (length (contents run)) }
        ensures passed { IfOk result (λ _. Passed self.old (map (deletion changes.now) (contents run.entry)) [] self.new) }
        ensures room { IfOk result (λ _. Grows self.old (length (contents run.entry)) self.new) }
        ensures touched { OnOk result (self.new.touched ≡ None) }
    {
        self.touched.forget();
        self.out.delete(alloc, run, changes)?;
        Ok(())
    }

    /// The second operation inserts, and the first doesn't delete.
    pub fn insert_second(
        &mut self,
        alloc: Global,
        run: ContentRun<'_>,
        changes: &ChangeView<'_>,
    ) -> Result<(), Memory>
        requires { HasRoom self.old (length (contents run)) }
        ensures passed { IfOk result (λ _. PassedSecond self.old (map (insertion changes.now) (contents run.entry)) self.new) }
        ensures room { IfOk result (λ _. Grows self.old (length (contents run.entry)) self.new) }
        ensures touched { OnOk result (self.new.touched ≡ None) }
    {
        self.touched.forget();
        self.out.insert(alloc, run, changes)?;
        Ok(())
    }

    /// Items stay in both operations.
    pub fn keep_both<'a>(
        &mut self,
        alloc: Global,
        x: Kept<'a>,
        w: &'a ChangeTable,
        y: Kept<'a>,
        u: &'a ChangeTable,
    ) -> Result<(), ComposeFault>
        requires fit_x { IsFitKept x }
        requires fit_y { IsFitKept y }
        requires same { x.count ≡ y.count }
        requires room { HasRoom self.old x.count }
        requires in_step { IsInStep self.old w.now u.now }
        ensures passed { MatchResult result
            (λ _. Passed self.old (kept_actions w.now x.entry) (kept_actions u.now y.entry) self.new)
            (λ e. Refused self.old (kept_actions w.now x.entry) (kept_actions u.now y.entry) e) }
        ensures room { IfOk result (λ _. Grows self.old x.entry.count self.new) }
        ensures in_step { IfOk result (λ _. IsInStep self.new w.now u.now) }
    {
        let joint = Joint {
            first: w,
            second: u,
            rule: Rule::Then,
        };
        if !write_both(&mut self.out, alloc, x, y, joint, &self.touched)? {
            return Err(ComposeFault::DontFit(self.place));
        }
        self.touched.clear(alloc);
        self.place += x.count;
        Ok(())
    }

    /// The second operation deletes what the first keeps.
    pub fn delete_kept<'a>(
        &mut self,
        alloc: Global,
        x: Kept<'_>,
        w: &ChangeView<'a>,
        run: ContentRun<'_>,
        u: &ChangeView<'a>,
    ) -> Result<(), ComposeFault>
        requires fit { IsFitKept x }
        requires same { x.count ≡ length (contents run) }
        requires room { HasRoom self.old x.count }
        ensures passed { MatchResult result
            (λ _. Passed self.old (kept_actions w.now x.entry) (map (deletion u.now) (contents run.entry)) self.new)
            (λ e. Refused self.old (kept_actions w.now x.entry) (map (deletion u.now) (contents run.entry)) e) }
        ensures room { IfOk result (λ _. Grows self.old x.entry.count self.new) }
        ensures touched { OnOk result (self.new.touched ≡ None) }
    {
        self.touched.forget();
        if !delete_before(&mut self.out, alloc, run, u, x, w)? {
            return Err(ComposeFault::DontFit(self.place));
        }
        self.place += x.count;
        Ok(())
    }

    /// The second operation keeps what the first inserts.
    pub fn keep_inserted<'a>(
        &mut self,
        alloc: Global,
        run: ContentRun<'_>,
        w: &ChangeView<'a>,
        y: Kept<'_>,
        u: &ChangeView<'a>,
    ) -> Result<(), ComposeFault>
        requires fit { IsFitKept y }
        requires same { y.count ≡ length (contents run) }
        requires room { HasRoom self.old y.count }
        ensures passed { MatchResult result
            (λ _. Passed self.old (map (insertion w.now) (contents run.entry)) (kept_actions u.now y.entry) self.new)
            (λ e. Refused self.old (map (insertion w.now) (contents run.entry)) (kept_actions u.now y.entry) e) }
        ensures room { IfOk result (λ _. Grows self.old y.entry.count self.new) }
        ensures touched { OnOk result (self.new.touched ≡ None) }
    {
        self.touched.forget();
        if !insert_after(&mut self.out, alloc, run, w, y, u)? {
            return Err(ComposeFault::DontFit(self.place));
        }
        self.place += y.count;
        Ok(())
    }

    /// The second operation deletes what the first inserts.
    pub fn drop_inserted(
        &mut self,
        run: ContentRun<'_>,
        w: &ChangeView<'_>,
        other: ContentRun<'_>,
        u: &ChangeView<'_>,
    ) -> Result<(), ComposeFault>
        requires some { 0 < length (contents run) }
        requires same { length (contents run) ≡ length (contents other) }
        requires room { HasRoom self.old (length (contents run)) }
        ensures passed { MatchResult result
            (λ _. Passed self.old (map (insertion w.now) (contents run.entry)) (map (deletion u.now) (contents other.entry)) self.new)
            (λ e. Refused self.old (map (insertion w.now) (contents run.entry)) (map (deletion u.now) (contents other.entry)) e) }
        ensures room { IfOk result (λ _. Grows self.old (length (contents run.entry)) self.new) }
        ensures touched { OnOk result (self.new.touched ≡ None) }
    {
        self.touched.forget();
        if !w.passes(u, Test::OldIsThere) {
            return Err(ComposeFault::DontFit(self.place));
        }
        let count = run.len();
        let same = common(other, run);
        if same < count {
            return Err(ComposeFault::DontFit(self.place + same));
        }
        self.place += count;
        Ok(())
    }

    /// The operation that came out.
    pub fn finish(self, alloc: Global) -> Result<DocOp, Memory>
        ensures normal { IfOk result (λ op. op ≡ normal_form (actions op)) }
        ensures actions { IfOk result (λ op. actions op ≡ self.out) }
    {
        let Weave {
            out,
            place: _,
            touched: _touched,
        } = self;
        let op = out.finish(alloc)?;
        Ok(op)
    }
}
