// The walk over two operations.
ghost use Rattle.std.specs.Prelude.{◌≡◌, ◌<◌, [], List, Some, None, true, length, map, IfOk, IfSome, MatchResult};
ghost use Rattle.doc_op.specs.Actions.{Action, insertion, deletion};
ghost use Rattle.doc_op.specs.Apply.{is_unchanged};
ghost use Rattle.doc_op.specs.Runs.{contents};
ghost use Rattle.op_runs.specs.Kept.{kept_change, kept_actions, IsFitKept};
ghost use Rattle.op_transform.specs.Taken.{taken_actions, taken_len, IsFitTaken};
ghost use Rattle.op_transform.specs.Transform.{transform_from};
ghost use Rattle.op_transform.specs.Touches.{IsInStep};
ghost use Rattle.op_transform.specs.Walks.{expects, Passed, PassedEarlier, Refused, HasRoom, HasRoomForBoth, Grows, AreKept};

use crate::TransformFault;
use crate::attributes::{cross, write_over, write_under};
use crate::depth::level;
use crate::side::{Side, insert};
use crate::taken::Taken;
use change_table::{ChangeTable, Joint, Touched};
use change_view::{ChangeView, Rule, Test};
use doc_items::{Memory, Text};
use doc_op::{ContentRun, NormalBuilder};
use op_runs::{Kept, common};
use std::alloc::Global;

/// What comes of the two operations so far, how many common items are passed, and a length that neither output exceeds. Touched are
/// the keys at which changes started or ended in either operation since the last pair of runs that both keep; any key at the
/// beginning, and after any other output.
#[derive(Drop)]
pub(crate) struct Walk {
    pub later: Side,
    pub earlier: Side,
    pub touched: Touched,
    pub place: u64,
    pub length: u64,
}

// The keys that were touched, where they are known and no attributes change.
fn known_keys<'a>(touched: &'a Touched, x: Kept<'_>, y: Kept<'_>) -> Option<&'a [Text]>
    ensures known { IfSome result (λ keys. touched.now ≡ Some keys.now) }
    ensures x_plain { IfSome result (λ _. is_unchanged (kept_change x.entry.part) ≡ true) }
    ensures y_plain { IfSome result (λ _. is_unchanged (kept_change y.entry.part) ≡ true) }
{
    if x.is_plain() && y.is_plain() {
        touched.keys()
    } else {
        None
    }
}

impl Walk {
    /// Nothing is passed.
    #[tactic(auto, using(crate::proofs::Fronts::front_none))]
    pub fn new(alloc: Global) -> Walk
        ensures start { (ls es : List Action) → expects result ls es ≡ transform_from 0 0 ls 0 es }
        ensures room { HasRoom result 0 }
        ensures length { result.length ≡ 0 }
        ensures touched { result.touched ≡ None }
    {
        Walk {
            later: Side {
                out: NormalBuilder::new(alloc),
                depth: 0,
            },
            earlier: Side {
                out: NormalBuilder::new(alloc),
                depth: 0,
            },
            touched: Touched::any(),
            place: 0,
            length: 0,
        }
    }

    /// The later operation inserts.
    pub fn insert_later(
        &mut self,
        alloc: Global,
        run: ContentRun<'_>,
        changes: &ChangeView<'_>,
    ) -> Result<(), Memory>
        requires { HasRoom self.old (length (contents run)) }
        ensures passed { IfOk result (λ _. Passed self.old (map (insertion changes.now) (contents run.entry)) [] self.new) }
        ensures room { IfOk result (λ _. Grows self.old (length (contents run.entry)) self.new) }
        ensures touched { IfOk result (λ _. self.new.touched ≡ None) }
    {
        self.touched.forget();
        insert(alloc, &mut self.later, &mut self.earlier, run, changes)?;
        self.length += run.len();
        Ok(())
    }

    /// The earlier operation inserts, and the later one doesn't.
    pub fn insert_earlier(
        &mut self,
        alloc: Global,
        run: ContentRun<'_>,
        changes: &ChangeView<'_>,
    ) -> Result<(), Memory>
        requires { HasRoom self.old (length (contents run)) }
        ensures passed { IfOk result (λ _. PassedEarlier self.old (map (insertion changes.now) (contents run.entry)) self.new) }
        ensures room { IfOk result (λ _. Grows self.old (length (contents run.entry)) self.new) }
        ensures touched { IfOk result (λ _. self.new.touched ≡ None) }
    {
        self.touched.forget();
        insert(alloc, &mut self.earlier, &mut self.later, run, changes)?;
        self.length += run.len();
        Ok(())
    }

    // Both operations keep items.
    fn keep_both<'a>(
        &mut self,
        alloc: Global,
        x: Kept<'a>,
        u: &'a ChangeTable,
        y: Kept<'a>,
        w: &'a ChangeTable,
    ) -> Result<(), TransformFault>
        requires pair { HasRoomForBoth self.old x y }
        requires in_step { IsInStep self.old u.now w.now }
        ensures passed { MatchResult result
            (λ _. Passed self.old (kept_actions u.now x.entry) (kept_actions w.now y.entry) self.new)
            (λ f. Refused self.old (kept_actions u.now x.entry) (kept_actions w.now y.entry) f) }
        ensures room { IfOk result (λ _. Grows self.old x.entry.count self.new) }
        ensures in_step { IfOk result (λ _. IsInStep self.new u.now w.now) }
    {
        if !self.write_touched(alloc, x, u, y, w)? {
            return Err(TransformFault::Conflict(self.place));
        }
        self.touched.clear(alloc);
        self.place += x.count;
        self.length += x.count;
        Ok(())
    }

    // Writes what both keep, if it can stay in both ways; or answers false. Where no attributes change and the touched keys are
    // known, these alone are looked at.
    fn write_touched<'a>(
        &mut self,
        alloc: Global,
        x: Kept<'a>,
        u: &'a ChangeTable,
        y: Kept<'a>,
        w: &'a ChangeTable,
    ) -> Result<bool, Memory>
        requires pair { HasRoomForBoth self.old x y }
        requires in_step { IsInStep self.old u.now w.now }
        ensures { IfOk result (λ t. AreKept t x.entry u.now y.entry w.now self.old self.new) }
    {
        let Some(keys) = known_keys(&self.touched, x, y) else {
            return self.write_listed(alloc, x, u, y, w);
        };
        let over = Joint {
            first: u,
            second: w,
            rule: Rule::Over,
        };
        if !over.passes(Test::SameOld, keys) {
            return Ok(false);
        }
        let under = Joint {
            first: w,
            second: u,
            rule: Rule::Under,
        };
        self.later.out.keep_joint(alloc, x.count, over, keys)?;
        self.earlier.out.keep_joint(alloc, y.count, under, keys)?;
        Ok(true)
    }

    // Writes what both keep, if it can stay in both ways; or answers false. All keys that run are looked at.
    fn write_listed<'a>(
        &mut self,
        alloc: Global,
        x: Kept<'a>,
        u: &'a ChangeTable,
        y: Kept<'a>,
        w: &'a ChangeTable,
    ) -> Result<bool, Memory>
        requires { HasRoomForBoth self.old x y }
        ensures { IfOk result (λ t. AreKept t x.entry u.now y.entry w.now self.old self.new) }
    {
        let u = u.view(alloc)?;
        let w = w.view(alloc)?;
        if !cross(alloc, x, &u, y, &w)? {
            return Ok(false);
        }
        let over = u.merged(alloc, &w, Rule::Over)?;
        let under = w.merged(alloc, &u, Rule::Under)?;
        write_over(&mut self.later.out, alloc, &over, x, y)?;
        write_under(&mut self.earlier.out, alloc, &under, y, x)?;
        Ok(true)
    }

    // The later operation keeps what the earlier one deletes.
    fn delete_earlier(
        &mut self,
        alloc: Global,
        x: Kept<'_>,
        u: &ChangeTable,
        run: ContentRun<'_>,
        w: &ChangeTable,
    ) -> Result<(), TransformFault>
        requires fit { IsFitKept x }
        requires same { x.count ≡ length (contents run) }
        requires room { HasRoom self.old x.count }
        ensures passed { MatchResult result
            (λ _. Passed self.old (kept_actions u.now x.entry) (map (deletion w.now) (contents run.entry)) self.new)
            (λ f. Refused self.old (kept_actions u.now x.entry) (map (deletion w.now) (contents run.entry)) f) }
        ensures room { IfOk result (λ _. Grows self.old x.entry.count self.new) }
        ensures in_step { IfOk result (λ _. IsInStep self.new u.now w.now) }
    {
        if !self.earlier.delete(alloc, run, w, x, u)? {
            return Err(TransformFault::Conflict(self.place));
        }
        self.touched.forget();
        self.place += x.count;
        self.length += x.count;
        Ok(())
    }

    // The earlier operation keeps what the later one deletes.
    fn delete_later(
        &mut self,
        alloc: Global,
        run: ContentRun<'_>,
        u: &ChangeTable,
        y: Kept<'_>,
        w: &ChangeTable,
    ) -> Result<(), TransformFault>
        requires fit { IsFitKept y }
        requires same { y.count ≡ length (contents run) }
        requires room { HasRoom self.old y.count }
        ensures passed { MatchResult result
            (λ _. Passed self.old (map (deletion u.now) (contents run.entry)) (kept_actions w.now y.entry) self.new)
            (λ f. Refused self.old (map (deletion u.now) (contents run.entry)) (kept_actions w.now y.entry) f) }
        ensures room { IfOk result (λ _. Grows self.old y.entry.count self.new) }
        ensures in_step { IfOk result (λ _. IsInStep self.new u.now w.now) }
    {
        if !self.later.delete(alloc, run, u, y, w)? {
            return Err(TransformFault::Conflict(self.place));
        }
        self.touched.forget();
        self.place += y.count;
        self.length += y.count;
        Ok(())
    }

    // Both operations delete.
    fn delete_both(
        &mut self,
        alloc: Global,
        run: ContentRun<'_>,
        u: &ChangeTable,
        other: ContentRun<'_>,
        w: &ChangeTable,
    ) -> Result<(), TransformFault>
        requires some { 0 < length (contents run) }
        requires same { length (contents run) ≡ length (contents other) }
        requires room { HasRoom self.old (length (contents run)) }
        ensures passed { MatchResult result
            (λ _. Passed self.old (map (deletion u.now) (contents run.entry)) (map (deletion w.now) (contents other.entry)) self.new)
            (λ f. Refused self.old (map (deletion u.now) (contents run.entry)) (map (deletion w.now) (contents other.entry)) f) }
        ensures room { IfOk result (λ _. Grows self.old (length (contents run.entry)) self.new) }
        ensures in_step { IfOk result (λ _. IsInStep self.new u.now w.now) }
    {
        let u = u.view(alloc)?;
        let w = w.view(alloc)?;
        if !u.passes(&w, Test::SameOld) {
            return Err(TransformFault::Conflict(self.place));
        }
        let count = run.len();
        let same = common(run, other);
        if same < count {
            return Err(TransformFault::Conflict(self.place + same));
        }
        self.later.depth = level(run, self.later.depth);
        self.earlier.depth = level(other, self.earlier.depth);
        self.touched.forget();
        self.place += count;
        self.length += count;
        Ok(())
    }

    /// Both operations take items.
    pub fn meet<'a>(
        &mut self,
        alloc: Global,
        x: Taken<'a>,
        u: &'a ChangeTable,
        y: Taken<'a>,
        w: &'a ChangeTable,
    ) -> Result<(), TransformFault>
        requires fit_x { IsFitTaken x }
        requires fit_y { IsFitTaken y }
        requires same { taken_len x ≡ taken_len y }
        requires room { HasRoom self.old (taken_len x) }
        requires in_step { IsInStep self.old u.now w.now }
        ensures passed { MatchResult result
            (λ _. Passed self.old (taken_actions u.now x.entry) (taken_actions w.now y.entry) self.new)
            (λ f. Refused self.old (taken_actions u.now x.entry) (taken_actions w.now y.entry) f) }
        ensures room { IfOk result (λ _. Grows self.old (taken_len x.entry) self.new) }
        ensures in_step { IfOk result (λ _. IsInStep self.new u.now w.now) }
    {
        match x {
            Taken::Kept(kept) => match y {
                Taken::Kept(other) => self.keep_both(alloc, kept, u, other, w),
                Taken::Deleted(run) => self.delete_earlier(alloc, kept, u, run, w),
            },
            Taken::Deleted(run) => match y {
                Taken::Kept(kept) => self.delete_later(alloc, run, u, kept, w),
                Taken::Deleted(other) => self.delete_both(alloc, run, u, other, w),
            },
        }
    }
}
