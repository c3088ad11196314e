// One step of the walk: peek, meet, skip.
ghost use Rattle.std.specs.Prelude.{◌≡◌, ◌<◌, [], length, map, MatchResult};
ghost use Rattle.doc_op.specs.Actions.{insertion};
ghost use Rattle.doc_op.specs.Cursors.{left};
ghost use Rattle.doc_op.specs.Runs.{contents};
ghost use Rattle.op_transform.specs.Taken.{taken_actions, IsFitTaken};
ghost use Rattle.op_transform.specs.Touches.{IsInStep};
ghost use Rattle.op_transform.specs.Walks.{NoInsert};
ghost use Rattle.op_transform.specs.Steps.{HasAllRoom, IsStep, IsStepped, IsBroken};

use crate::TransformFault;
use crate::taken::Taken;
use crate::walk::Walk;
use doc_op::{ContentRun, Cursor};
use op_runs::{Ahead, Passage, ahead_of};
use std::alloc::Global;

fn later_inserts(
    alloc: Global,
    done: &mut Walk,
    run: ContentRun<'_>,
    l: &Cursor<'_>,
    e: &Cursor<'_>,
) -> Result<Passage, TransformFault>
    requires some { 0 < length (contents run) }
    requires ahead { map (insertion l.now.under) (contents run) ≡ l.now.front }
    requires room { HasAllRoom done.old (left l.now) (left e.now) }
    ensures { MatchResult result
        (λ s. IsStep s done.old l.now e.now done.new)
        (λ f. IsBroken f done.old (left l.now) (left e.now)) }
{
    let changes = l.running().view(alloc)?;
    done.insert_later(alloc, run, &changes)?;
    Ok(Passage::First(run.len()))
}

fn earlier_inserts(
    alloc: Global,
    done: &mut Walk,
    run: ContentRun<'_>,
    l: &Cursor<'_>,
    e: &Cursor<'_>,
) -> Result<Passage, TransformFault>
    requires some { 0 < length (contents run) }
    requires ahead { map (insertion e.now.under) (contents run) ≡ e.now.front }
    requires behind { NoInsert (left l.now) }
    requires room { HasAllRoom done.old (left l.now) (left e.now) }
    ensures { MatchResult result
        (λ s. IsStep s done.old l.now e.now done.new)
        (λ f. IsBroken f done.old (left l.now) (left e.now)) }
{
    let changes = e.running().view(alloc)?;
    done.insert_earlier(alloc, run, &changes)?;
    Ok(Passage::Second(run.len()))
}

fn both_take<'a>(
    alloc: Global,
    done: &mut Walk,
    x: Taken<'a>,
    l: &'a Cursor<'_>,
    y: Taken<'a>,
    e: &'a Cursor<'_>,
) -> Result<Passage, TransformFault>
    requires fit_x { IsFitTaken x }
    requires fit_y { IsFitTaken y }
    requires ahead_x { taken_actions l.now.under x ≡ l.now.front }
    requires ahead_y { taken_actions e.now.under y ≡ e.now.front }
    requires room { HasAllRoom done.old (left l.now) (left e.now) }
    requires in_step { IsInStep done.old l.now.under e.now.under }
    ensures { MatchResult result
        (λ s. IsStep s done.old l.now e.now done.new)
        (λ f. IsBroken f done.old (left l.now) (left e.now)) }
{
    let count = x.len().min(y.len());
    match done.meet(
        alloc,
        x.first(count),
        l.running(),
        y.first(count),
        e.running(),
    ) {
        Ok(()) => Ok(Passage::Both(count)),
        Err(fault) => Err(fault),
    }
}

// The later operation takes items.
fn past_taken<'a>(
    alloc: Global,
    done: &mut Walk,
    x: Taken<'a>,
    l: &'a Cursor<'_>,
    e: &'a Cursor<'_>,
) -> Result<Passage, TransformFault>
    requires fit { IsFitTaken x }
    requires ahead { taken_actions l.now.under x ≡ l.now.front }
    requires room { HasAllRoom done.old (left l.now) (left e.now) }
    requires in_step { IsInStep done.old l.now.under e.now.under }
    ensures { MatchResult result
        (λ s. IsStep s done.old l.now e.now done.new)
        (λ f. IsBroken f done.old (left l.now) (left e.now)) }
{
    match ahead_of(e) {
        Ahead::Inserts(run) => earlier_inserts(alloc, done, run, l, e),
        Ahead::Keeps(kept) => both_take(alloc, done, x, l, Taken::Kept(kept), e),
        Ahead::Deletes(run) => both_take(alloc, done, x, l, Taken::Deleted(run), e),
        Ahead::Nothing => Err(TransformFault::Conflict(done.place)),
    }
}

// The later operation is at its end.
fn past_end(
    alloc: Global,
    done: &mut Walk,
    l: &Cursor<'_>,
    e: &Cursor<'_>,
) -> Result<Passage, TransformFault>
    requires end { left l.now ≡ [] }
    requires room { HasAllRoom done.old (left l.now) (left e.now) }
    ensures { MatchResult result
        (λ s. IsStep s done.old l.now e.now done.new)
        (λ f. IsBroken f done.old (left l.now) (left e.now)) }
{
    match ahead_of(e) {
        Ahead::Inserts(run) => earlier_inserts(alloc, done, run, l, e),
        Ahead::Keeps(_) => Err(TransformFault::Conflict(done.place)),
        Ahead::Deletes(_) => Err(TransformFault::Conflict(done.place)),
        Ahead::Nothing => Ok(Passage::End),
    }
}

// Goes past what is ahead in both operations.
fn advance<'a>(
    alloc: Global,
    done: &mut Walk,
    l: &'a Cursor<'_>,
    e: &'a Cursor<'_>,
) -> Result<Passage, TransformFault>
    requires room { HasAllRoom done.old (left l.now) (left e.now) }
    requires in_step { IsInStep done.old l.now.under e.now.under }
    ensures { MatchResult result
        (λ s. IsStep s done.old l.now e.now done.new)
        (λ f. IsBroken f done.old (left l.now) (left e.now)) }
{
    match ahead_of(l) {
        Ahead::Inserts(run) => later_inserts(alloc, done, run, l, e),
        Ahead::Keeps(kept) => past_taken(alloc, done, Taken::Kept(kept), l, e),
        Ahead::Deletes(run) => past_taken(alloc, done, Taken::Deleted(run), l, e),
        Ahead::Nothing => past_end(alloc, done, l, e),
    }
}

/// One step of the walk; false at the end of both operations.
pub(crate) fn step(
    alloc: Global,
    done: &mut Walk,
    l: &mut Cursor<'_>,
    e: &mut Cursor<'_>,
) -> Result<bool, TransformFault>
    requires room { HasAllRoom done.old (left l.old) (left e.old) }
    requires in_step { IsInStep done.old l.old.under e.old.under }
    ensures { MatchResult result
        (λ more. IsStepped more done.old l.old e.old done.new l.new e.new)
        (λ f. IsBroken f done.old (left l.old) (left e.old)) }
{
    let passage = match advance(alloc, done, l, e) {
        Ok(passage) => passage,
        Err(fault) => return Err(fault),
    };
    let more = passage.pass(alloc, l, e, &mut done.touched)?;
    Ok(more)
}
