// One step of the composition: peek, meet, skip.
ghost use Rattle.std.specs.Prelude.{◌≡◌, ◌<◌, [], length, map, MatchResult};
ghost use Rattle.doc_op.specs.Actions.{insertion, deletion};
ghost use Rattle.doc_op.specs.Cursors.{left};
ghost use Rattle.doc_op.specs.Runs.{contents};
ghost use Rattle.op_runs.specs.Kept.{kept_actions, IsFitKept};
ghost use Rattle.op_compose.specs.Weaves.{NoDelete, IsInStep};
ghost use Rattle.op_compose.specs.Steps.{HasAllRoom, IsStep, IsStepped, IsUnfit};

use crate::ComposeFault;
use crate::weave::Weave;
use doc_op::{ContentRun, Cursor};
use op_runs::{Ahead, Kept, Passage, ahead_of};
use std::alloc::Global;

fn first_deletes(
    alloc: Global,
    done: &mut Weave,
    run: ContentRun<'_>,
    f: &Cursor<'_>,
    s: &Cursor<'_>,
) -> Result<Passage, ComposeFault>
    requires some { 0 < length (contents run) }
    requires ahead { map (deletion f.now.under) (contents run) ≡ f.now.front }
    requires room { HasAllRoom done.old (left f.now) (left s.now) }
    ensures { MatchResult result
        (λ p. IsStep p done.old f.now s.now done.new)
        (λ e. IsUnfit e done.old (left f.now) (left s.now)) }
{
    let changes = f.running().view(alloc)?;
    done.delete_first(alloc, run, &changes)?;
    Ok(Passage::First(run.len()))
}

fn second_inserts(
    alloc: Global,
    done: &mut Weave,
    run: ContentRun<'_>,
    f: &Cursor<'_>,
    s: &Cursor<'_>,
) -> Result<Passage, ComposeFault>
    requires some { 0 < length (contents run) }
    requires ahead { map (insertion s.now.under) (contents run) ≡ s.now.front }
    requires behind { NoDelete (left f.now) }
    requires room { HasAllRoom done.old (left f.now) (left s.now) }
    ensures { MatchResult result
        (λ p. IsStep p done.old f.now s.now done.new)
        (λ e. IsUnfit e done.old (left f.now) (left s.now)) }
{
    let changes = s.running().view(alloc)?;
    done.insert_second(alloc, run, &changes)?;
    Ok(Passage::Second(run.len()))
}

fn both_keep<'a>(
    alloc: Global,
    done: &mut Weave,
    x: Kept<'a>,
    f: &'a Cursor<'_>,
    y: Kept<'a>,
    s: &'a Cursor<'_>,
) -> Result<Passage, ComposeFault>
    requires fit_x { IsFitKept x }
    requires fit_y { IsFitKept y }
    requires ahead_x { kept_actions f.now.under x ≡ f.now.front }
    requires ahead_y { kept_actions s.now.under y ≡ s.now.front }
    requires room { HasAllRoom done.old (left f.now) (left s.now) }
    requires in_step { IsInStep done.old f.now.under s.now.under }
    ensures { MatchResult result
        (λ p. IsStep p done.old f.now s.now done.new)
        (λ e. IsUnfit e done.old (left f.now) (left s.now)) }
{
    let count = x.count.min(y.count);
    match done.keep_both(
        alloc,
        x.first(count),
        f.running(),
        y.first(count),
        s.running(),
    ) {
        Ok(()) => Ok(Passage::Both(count)),
        Err(fault) => Err(fault),
    }
}

// The first operation keeps, the second deletes.
fn kept_is_deleted<'a>(
    alloc: Global,
    done: &mut Weave,
    x: Kept<'a>,
    f: &'a Cursor<'_>,
    run: ContentRun<'a>,
    s: &'a Cursor<'_>,
) -> Result<Passage, ComposeFault>
    requires fit { IsFitKept x }
    requires some { 0 < length (contents run) }
    requires ahead_x { kept_actions f.now.under x ≡ f.now.front }
    requires ahead_y { map (deletion s.now.under) (contents run) ≡ s.now.front }
    requires room { HasAllRoom done.old (left f.now) (left s.now) }
    ensures { MatchResult result
        (λ p. IsStep p done.old f.now s.now done.new)
        (λ e. IsUnfit e done.old (left f.now) (left s.now)) }
{
    let w = f.running().view(alloc)?;
    let u = s.running().view(alloc)?;
    let count = x.count.min(run.len());
    match done.delete_kept(alloc, x.first(count), &w, run.first(count), &u) {
        Ok(()) => Ok(Passage::Both(count)),
        Err(fault) => Err(fault),
    }
}

// The first operation inserts, the second keeps.
fn inserted_is_kept<'a>(
    alloc: Global,
    done: &mut Weave,
    run: ContentRun<'a>,
    f: &'a Cursor<'_>,
    y: Kept<'a>,
    s: &'a Cursor<'_>,
) -> Result<Passage, ComposeFault>
    requires some { 0 < length (contents run) }
    requires fit { IsFitKept y }
    requires ahead_x { map (insertion f.now.under) (contents run) ≡ f.now.front }
    requires ahead_y { kept_actions s.now.under y ≡ s.now.front }
    requires room { HasAllRoom done.old (left f.now) (left s.now) }
    ensures { MatchResult result
        (λ p. IsStep p done.old f.now s.now done.new)
        (λ e. IsUnfit e done.old (left f.now) (left s.now)) }
{
    let w = f.running().view(alloc)?;
    let u = s.running().view(alloc)?;
    let count = run.len().min(y.count);
    match done.keep_inserted(alloc, run.first(count), &w, y.first(count), &u) {
        Ok(()) => Ok(Passage::Both(count)),
        Err(fault) => Err(fault),
    }
}

// The first operation inserts, the second deletes.
fn inserted_is_deleted<'a>(
    alloc: Global,
    done: &mut Weave,
    run: ContentRun<'a>,
    f: &'a Cursor<'_>,
    other: ContentRun<'a>,
    s: &'a Cursor<'_>,
) -> Result<Passage, ComposeFault>
    requires some { 0 < length (contents run) }
    requires some_other { 0 < length (contents other) }
    requires ahead_x { map (insertion f.now.under) (contents run) ≡ f.now.front }
    requires ahead_y { map (deletion s.now.under) (contents other) ≡ s.now.front }
    requires room { HasAllRoom done.old (left f.now) (left s.now) }
    ensures { MatchResult result
        (λ p. IsStep p done.old f.now s.now done.new)
        (λ e. IsUnfit e done.old (left f.now) (left s.now)) }
{
    let w = f.running().view(alloc)?;
    let u = s.running().view(alloc)?;
    let count = run.len().min(other.len());
    match done.drop_inserted(run.first(count), &w, other.first(count), &u) {
        Ok(()) => Ok(Passage::Both(count)),
        Err(fault) => Err(fault),
    }
}

// Items stay in the first operation.
fn past_kept<'a>(
    alloc: Global,
    done: &mut Weave,
    x: Kept<'a>,
    f: &'a Cursor<'_>,
    s: &'a Cursor<'_>,
) -> Result<Passage, ComposeFault>
    requires fit { IsFitKept x }
    requires ahead { kept_actions f.now.under x ≡ f.now.front }
    requires room { HasAllRoom done.old (left f.now) (left s.now) }
    requires in_step { IsInStep done.old f.now.under s.now.under }
    ensures { MatchResult result
        (λ p. IsStep p done.old f.now s.now done.new)
        (λ e. IsUnfit e done.old (left f.now) (left s.now)) }
{
    match ahead_of(s) {
        Ahead::Inserts(run) => second_inserts(alloc, done, run, f, s),
        Ahead::Deletes(run) => kept_is_deleted(alloc, done, x, f, run, s),
        Ahead::Keeps(y) => both_keep(alloc, done, x, f, y, s),
        Ahead::Nothing => Err(ComposeFault::DontFit(done.place)),
    }
}

// The first operation inserts.
fn past_inserted<'a>(
    alloc: Global,
    done: &mut Weave,
    run: ContentRun<'a>,
    f: &'a Cursor<'_>,
    s: &'a Cursor<'_>,
) -> Result<Passage, ComposeFault>
    requires some { 0 < length (contents run) }
    requires ahead { map (insertion f.now.under) (contents run) ≡ f.now.front }
    requires room { HasAllRoom done.old (left f.now) (left s.now) }
    ensures { MatchResult result
        (λ p. IsStep p done.old f.now s.now done.new)
        (λ e. IsUnfit e done.old (left f.now) (left s.now)) }
{
    match ahead_of(s) {
        Ahead::Inserts(other) => second_inserts(alloc, done, other, f, s),
        Ahead::Deletes(other) => inserted_is_deleted(alloc, done, run, f, other, s),
        Ahead::Keeps(y) => inserted_is_kept(alloc, done, run, f, y, s),
        Ahead::Nothing => Err(ComposeFault::DontFit(done.place)),
    }
}

// The first operation is at its end.
fn past_end(
    alloc: Global,
    done: &mut Weave,
    f: &Cursor<'_>,
    s: &Cursor<'_>,
) -> Result<Passage, ComposeFault>
    requires end { left f.now ≡ [] }
    requires room { HasAllRoom done.old (left f.now) (left s.now) }
    ensures { MatchResult result
        (λ p. IsStep p done.old f.now s.now done.new)
        (λ e. IsUnfit e done.old (left f.now) (left s.now)) }
{
    match ahead_of(s) {
        Ahead::Inserts(run) => second_inserts(alloc, done, run, f, s),
        Ahead::Deletes(_) => Err(ComposeFault::DontFit(done.place)),
        Ahead::Keeps(_) => Err(ComposeFault::DontFit(done.place)),
        Ahead::Nothing => Ok(Passage::End),
    }
}

// Goes past what is ahead in the first operation.
fn advance<'a>(
    alloc: Global,
    done: &mut Weave,
    f: &'a Cursor<'_>,
    s: &'a Cursor<'_>,
) -> Result<Passage, ComposeFault>
    requires room { HasAllRoom done.old (left f.now) (left s.now) }
    requires in_step { IsInStep done.old f.now.under s.now.under }
    ensures { MatchResult result
        (λ p. IsStep p done.old f.now s.now done.new)
        (λ e. IsUnfit e done.old (left f.now) (left s.now)) }
{
    match ahead_of(f) {
        Ahead::Deletes(run) => first_deletes(alloc, done, run, f, s),
        Ahead::Inserts(run) => past_inserted(alloc, done, run, f, s),
        Ahead::Keeps(x) => past_kept(alloc, done, x, f, s),
        Ahead::Nothing => past_end(alloc, done, f, s),
    }
}

/// One step of the composition; false at the end of both operations.
pub(crate) fn step(
    alloc: Global,
    done: &mut Weave,
    f: &mut Cursor<'_>,
    s: &mut Cursor<'_>,
) -> Result<bool, ComposeFault>
    requires room { HasAllRoom done.old (left f.old) (left s.old) }
    requires in_step { IsInStep done.old f.old.under s.old.under }
    ensures { MatchResult result
        (λ more. IsStepped more done.old f.old s.old done.new f.new s.new)
        (λ e. IsUnfit e done.old (left f.old) (left s.old)) }
{
    let passage = match advance(alloc, done, f, s) {
        Ok(passage) => passage,
        Err(fault) => return Err(fault),
    };
    let more = passage.pass(alloc, f, s, &mut done.touched)?;
    Ok(more)
}
