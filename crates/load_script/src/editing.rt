// What a follower's user does to the document, with numbers that are drawn.
ghost use Rattle.std.specs.Prelude.{◌≡◌, ◌<◌, ◌≤◌, ◌∷◌, [], length, map, slice_get, option_map, IfOk, OnOk};
ghost use Rattle.doc_items.specs.Limits.{max_count};
ghost use Rattle.doc_op.specs.Actions.{actions};
ghost use Rattle.op_build.specs.Plans.{typing};
ghost use Rattle.wavelet_op.specs.Acts.{Adds, meanings};
ghost use Rattle.client_control.specs.Parts.{follower_of};
ghost use Rattle.load_script.specs.Edits.{letter, letters, changed, mutated, typed, erasure, erased, invited, types, erases};
ghost use Rattle.load_script.specs.Names.{the_document, users};

use crate::draws::Draws;
use crate::length::length;
use crate::names::{document, user0, user1, user2, user3};
use crate::planning::{erasing_in, typing_in};
use client_control::{Follower, FollowerFault};
use doc_items::Memory;
use doc_op::DocOp;
use std::alloc::{AllocError, Global};
use wave_base::DocumentName;
use wavelet_op::{Ops, WaveletOp};

// The operations are after what is pending, unless they are refused.
#[tactic(auto, unfolding(crate::specs::Edits::changed))]
fn change(alloc: Global, follower: &mut Follower, ops: Ops) -> Result<(), Memory>
    ensures { OnOk result (follower_of follower.new ≡ changed (follower_of follower.old) (meanings ops)) }
{
    match follower.edit(alloc, ops) {
        Ok(()) => Ok(()),
        Err(FollowerFault::OpInvalid(_)) => Ok(()),
        Err(FollowerFault::EditFull) => Ok(()),
        Err(FollowerFault::TooBig) => Ok(()),
        Err(FollowerFault::NumbersSpent) => Ok(()),
        Err(FollowerFault::Memory) => Err(AllocError),
    }
}

// A list of one operation.
fn only(alloc: Global, op: WaveletOp) -> Result<Ops, Memory>
    ensures { IfOk result (λ o. o ≡ op ∷ []) }
{
    let mut list = Vec::new(alloc);
    list.push(op)?;
    match Ops::new(list) {
        Some(ops) => Ok(ops),
        None => unreachable!(),
    }
}

// So is an operation on the document.
fn mutate(
    alloc: Global,
    follower: &mut Follower,
    document: DocumentName,
    op: DocOp,
) -> Result<(), Memory>
    requires { document ≡ the_document }
    ensures { OnOk result (follower_of follower.new ≡ mutated (follower_of follower.old) (actions op)) }
{
    let ops = only(alloc, WaveletOp::Mutate { document, op })?;
    change(alloc, follower, ops)
}

// The number of items of the document on the screen, which is kept then.
#[tactic(auto, using(crate::proofs::Screens::letters_are, crate::proofs::Screens::letters_fit))]
fn count(alloc: Global, follower: &mut Follower, document: &DocumentName) -> Result<u64, Memory>
    requires { document.now ≡ the_document }
    ensures value { IfOk result (λ n. n ≡ length (letters (follower_of follower.old))) }
    ensures bound { IfOk result (λ n. n < max_count) }
    ensures same { follower.new ≡ follower.old }
{
    follower.keep_screen(alloc)?;
    // What a follower shows has room for more items.
    let _state = follower.state();
    match follower.shown() {
        Some(screen) => Ok(length(screen, document)),
        None => {
            let screen = follower.screen(alloc)?;
            Ok(length(&screen, document))
        }
    }
}

// The operation that types the n-th letter at a place of the screen.
#[tactic(auto, using(crate::proofs::Screens::letters_are))]
fn typing_on(
    alloc: Global,
    follower: &Follower,
    document: &DocumentName,
    place: u64,
    number: u64,
) -> Result<DocOp, Memory>
    requires document { document.now ≡ the_document }
    requires number { number < 26 }
    requires place { place ≤ length (letters (follower_of follower.now)) }
    requires room { length (letters (follower_of follower.now)) < max_count }
    ensures { IfOk result (λ op. actions op ≡ typing (letters (follower_of follower.now)) place (letter number ∷ [])) }
{
    match follower.shown() {
        Some(screen) => typing_in(alloc, screen, document, place, number),
        None => {
            let screen = follower.screen(alloc)?;
            typing_in(alloc, &screen, document, place, number)
        }
    }
}

// The operation that erases the item at a place of the screen; None where it is no character.
#[tactic(auto, using(crate::proofs::Screens::letters_are))]
fn erasing_on(
    alloc: Global,
    follower: &Follower,
    document: &DocumentName,
    place: u64,
) -> Result<Option<DocOp>, Memory>
    requires { document.now ≡ the_document }
    ensures { IfOk result (λ o. option_map actions o
        ≡ erasure (letters (follower_of follower.now)) place (slice_get (letters (follower_of follower.now)) place)) }
{
    match follower.shown() {
        Some(screen) => erasing_in(alloc, screen, document, place),
        None => {
            let screen = follower.screen(alloc)?;
            erasing_in(alloc, &screen, document, place)
        }
    }
}

// The n-th letter is typed at a place.
fn type_letter(
    alloc: Global,
    follower: &mut Follower,
    document: DocumentName,
    place: u64,
    number: u64,
) -> Result<(), Memory>
    requires document { document ≡ the_document }
    requires number { number < 26 }
    requires place { place ≤ length (letters (follower_of follower.old)) }
    requires room { length (letters (follower_of follower.old)) < max_count }
    ensures { OnOk result (follower_of follower.new ≡ typed (follower_of follower.old) place number) }
{
    let op = typing_on(alloc, follower, &document, place, number)?;
    mutate(alloc, follower, document, op)
}

// The item at a place is erased, if it is a character.
fn erase_letter(
    alloc: Global,
    follower: &mut Follower,
    document: DocumentName,
    place: u64,
) -> Result<(), Memory>
    requires { document ≡ the_document }
    ensures { OnOk result (follower_of follower.new ≡ erased (follower_of follower.old) place) }
{
    match erasing_on(alloc, follower, &document, place)? {
        Some(op) => mutate(alloc, follower, document, op),
        None => Ok(()),
    }
}

// A letter is typed at a place of the document, which has so many items; both are drawn.
#[tactic(auto, unfolding(crate::specs::Edits::types))]
fn type_drawn(
    alloc: Global,
    draws: &mut Draws,
    follower: &mut Follower,
    document: DocumentName,
    count: u64,
) -> Result<(), Memory>
    requires document { document ≡ the_document }
    requires count { count ≡ length (letters (follower_of follower.old)) }
    requires room { count < max_count }
    ensures { OnOk result ((draws.new, follower_of follower.new) ≡ types draws.old (follower_of follower.old)) }
{
    let place = draws.below(count + 1);
    let number = draws.below(26);
    type_letter(alloc, follower, document, place, number)
}

/// A letter is typed at a place; both are drawn.
pub(crate) fn type_one(
    alloc: Global,
    draws: &mut Draws,
    follower: &mut Follower,
) -> Result<(), Memory>
    ensures { OnOk result ((draws.new, follower_of follower.new) ≡ types draws.old (follower_of follower.old)) }
{
    let document = document(alloc)?;
    let count = count(alloc, follower, &document)?;
    type_drawn(alloc, draws, follower, document, count)
}

/// The item at a place that is drawn is erased; where there is none, a letter is typed.
#[tactic(auto, unfolding(crate::specs::Edits::erases, crate::specs::Edits::types))]
pub(crate) fn erase_one(
    alloc: Global,
    draws: &mut Draws,
    follower: &mut Follower,
) -> Result<(), Memory>
    ensures { OnOk result ((draws.new, follower_of follower.new) ≡ erases draws.old (follower_of follower.old)) }
{
    let document = document(alloc)?;
    let count = count(alloc, follower, &document)?;
    if count == 0 {
        return type_drawn(alloc, draws, follower, document, count);
    }
    let place = draws.below(count);
    erase_letter(alloc, follower, document, place)
}

// All users are added.
fn additions(alloc: Global) -> Result<Ops, Memory>
    ensures { IfOk result (λ o. meanings o ≡ map Adds users) }
{
    let mut list = Vec::with_capacity(alloc, 4)?;
    list.push(WaveletOp::Add(user0(alloc)?))?;
    list.push(WaveletOp::Add(user1(alloc)?))?;
    list.push(WaveletOp::Add(user2(alloc)?))?;
    list.push(WaveletOp::Add(user3(alloc)?))?;
    match Ops::new(list) {
        Some(ops) => Ok(ops),
        None => unreachable!(),
    }
}

/// All users are added.
#[tactic(auto, unfolding(crate::specs::Edits::invited))]
pub(crate) fn invite(alloc: Global, follower: &mut Follower) -> Result<(), Memory>
    ensures { OnOk result (follower_of follower.new ≡ invited (follower_of follower.old)) }
{
    let ops = additions(alloc)?;
    change(alloc, follower, ops)
}
