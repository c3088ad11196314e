// What an edit asks for.
ghost use Rattle.std.specs.Prelude.{◌≡◌, unwrap_or, IfOk};
ghost use Rattle.wavelet_op.specs.States.{role_of};
ghost use Rattle.wavelet_op.specs.declared.role.Role.TheVariants as roles;
ghost use Rattle.client_edits.specs.Asked.{IsBuilt};

use crate::Built;
use crate::built::one;
use crate::conversations::{delete, go_on, reply, reply_inline};
use crate::documents::{erase_stretch, note_stretch, place_element, write};
use client_commands::Edit;
use doc_items::Memory;
use std::alloc::Global;
use wave_base::Address;
use wavelet_op::{Role, WaveletOp};
use wavelet_state::WaveletState;

// The role of an address; `Full` where it is absent.
fn old_role(screen: &WaveletState, address: &Address) -> Role
    ensures { result ≡ unwrap_or (role_of screen.now address.now) roles.Full }
{
    match screen.role(address) {
        Some(role) => role,
        None => Role::Full,
    }
}

/// What an edit comes to at a screen: the operations that it asks for, or the number of its refusal. An inline reply copies the
/// state. The error is want of memory.
pub fn build(alloc: Global, screen: &WaveletState, edit: &Edit) -> Result<Built, Memory>
    ensures { IfOk result (IsBuilt screen.now edit.now) }
{
    match edit {
        Edit::Add { address } => one(alloc, WaveletOp::Add(address.copy(alloc)?)),
        Edit::Remove { address } => one(alloc, WaveletOp::Remove(address.copy(alloc)?)),
        Edit::SetRole { address, role } => {
            let old = old_role(screen, address);
            let address = address.copy(alloc)?;
            let new = *role;
            one(alloc, WaveletOp::SetRole { address, old, new })
        }
        Edit::Write { spot, text } => write(alloc, screen, spot, text),
        Edit::Erase { stretch } => erase_stretch(alloc, screen, stretch),
        Edit::Note {
            stretch,
            key,
            value,
        } => note_stretch(alloc, screen, stretch, key, value),
        Edit::Element { spot, kind } => place_element(alloc, screen, spot, kind),
        Edit::Reply {
            blip,
            thread,
            new_blip,
        } => reply(alloc, screen, blip, thread, new_blip),
        Edit::Inline {
            spot,
            thread,
            new_blip,
        } => reply_inline(alloc, screen, spot, thread, new_blip),
        Edit::Next { thread, new_blip } => go_on(alloc, screen, thread, new_blip),
        Edit::Delete { blip } => delete(alloc, screen, blip),
    }
}
