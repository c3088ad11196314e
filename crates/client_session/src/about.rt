// What messages are about.
ghost use Rattle.std.specs.Prelude.{◌≡◌, ◌&&◌, nat_le, IfOk, OnErr};
ghost use Rattle.std.specs.Option.{option_copied};
ghost use Rattle.client_session.specs.Machine.{name_in, is_close, bad_in, told_by, IsHere};
ghost use Rattle.client_session.specs.Lines.{verdict_said};
ghost use Rattle.client_session.specs.Seats.{seat_of};
ghost use Rattle.client_session.specs.Taking.{refuse_known};
ghost use Rattle.client_commands.specs.declared.command.Command.TheVariants as commands;
ghost use Rattle.doc_items.specs.Limits.{max_count};

use crate::acts::Acts;
use crate::said::{Said, verdict_said};
use crate::seat::Seat;
use client_commands::{Command, Edit};
use doc_items::{MAX_COUNT, Memory};
use message_json::Message;
use std::alloc::Global;
use wave_base::{Address, DeltaId, WaveletName};
use wavelet_json::BadReason;
use wavelet_op::Verdict;

/// The wavelet that a message to a client is about; None where it is about none, or isn't to a client.
pub(crate) fn name_in(message: &Message) -> Option<&WaveletName>
    ensures { option_copied result ≡ name_in message.entry.now }
{
    match message {
        Message::Opened { name, .. } => Some(name),
        Message::Snapshot(snapshot) => Some(snapshot.name()),
        Message::Unopened { name, .. } => Some(name),
        Message::Ack { name, .. } => Some(name),
        Message::Refused { name, .. } => Some(name),
        Message::Queued { name, .. } => Some(name),
        Message::Update { name, .. } => Some(name),
        Message::Closed { name, .. } => Some(name),
        Message::Hello { .. } => None,
        Message::OpenWavelet { .. } => None,
        Message::Submit { .. } => None,
        Message::CloseWavelet { .. } => None,
        Message::Welcome { .. } => None,
        Message::Bad(_) => None,
        Message::Peer { .. } => None,
        Message::Have { .. } => None,
        Message::Relay { .. } => None,
        Message::Applied { .. } => None,
        Message::Relayed { .. } => None,
        Message::Dropped { .. } => None,
    }
}

/// Whether the wavelet of a message is open no more.
pub(crate) fn is_close(message: &Message) -> bool
    ensures { result ≡ is_close message.now }
{
    match message {
        Message::Closed { .. } => true,
        Message::Opened { .. } => false,
        Message::Snapshot(_) => false,
        Message::Unopened { .. } => false,
        Message::Ack { .. } => false,
        Message::Refused { .. } => false,
        Message::Queued { .. } => false,
        Message::Update { .. } => false,
        Message::Hello { .. } => false,
        Message::OpenWavelet { .. } => false,
        Message::Submit { .. } => false,
        Message::CloseWavelet { .. } => false,
        Message::Welcome { .. } => false,
        Message::Bad(_) => false,
        Message::Peer { .. } => false,
        Message::Have { .. } => false,
        Message::Relay { .. } => false,
        Message::Applied { .. } => false,
        Message::Relayed { .. } => false,
        Message::Dropped { .. } => false,
    }
}

/// Why the server refused a message.
pub(crate) fn bad_in(message: &Message) -> Option<BadReason>
    ensures { result ≡ bad_in message.now }
{
    match message {
        Message::Bad(reason) => Some(*reason),
        Message::Opened { .. } => None,
        Message::Snapshot(_) => None,
        Message::Unopened { .. } => None,
        Message::Ack { .. } => None,
        Message::Refused { .. } => None,
        Message::Queued { .. } => None,
        Message::Update { .. } => None,
        Message::Closed { .. } => None,
        Message::Hello { .. } => None,
        Message::OpenWavelet { .. } => None,
        Message::Submit { .. } => None,
        Message::CloseWavelet { .. } => None,
        Message::Welcome { .. } => None,
        Message::Peer { .. } => None,
        Message::Have { .. } => None,
        Message::Relay { .. } => None,
        Message::Applied { .. } => None,
        Message::Relayed { .. } => None,
        Message::Dropped { .. } => None,
    }
}

impl Seat {
    // A submission of the user was refused.
    fn take_refusal(
        &mut self,
        alloc: Global,
        user: &Address,
        client: u64,
        number: u64,
        verdict: &Verdict,
    ) -> Result<Acts, Memory>
        ensures ok { IfOk result (λ a. (seat_of self.new, a)
            ≡ refuse_known (nat_le client max_count && nat_le number max_count) (seat_of self.old)
            (record { author = user.now; client = client; number = number }) (verdict_said verdict.now)) }
        ensures same { OnErr result (seat_of self.new ≡ seat_of self.old) }
    {
        if client > MAX_COUNT || number > MAX_COUNT {
            return Ok(Acts::says(alloc, verdict_said(verdict)));
        }
        let author = user.copy(alloc)?;
        let id = DeltaId {
            author,
            client,
            number,
        };
        self.refuse(alloc, &id, verdict_said(verdict))
    }

    /// A message about the wavelet. After want of memory all is as it was, here and below.
    pub fn take(&mut self, alloc: Global, user: &Address, message: &Message) -> Result<Acts, Memory>
        ensures ok { IfOk result (λ a. (seat_of self.new, a) ≡ told_by user.now (seat_of self.old) message.now) }
        ensures same { OnErr result (seat_of self.new ≡ seat_of self.old) }
    {
        match message {
            Message::Opened { .. } => {
                self.answer();
                Ok(Acts::quiet(alloc))
            }
            Message::Snapshot(snapshot) => self.take_snapshot(alloc, snapshot),
            Message::Unopened { reason, .. } => self.unopen(alloc, *reason),
            Message::Ack { .. } => self.acknowledge(alloc),
            Message::Refused {
                client,
                number,
                verdict,
                ..
            } => self.take_refusal(alloc, user, *client, *number, verdict),
            Message::Update { delta, .. } => self.update(alloc, delta),
            Message::Closed { reason, .. } => Ok(self.close(alloc, *reason)),
            Message::Queued { .. } => Ok(Acts::quiet(alloc)),
            Message::Hello { .. } => Ok(Acts::quiet(alloc)),
            Message::OpenWavelet { .. } => Ok(Acts::quiet(alloc)),
            Message::Submit { .. } => Ok(Acts::quiet(alloc)),
            Message::CloseWavelet { .. } => Ok(Acts::quiet(alloc)),
            Message::Welcome { .. } => Ok(Acts::quiet(alloc)),
            Message::Bad(_) => Ok(Acts::quiet(alloc)),
            Message::Peer { .. } => Ok(Acts::quiet(alloc)),
            Message::Have { .. } => Ok(Acts::quiet(alloc)),
            Message::Relay { .. } => Ok(Acts::quiet(alloc)),
            Message::Applied { .. } => Ok(Acts::quiet(alloc)),
            Message::Relayed { .. } => Ok(Acts::quiet(alloc)),
            Message::Dropped { .. } => Ok(Acts::quiet(alloc)),
        }
    }

    // An edit of the current wavelet.
    fn edit_here(&mut self, alloc: Global, edit: &Edit) -> Result<Acts, Memory>
        ensures ok { IfOk result (λ a. IsHere (seat_of self.old) (commands.Edit edit.now) (seat_of self.new, a)) }
        ensures same { OnErr result (seat_of self.new ≡ seat_of self.old) }
    {
        let said = self.obey(alloc, edit)?;
        Ok(Acts::says(alloc, said))
    }

    /// A command of the current wavelet.
    pub fn command(&mut self, alloc: Global, command: &Command) -> Result<Acts, Memory>
        ensures ok { IfOk result (λ a. IsHere (seat_of self.old) command.now (seat_of self.new, a)) }
        ensures same { OnErr result (seat_of self.new ≡ seat_of self.old) }
    {
        match command {
            Command::Edit(edit) => self.edit_here(alloc, edit),
            Command::Undo => {
                let said = self.undo(alloc)?;
                Ok(Acts::says(alloc, said))
            }
            Command::Show => {
                let shown = self.show(alloc)?;
                Ok(Acts::says(alloc, Said::Screen(shown)))
            }
            Command::Sync => Ok(Acts::syncing(alloc)),
            Command::Drop => {
                self.drop_pending();
                Ok(Acts::quiet(alloc))
            }
            Command::Create { .. } => Ok(Acts::quiet(alloc)),
            Command::Open { .. } => Ok(Acts::quiet(alloc)),
            Command::Quit => Ok(Acts::quiet(alloc)),
        }
    }
}
