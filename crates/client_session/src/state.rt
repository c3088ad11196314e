// The client of a run.
ghost use Rattle.std.specs.Prelude.{◌≡◌, ◌≤◌, ◌⊎◌, ◌∷◌, [], map, None, Some, IfOk, OnOk, OnErr};
ghost use Rattle.doc_items.specs.Limits.{max_count};
ghost use Rattle.wavelet_op.specs.declared.op.WaveletOp.TheVariants.{Add};
ghost use Rattle.client_commands.specs.Lines.{command_of};
ghost use Rattle.client_session.specs.Answers.{quiet, says};
ghost use Rattle.client_session.specs.Machine.{machine_of, new_machine, client_of, with_seat, place_of, on_place, on_current, IsHereAt, IsCurrent, IsEither, opened_place, opened_at, opened, created_at, created, IsDone, submitted, finished, IsCommanded, IsHalted, IsCutShort, told_by, parted, taken_at, bad_as, taken_by, received, IsMessageCutShort, greeted, is_waiting};
ghost use Rattle.client_session.specs.Editing.{handed, submit_seat};
ghost use Rattle.client_session.specs.Lines.{bad_said};
ghost use Rattle.client_session.specs.Seats.{seat_of, new_seat, answered};
ghost use Rattle.client_session.specs.Taking.{reopen};
ghost use Rattle.client_session.specs.declared.said.Said.TheVariants.{Nothing};

use crate::about::{bad_in, is_close, name_in};
use crate::acts::{Acts, Handed};
use crate::key::ClientKey;
use crate::messages::Messages;
use crate::said::{Said, bad_said};
use crate::seat::Seat;
use client_commands::{Command, command_of};
use doc_items::{Memory, Text};
use message_json::Message;
use std::alloc::Global;
use wave_base::{Address, WaveletName};
use wavelet_json::BadReason;
use wavelet_op::{Ops, WaveletOp};

/// The client of a run: a follower of each wavelet that it opened or created, with the chain of undo of each, kept to the end of the
/// run, so that no number of a submission is used twice. Commands speak of the current one.
pub struct ClientState {
    user: Address,
    client: ClientKey,
    seats: Vec<Seat>,
    current: Option<usize>,
}

impl Drop for ClientState {
    fn drop(self) {
        let ClientState {
            user: _user,
            client: _client,
            seats: _seats,
            current: _current,
        } = self;
    }
}

// The place of the wavelet of a name.
fn place_in(seats: &[Seat], name: &WaveletName) -> Option<usize>
    ensures { result ≡ place_of name.now (map seat_of seats.now) }
{
    for place in 0..seats.len() {
        if *seats[place].follower.name() == *name {
            return Some(place);
        }
    }
    None
}

impl ClientState {
    /// No wavelet yet. The client's key is at most 2^53 - 1, and no other client of the user has it.
    pub fn new(alloc: Global, user: Address, client: u64) -> ClientState
        requires { client ≤ max_count }
        ensures { machine_of result ≡ new_machine user client }
    {
        ClientState {
            user,
            client: ClientKey::new(client),
            seats: Vec::new(alloc),
            current: None,
        }
    }

    // ---- the current wavelet

    // What a command does to the wavelet at a place. After want of memory all is as it was, here and below.
    fn here_at(&mut self, alloc: Global, place: usize, command: &Command) -> Result<Acts, Memory>
        ensures ok { IfOk result (λ a. IsHereAt (machine_of self.old) (Some place) command.now (machine_of self.new, a)) }
        ensures same { OnErr result (machine_of self.new ≡ machine_of self.old) }
    {
        match self.seats.get_mut(place) {
            Some(seat) => seat.command(alloc, command),
            None => Ok(Acts::says(alloc, Said::NoWavelet)),
        }
    }

    // What a command does to the current wavelet.
    fn here(&mut self, alloc: Global, command: &Command) -> Result<Acts, Memory>
        ensures ok { IfOk result (λ a. IsCurrent (machine_of self.old) command.now (machine_of self.new, a)) }
        ensures same { OnErr result (machine_of self.new ≡ machine_of self.old) }
    {
        match self.current {
            Some(place) => self.here_at(alloc, place, command),
            None => Ok(Acts::says(alloc, Said::NoWavelet)),
        }
    }

    // The wavelet at a place is opened anew.
    fn reopen_at(&mut self, alloc: Global, place: usize) -> Result<Messages, Memory>
        ensures ok { IfOk result (λ ms. (machine_of self.new, ms) ≡ on_place place reopen [] (machine_of self.old)) }
        ensures same { OnErr result (machine_of self.new ≡ machine_of self.old) }
    {
        match self.seats.get_mut(place) {
            Some(seat) => seat.reopen(alloc),
            None => Ok(Messages::new(alloc)),
        }
    }

    // The current wavelet is opened anew.
    fn reopen(&mut self, alloc: Global) -> Result<Messages, Memory>
        ensures ok { IfOk result (λ ms. (machine_of self.new, ms) ≡ on_current reopen [] (machine_of self.old)) }
        ensures same { OnErr result (machine_of self.new ≡ machine_of self.old) }
    {
        match self.current {
            Some(place) => self.reopen_at(alloc, place),
            None => Ok(Messages::new(alloc)),
        }
    }

    // A submission of the wavelet at a place, where one is taken. After want of memory all is as it was, or it was taken.
    fn submit_at(&mut self, alloc: Global, place: usize) -> Result<Handed, Memory>
        ensures ok { IfOk result (λ h. (machine_of self.new, h) ≡ on_place place submit_seat (handed [] Nothing) (machine_of self.old)) }
        ensures err { OnErr result
            (IsEither (machine_of self.old) (on_place place submit_seat (handed [] Nothing) (machine_of self.old)).0
            (machine_of self.new)) }
    {
        match self.seats.get_mut(place) {
            Some(seat) => seat.submit(alloc),
            None => Ok(Handed::new(Messages::new(alloc), Said::Nothing)),
        }
    }

    // A submission of the current wavelet.
    fn submit(&mut self, alloc: Global) -> Result<Handed, Memory>
        ensures ok { IfOk result (λ h. (machine_of self.new, h) ≡ submitted (machine_of self.old)) }
        ensures err { OnErr result (IsHalted (machine_of self.old) (machine_of self.new)) }
    {
        match self.current {
            Some(place) => self.submit_at(alloc, place),
            None => Ok(Handed::new(Messages::new(alloc), Said::Nothing)),
        }
    }

    // What is done after a step: a submission of the current wavelet is taken.
    fn finish(&mut self, alloc: Global, acts: Acts, tells: bool) -> Result<Acts, Memory>
        ensures ok { IfOk result (λ a. (machine_of self.new, a) ≡ finished tells (machine_of self.old, acts)) }
        ensures err { OnErr result (IsHalted (machine_of self.old) (machine_of self.new)) }
    {
        let handed = self.submit(alloc)?;
        acts.with_sent(handed, tells)
    }

    // ---- another wavelet

    // A wavelet of the run, with a new follower of the user.
    fn new_seat(&self, alloc: Global, name: &WaveletName, created: bool) -> Result<Seat, Memory>
        ensures { IfOk result (λ s. seat_of s ≡ new_seat name.now (client_of (machine_of self.now)) created) }
    {
        let name = name.copy(alloc)?;
        let user = self.user.copy(alloc)?;
        Ok(Seat::new(alloc, name, user, &self.client, created))
    }

    // Adds a wavelet, which becomes the current one.
    fn seat(&mut self, seat: Seat) -> Result<(), Memory>
        ensures ok { OnOk result (machine_of self.new ≡ with_seat (machine_of self.old) (seat_of seat)) }
        ensures same { OnErr result (machine_of self.new ≡ machine_of self.old) }
    {
        let place = self.seats.len();
        self.seats.push(seat)?;
        self.current = Some(place);
        Ok(())
    }

    fn open_new(&mut self, alloc: Global, name: &WaveletName) -> Result<Acts, Memory>
        ensures ok { IfOk result (λ a. (machine_of self.new, a) ≡ opened_at (machine_of self.old) name.now None) }
        ensures same { OnErr result (machine_of self.new ≡ machine_of self.old) }
    {
        let mut seat = self.new_seat(alloc, name, false)?;
        let send = seat.reopen(alloc)?;
        self.seat(seat)?;
        Ok(Acts::new(send, Said::Nothing))
    }

    fn open_at(&mut self, alloc: Global, place: usize) -> Result<Acts, Memory>
        ensures ok { IfOk result (λ a. (machine_of self.new, a) ≡ opened_place (machine_of self.old) place) }
        ensures same { OnErr result (machine_of self.new ≡ machine_of self.old) }
    {
        let send = self.reopen_at(alloc, place)?;
        self.current = Some(place);
        Ok(Acts::new(send, Said::Nothing))
    }

    fn create_new(&mut self, alloc: Global, name: &WaveletName) -> Result<Acts, Memory>
        ensures ok { IfOk result (λ a. (machine_of self.new, a) ≡ created_at (machine_of self.old) name.now None) }
        ensures same { OnErr result (machine_of self.new ≡ machine_of self.old) }
    {
        let mut seat = self.new_seat(alloc, name, true)?;
        let ops = adding(alloc, &self.user)?;
        let said = seat.edit(alloc, ops)?;
        self.seat(seat)?;
        Ok(Acts::says(alloc, said))
    }

    // The wavelet of a name becomes the current one, and is opened.
    fn open(&mut self, alloc: Global, name: &WaveletName) -> Result<Acts, Memory>
        ensures ok { IfOk result (λ a. (machine_of self.new, a) ≡ opened (machine_of self.old) name.now) }
        ensures same { OnErr result (machine_of self.new ≡ machine_of self.old) }
    {
        match place_in(self.seats.as_slice(), name) {
            Some(place) => self.open_at(alloc, place),
            None => self.open_new(alloc, name),
        }
    }

    // The same where there is one of the name, and else with a new one whose first edit adds the user.
    fn create(&mut self, alloc: Global, name: &WaveletName) -> Result<Acts, Memory>
        ensures ok { IfOk result (λ a. (machine_of self.new, a) ≡ created (machine_of self.old) name.now) }
        ensures same { OnErr result (machine_of self.new ≡ machine_of self.old) }
    {
        match place_in(self.seats.as_slice(), name) {
            Some(place) => self.open_at(alloc, place),
            None => self.create_new(alloc, name),
        }
    }

    // ---- commands

    // What a command itself does.
    fn obey(&mut self, alloc: Global, command: &Option<Command>) -> Result<Acts, Memory>
        ensures ok { IfOk result (λ a. IsDone (machine_of self.old) command.now (machine_of self.new, a)) }
        ensures same { OnErr result (machine_of self.new ≡ machine_of self.old) }
    {
        let Some(command) = command else {
            return Ok(Acts::says(alloc, Said::Unknown));
        };
        match command {
            Command::Create { name } => self.create(alloc, name),
            Command::Open { name } => self.open(alloc, name),
            Command::Edit(_) => self.here(alloc, command),
            Command::Undo => self.here(alloc, command),
            Command::Show => self.here(alloc, command),
            Command::Sync => self.here(alloc, command),
            Command::Drop => self.here(alloc, command),
            Command::Quit => Ok(Acts::leaving(alloc)),
        }
    }

    /// Does what a line says, and then takes a submission of the current wavelet, where one is to be had, unless the line ends the
    /// run. The error is want of memory: then all is as it was, or what the line itself does was done, and perhaps its submission
    /// was taken.
    pub fn on_command(&mut self, alloc: Global, line: &[u8]) -> Result<Acts, Memory>
        ensures ok { IfOk result (λ a. IsCommanded (machine_of self.old) (command_of line.now) (machine_of self.new, a)) }
        ensures err { OnErr result (IsCutShort (machine_of self.old) (command_of line.now) (machine_of self.new)) }
    {
        let command = command_of(alloc, line)?;
        let acts = self.obey(alloc, &command)?;
        if acts.ends {
            return Ok(acts);
        }
        self.finish(alloc, acts, true)
    }

    // ---- messages

    // A wavelet that is closed is the current one no more.
    fn part(&mut self, place: usize, closes: bool)
        ensures { machine_of self.new ≡ parted closes place (machine_of self.old) }
    {
        if closes && self.current == Some(place) {
            self.current = None;
        }
    }

    // A message about the wavelet at a place.
    fn take_at(&mut self, alloc: Global, place: usize, message: &Message) -> Result<Acts, Memory>
        ensures ok { IfOk result (λ a. (machine_of self.new, a) ≡ taken_at (machine_of self.old) message.now (Some place)) }
        ensures same { OnErr result (machine_of self.new ≡ machine_of self.old) }
    {
        let acts = self.take_there(alloc, place, message)?;
        self.part(place, is_close(message));
        Ok(acts)
    }

    // What it does there.
    fn take_there(&mut self, alloc: Global, place: usize, message: &Message) -> Result<Acts, Memory>
        ensures ok { IfOk result (λ a. (machine_of self.new, a)
            ≡ on_place place (λ s. told_by (machine_of self.old).user s message.now) quiet (machine_of self.old)) }
        ensures same { OnErr result (machine_of self.new ≡ machine_of self.old) }
    {
        match self.seats.get_mut(place) {
            Some(seat) => seat.take(alloc, &self.user, message),
            None => Ok(Acts::quiet(alloc)),
        }
    }

    // The server refused a message of the client, with a wavelet at a place.
    fn take_bad_at(&mut self, alloc: Global, place: usize, reason: BadReason) -> Acts
        ensures { (machine_of self.new, result)
            ≡ on_place place (λ s. (answered s, says (bad_said reason))) (says (bad_said reason)) (machine_of self.old) }
    {
        match self.seats.get_mut(place) {
            Some(seat) => seat.bad(alloc, reason),
            None => Acts::says(alloc, bad_said(reason)),
        }
    }

    // A message that is about no wavelet.
    fn take_bad(&mut self, alloc: Global, reason: Option<BadReason>) -> Acts
        ensures { (machine_of self.new, result) ≡ bad_as (machine_of self.old) reason }
    {
        let Some(reason) = reason else {
            return Acts::quiet(alloc);
        };
        match self.current {
            Some(place) => self.take_bad_at(alloc, place, reason),
            None => Acts::says(alloc, bad_said(reason)),
        }
    }

    // What a message itself does.
    fn take(&mut self, alloc: Global, message: &Message) -> Result<Acts, Memory>
        ensures ok { IfOk result (λ a. (machine_of self.new, a) ≡ taken_by (machine_of self.old) message.now) }
        ensures same { OnErr result (machine_of self.new ≡ machine_of self.old) }
    {
        let Some(name) = name_in(message) else {
            return Ok(self.take_bad(alloc, bad_in(message)));
        };
        match place_in(self.seats.as_slice(), name) {
            Some(place) => self.take_at(alloc, place, message),
            None => Ok(Acts::quiet(alloc)),
        }
    }

    /// Takes a message of the server, and then a submission of the current wavelet, where one is to be had. A message about a wavelet
    /// that the run doesn't have does nothing, nor does one that is for a server. The error is want of memory: then all is as it was,
    /// or the message was taken, and perhaps the submission.
    pub fn on_message(&mut self, alloc: Global, message: &Message) -> Result<Acts, Memory>
        ensures ok { IfOk result (λ a. (machine_of self.new, a) ≡ received (machine_of self.old) message.now) }
        ensures err { OnErr result (IsMessageCutShort (machine_of self.old) message.now (machine_of self.new)) }
    {
        let acts = self.take(alloc, message)?;
        self.finish(alloc, acts, false)
    }

    // ---- links

    /// The link is cut, which changes nothing.
    pub fn on_cut(&mut self, alloc: Global) -> Acts
        ensures state { machine_of self.new ≡ machine_of self.old }
        ensures acts { result ≡ quiet }
    {
        Acts::quiet(alloc)
    }

    /// There is a new link, the first one included. The client says who it is, and opens the current wavelet. After want of memory
    /// all is as it was.
    pub fn on_reopen(&mut self, alloc: Global) -> Result<Acts, Memory>
        ensures ok { IfOk result (λ a. (machine_of self.new, a) ≡ greeted (machine_of self.old)) }
        ensures err { OnErr result
            ((machine_of self.new ≡ machine_of self.old) ⊎ (machine_of self.new ≡ (greeted (machine_of self.old)).0)) }
    {
        let user = Text::from_str(alloc, self.user.text())?;
        let mut send = Messages::one(alloc, Message::Hello { user })?;
        let more = self.reopen(alloc)?;
        send.append(more)?;
        Ok(Acts::new(send, Said::Nothing))
    }

    /// Whether the current wavelet isn't settled, or an opening of it is unanswered: so long a line waits that says so.
    pub fn is_waiting(&self) -> bool
        ensures { result ≡ is_waiting (machine_of self.now) }
    {
        let Some(place) = self.current else {
            return false;
        };
        match self.seats.get(place) {
            Some(seat) => seat.is_open_end(),
            None => false,
        }
    }
}

// The operations that add an address.
fn adding(alloc: Global, address: &Address) -> Result<Ops, Memory>
    ensures { IfOk result (λ ops. ops ≡ Add address.now ∷ []) }
{
    let mut list = Vec::new(alloc);
    list.push(WaveletOp::Add(address.copy(alloc)?))?;
    match Ops::new(list) {
        Some(ops) => Ok(ops),
        None => unreachable!(),
    }
}
