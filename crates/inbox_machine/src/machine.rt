// Commands over an index.
ghost use Rattle.std.specs.Prelude.{◌≡◌, ◌++◌, string_bytes, Some, IfOk, OnOk};
ghost use Rattle.inbox_machine.specs.Commands.{command_of};
ghost use Rattle.inbox_machine.specs.Inboxes.{inbox_of};
ghost use Rattle.inbox_machine.specs.Indexing.{deltas_of, indexed};
ghost use Rattle.inbox_machine.specs.Machine.{start, answered};
ghost use Rattle.inbox_machine.specs.declared.command.Command.TheVariants.{Show, Search, Read};

use crate::command::{Command, command_of};
use crate::indexing::index_of;
use crate::printing::{put_hits, put_lines};
use delta_history::Copies;
use doc_items::Memory;
use std::alloc::Global;
use wave_base::{Address, WaveletName};
use wave_index::{Index, Marks};
use wave_terminal::CommandMachine;

/// An index, the user who asks, and what that user has read.
pub struct InboxMachine {
    pub(crate) index: Index,
    pub(crate) user: Address,
    pub(crate) marks: Marks,
}

impl Drop for InboxMachine {
    fn drop(self) {
        let InboxMachine {
            index: _index,
            user: _user,
            marks: _marks,
        } = self;
    }
}

impl InboxMachine {
    /// Nothing is read yet.
    pub fn new(alloc: Global, index: Index, user: Address) -> InboxMachine
        ensures { inbox_of result ≡ start index user }
    {
        InboxMachine {
            index,
            user,
            marks: Marks::new(alloc),
        }
    }

    /// Over the copies of all names that are hosted. The error is want of memory.
    pub fn over<C: Copies>(alloc: Global, copies: &C, user: Address) -> Result<InboxMachine, Memory>
        ensures { IfOk result (λ m. inbox_of m ≡ start (indexed (C.hosts copies.now) (λ n. deltas_of (C.copies copies.now n))) user) }
    {
        let index = index_of(alloc, copies)?;
        Ok(InboxMachine::new(alloc, index, user))
    }

    // Prints what there is of each wavelet.
    fn show(&self, alloc: Global, out: &mut String) -> Result<(), Memory>
        ensures { OnOk result (string_bytes out.new ≡ string_bytes out.old ++ (answered (inbox_of self.now) (Some Show)).text) }
    {
        let lines = self.index.inbox(alloc, &self.user, &self.marks)?;
        put_lines(lines.as_slice(), out)
    }

    // Prints where a word stands.
    fn search(&self, alloc: Global, word: &str, out: &mut String) -> Result<(), Memory>
        ensures { OnOk result (string_bytes out.new ≡ string_bytes out.old
            ++ (answered (inbox_of self.now) (Some (Search word.now))).text) }
    {
        let hits = self.index.search(alloc, &self.user, word)?;
        put_hits(hits.as_slice(), out)
    }

    // A wavelet is read up to a version.
    fn read(&mut self, alloc: Global, name: &WaveletName, version: u64) -> Result<(), Memory>
        ensures { OnOk result (inbox_of self.new ≡ (answered (inbox_of self.old) (Some (Read name.now version))).state) }
    {
        self.marks.set(alloc, name, version)?;
        Ok(())
    }

    // Does what a command says, prints what it prints, and tells whether it ends the run.
    fn answer(
        &mut self,
        alloc: Global,
        command: Option<Command>,
        out: &mut String,
    ) -> Result<bool, Memory>
        ensures state { OnOk result (inbox_of self.new ≡ (answered (inbox_of self.old) command).state) }
        ensures text { OnOk result (string_bytes out.new ≡ string_bytes out.old ++ (answered (inbox_of self.old) command).text) }
        ensures quit { IfOk result (λ quit. quit ≡ (answered (inbox_of self.old) command).quit) }
    {
        match command {
            None => {
                out.push_str("! unknown command\n")?;
                Ok(false)
            }
            Some(Command::Show) => {
                self.show(alloc, out)?;
                Ok(false)
            }
            Some(Command::Search { word }) => {
                self.search(alloc, word.text(), out)?;
                Ok(false)
            }
            Some(Command::Read { name, version }) => {
                self.read(alloc, &name, version)?;
                Ok(false)
            }
            Some(Command::Quit) => Ok(true),
        }
    }

    /// Takes a line, appends what it prints, and tells whether it ends the run. After want of memory a mark may be set.
    pub fn take_line(
        &mut self,
        alloc: Global,
        line: &[u8],
        out: &mut Vec<u8>,
    ) -> Result<bool, Memory>
        ensures state { OnOk result (inbox_of self.new ≡ (answered (inbox_of self.old) (command_of line.now)).state) }
        ensures text { OnOk result (out.new.items ≡ out.old.items ++ (answered (inbox_of self.old) (command_of line.now)).text) }
        ensures quit { IfOk result (λ quit. quit ≡ (answered (inbox_of self.old) (command_of line.now)).quit) }
    {
        let mut text = String::new(alloc);
        let command = command_of(alloc, line)?;
        let quit = self.answer(alloc, command, &mut text)?;
        out.extend_from_slice(text.as_str().as_bytes())?;
        Ok(quit)
    }
}

impl CommandMachine for InboxMachine {
    ghost use Rattle.inbox_machine.specs.Inboxes.{inbox_of};
    ghost use Rattle.inbox_machine.specs.Machine.{Inbox, clerk};

    ghost State = { Inbox };

    ghost state = { λ m. inbox_of m };

    ghost machine = { clerk };

    fn keeps(&self, _count: usize) -> bool {
        true
    }

    fn obey(&mut self, alloc: Global, line: &[u8], out: &mut Vec<u8>) -> Result<bool, Memory> {
        self.take_line(alloc, line, out)
    }
}
