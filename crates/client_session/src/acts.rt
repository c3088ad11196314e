// What is sent and printed.
ghost use Rattle.std.specs.Prelude.{◌≡◌, ◌++◌, string_bytes, IfOk, OnOk};
ghost use Rattle.client_session.specs.Answers.{acts, quiet, says, syncing, leaving, printed};
ghost use Rattle.client_session.specs.Editing.{handed};
ghost use Rattle.client_session.specs.Machine.{with_sent};

use crate::messages::Messages;
use crate::said::Said;
use doc_items::Memory;
use std::alloc::Global;

/// A submission that was taken, or what is said where it couldn't be.
pub(crate) struct Handed {
    pub send: Messages,
    pub unsent: Said,
}

impl Drop for Handed {
    fn drop(self) {
        let Handed {
            send: _send,
            unsent: _unsent,
        } = self;
    }
}

impl Handed {
    /// These messages are sent, and this is said.
    pub fn new(send: Messages, unsent: Said) -> Handed
        ensures { result ≡ handed send unsent }
    {
        Handed { send, unsent }
    }

    /// The messages, and what is said, by value.
    fn into_parts(self) -> (Messages, Said)
        ensures { result ≡ (self.send, self.unsent) }
    {
        let Handed { send, unsent } = self;
        (send, unsent)
    }
}

/// What a line or a message makes the client send and print.
pub struct Acts {
    /// The messages, in order.
    pub send: Messages,
    /// What the line or the message itself prints.
    pub said: Said,
    /// What is then printed of the submission that couldn't be taken.
    pub unsent: Said,
    /// The line waits for what is under way.
    pub waits: bool,
    /// The line ends the run.
    pub ends: bool,
}

impl Drop for Acts {
    fn drop(self) {
        let Acts {
            send: _send,
            said: _said,
            unsent: _unsent,
            waits: _waits,
            ends: _ends,
        } = self;
    }
}

impl Acts {
    /// These messages are sent, and this is printed.
    pub(crate) fn new(send: Messages, said: Said) -> Acts
        ensures { result ≡ acts send said }
    {
        Acts {
            send,
            said,
            unsent: Said::Nothing,
            waits: false,
            ends: false,
        }
    }

    /// Nothing is sent, and nothing printed.
    pub(crate) fn quiet(alloc: Global) -> Acts
        ensures { result ≡ quiet }
    {
        Acts::new(Messages::new(alloc), Said::Nothing)
    }

    /// This is printed.
    pub(crate) fn says(alloc: Global, said: Said) -> Acts
        ensures { result ≡ says said }
    {
        Acts::new(Messages::new(alloc), said)
    }

    /// The line waits.
    pub(crate) fn syncing(alloc: Global) -> Acts
        ensures { result ≡ syncing }
    {
        Acts {
            send: Messages::new(alloc),
            said: Said::Nothing,
            unsent: Said::Nothing,
            waits: true,
            ends: false,
        }
    }

    /// The line ends the run.
    pub(crate) fn leaving(alloc: Global) -> Acts
        ensures { result ≡ leaving }
    {
        Acts {
            send: Messages::new(alloc),
            said: Said::Nothing,
            unsent: Said::Nothing,
            waits: false,
            ends: true,
        }
    }

    /// The submission is handed in after what is sent, and what is said of it is printed where `tells`. The error is want of memory.
    pub(crate) fn with_sent(self, handed: Handed, tells: bool) -> Result<Acts, Memory>
        ensures { IfOk result (λ a. a ≡ with_sent tells self handed) }
    {
        let Acts {
            send,
            said,
            unsent: _unsent,
            waits,
            ends,
        } = self;
        let (more, told) = handed.into_parts();
        let mut send = send;
        send.append(more)?;
        let unsent = if tells { told } else { Said::Nothing };
        Ok(Acts {
            send,
            said,
            unsent,
            waits,
            ends,
        })
    }

    /// Appends all that is printed. The error is want of memory.
    pub fn write(&self, out: &mut String) -> Result<(), Memory>
        ensures { OnOk result (string_bytes out.new ≡ string_bytes out.old ++ printed self.now) }
    {
        self.said.write(out)?;
        self.unsent.write(out)
    }
}
