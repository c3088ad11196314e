ghost use Rattle.std.specs.Prelude.{◌≡◌, ◌++◌, ◌∷◌, [], length, IfOk, OnOk, OnErr};

use doc_items::Memory;
use message_json::Message;
use std::alloc::Global;
use std::marker::Model;

/// Messages, in the order in which they are sent. Seen as a list.
#[derive(Drop)]
pub struct Messages {
    list: Vec<Message>,
}

impl Model for Messages {
    ghost use Rattle.std.specs.Coded.{coded_list};
    ghost use Rattle.std.specs.Prelude.{List};
    ghost use Rattle.message_json.specs.contracts.message.Message as message_row;
    ghost use Rattle.message_json.specs.declared.message.Message.{Message};

    ghost Value = { List Message };

    ghost coded = { coded_list message_row.the_row.coded };

    ghost view = { λ m. m.list.items };
}

impl Messages {
    /// No messages.
    pub(crate) fn new(alloc: Global) -> Messages
        ensures { result ≡ [] }
    {
        Messages {
            list: Vec::new(alloc),
        }
    }

    /// One message. The error is want of memory, here and below.
    pub(crate) fn one(alloc: Global, message: Message) -> Result<Messages, Memory>
        ensures { IfOk result (λ m. m ≡ message ∷ []) }
    {
        let mut list = Vec::new(alloc);
        list.push(message)?;
        Ok(Messages { list })
    }

    /// One message more, at the end. After want of memory all is as it was.
    pub(crate) fn push(&mut self, message: Message) -> Result<(), Memory>
        ensures ok { OnOk result (self.new ≡ self.old ++ message ∷ []) }
        ensures err { OnErr result (self.new ≡ self.old) }
    {
        self.list.push(message)?;
        Ok(())
    }

    /// The others, at the end. After want of memory all is as it was.
    pub(crate) fn append(&mut self, others: Messages) -> Result<(), Memory>
        ensures ok { OnOk result (self.new ≡ self.old ++ others) }
        ensures err { OnErr result (self.new ≡ self.old) }
    {
        let mut others = others;
        self.list.append(&mut others.list)
    }

    /// The messages.
    pub fn as_slice(&self) -> &[Message]
        ensures { result.now ≡ self.now }
    {
        self.list.as_slice()
    }
}
