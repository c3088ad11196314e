//! The outside of the program as traits: where its bytes come from and where they go to, what tells the time, folders of files,
//! links with messages, a net that hands links out, what runs jobs in threads, and what is called around turns. Each object counts its
//! calls that failed, so that a caller's contract can say why it stopped. For each there is one in memory, for tests.
#![tactic(auto)]

mod calls;
mod clock;
mod faults;
mod folder;
mod gate;
mod job;
mod link;
mod memory;
mod memory_folder;
mod memory_link;
mod memory_net;
mod net;
mod sink;
mod source;
mod streams;

pub use clock::{Clock, TickClock};
pub use faults::{Failed, Faults};
pub use folder::{Folder, FolderFault};
pub use gate::{Gate, HoldingGate, OpenGate};
pub use job::{InTurn, Job, Refused, RefusingSpawner, Spawner};
pub use link::{Link, LinkEvent, LinkFault, Polled};
pub use memory::{MemorySink, MemorySource};
pub use memory_folder::{Entered, MemoryFolder, StoredFile};
pub use memory_link::{Kept, MemoryLink};
pub use memory_net::MemoryNet;
pub use net::{Accepted, Net, NetFault};
pub use sink::Sink;
pub use source::Source;
pub use streams::{ReaderSource, WriterSink};
