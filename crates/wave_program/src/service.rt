// What a run does over the wavelets of a store.
ghost use Rattle.std.specs.Prelude.{◌≡◌, ◌⊎◌, IsSome};
ghost use Rattle.wave_outside.specs.Counts.{Rose};
ghost use Rattle.wavelet_shelf.specs.Shelves.{in_folder, fault_count};
ghost use Rattle.wave_program.specs.Run.{IsServing};
ghost use Rattle.wave_program.specs.Services.{IsDone};

use crate::asks::{inbox_over, play_over};
use crate::pipe::serve_over;
use std::alloc::Global;
use wave_base::{Address, WaveletName};
use wave_outside::{Clock, Folder, Sink, Source};
use wavelet_shelf::Shelf;

/// What a run does over the wavelets of a store.
pub enum Service {
    /// It answers the lines of sessions.
    Lines,
    /// It plays the history of a wavelet.
    Play { wavelet: WaveletName },
    /// It answers what a user has, and where a word stands.
    Inbox { user: Address },
}

impl Drop for Service {
    fn drop(self) {
        match self {
            Service::Lines => {}
            Service::Play { wavelet: _wavelet } => {}
            Service::Inbox { user: _user } => {}
        }
    }
}

impl Service {
    /// Does this over the shelf, and gives the shelf as it then is, with the exit status.
    pub fn serve<S: Source, W: Sink, F: Folder + Drop, C: Clock>(
        self,
        alloc: Global,
        shelf: Shelf<F>,
        source: &mut S,
        sink: &mut W,
        clock: &mut C,
    ) -> (Shelf<F>, u8)
        requires { IsSome (in_folder shelf) }
        ensures done { IsDone C.Clock self shelf result.0 clock.old (S.left source.old) (S.left source.new) (W.written sink.old)
            (W.written sink.new) result.1 }
        ensures folder { IsSome (in_folder result.0) }
        ensures source_failed { result.1 ≡ 3 → Rose (S.faults source.old) (S.faults source.new) }
        ensures sink_failed { result.1 ≡ 4 → Rose (W.faults sink.old) (W.faults sink.new) }
        ensures store_failed { result.1 ≡ 5 → Rose (fault_count shelf) (fault_count result.0) }
        ensures known { IsServing result.1 }
    {
        match self {
            Service::Lines => serve_over(alloc, shelf, source, sink, clock),
            Service::Play { wavelet } => {
                let status = play_over(alloc, &shelf, wavelet, source, sink);
                (shelf, status)
            }
            Service::Inbox { user } => {
                let status = inbox_over(alloc, &shelf, user, source, sink);
                (shelf, status)
            }
        }
    }
}
