// All that a run meets.
use wave_outside::Folder;
use wave_server::Server;

/// All that a run meets: lines come from the source and go to the sink, wavelets stand in the folder, the clock tells the time, and the
/// server's parts reach the net.
pub struct Outside<S, W, F: Folder + Drop, C, N, P, G> {
    pub source: S,
    pub sink: W,
    pub folder: F,
    pub clock: C,
    pub server: Server<N, F, P, G>,
}

impl<S: Drop, W: Drop, F: Folder + Drop, C: Drop, N: Drop, P: Drop, G: Drop> Drop
    for Outside<S, W, F, C, N, P, G> {
    fn drop(self) {
        let Outside {
            source: _source,
            sink: _sink,
            folder: _folder,
            clock: _clock,
            server: _server,
        } = self;
    }
}
