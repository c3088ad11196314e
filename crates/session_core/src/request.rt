use wave_base::{HashedVersion, WaveletName};
use wave_messages::Message;
use wavelet_op::{Submission, Verdict};

/// What a message asks for.
#[derive(Drop)]
pub enum Request {
    /// Nothing more: this is the reply.
    Reply(Message),
    /// A wavelet is to be opened: `Session::answer_attach` gives the reply.
    Attach {
        name: WaveletName,
        at: Option<HashedVersion>,
    },
    /// A submission is to be judged: `Session::answer_submit` gives the reply.
    Submit {
        name: WaveletName,
        submission: Submission,
    },
    /// A peer has a wavelet up to there: `Session::answer_have` notes it, and there is no reply.
    Have {
        name: WaveletName,
        at: HashedVersion,
    },
}

/// What became of a submission.
#[derive(Clone, Copy, Debug, PartialEq, Eq)]
pub enum SubmitAnswer {
    /// It was judged.
    Verdict(Verdict),
    /// It waits for the wavelet's host.
    Queued,
    /// The wavelet's host isn't reached from here.
    NoHost,
    /// The store failed.
    Store,
}
