/// How a run goes on after a line.
#[derive(Clone, Copy, PartialEq, Eq)]
pub(crate) enum Mood {
    /// The next line is read.
    Reading,
    /// The line ended the run.
    Left,
    /// The server closed the link.
    Closed,
}

/// What one look at the link gave.
#[derive(Clone, Copy, PartialEq, Eq)]
pub(crate) enum Looked {
    Message,
    Nothing,
    Closed,
}

/// What a line asks for.
#[derive(Clone, Copy, PartialEq, Eq)]
pub(crate) enum After {
    /// The run ends.
    Leaves,
    /// What is under way is waited for.
    Waits,
    /// The link is looked at.
    Looks,
}

/// What a read of bytes came to.
#[derive(Clone, Copy, PartialEq, Eq)]
pub(crate) enum Pumped {
    /// So many bytes were read, and the run goes on.
    Read(usize),
    /// A line ended the run.
    Left,
    /// The server closed the link.
    Closed,
    /// The input has ended.
    Ended,
}
