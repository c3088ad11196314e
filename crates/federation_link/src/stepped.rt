/// What a step of a link with another domain came to.
#[derive(Clone, Copy, Debug, PartialEq, Eq)]
pub enum Stepped {
    /// There is a new link, on which was sent for which domain this one speaks, how far each copy reaches, and each submission that
    /// waits.
    Dialled,
    /// A message was taken, or a submission was sent.
    Worked,
    /// Nothing came, and there was nothing to send.
    Idle,
    /// The link failed or was closed by its peer, or there is none: the next step dials.
    Cut,
}
