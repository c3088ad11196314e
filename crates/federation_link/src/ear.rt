ghost use Rattle.std.specs.Prelude.{◌≡◌};
ghost use Rattle.federation_link.specs.Steps.{is_cut};

/// What there is to hear on a link.
#[derive(Drop)]
pub enum Ear {
    /// The link is open, and each message that came was taken.
    Open,
    /// The link is open, and this message came and is to be taken.
    Holding(Vec<u8>),
    /// The link failed or was closed by its peer.
    Cut,
}

impl Ear {
    /// Whether the link was cut.
    pub(crate) fn is_cut(&self) -> bool
        ensures { result ≡ is_cut self.now }
    {
        match self {
            Ear::Open => false,
            Ear::Holding(_) => false,
            Ear::Cut => true,
        }
    }
}
