use std::marker::Model;

/// The key of a client, at most 2^53 - 1.
#[derive(Debug, Drop)]
pub(crate) struct ClientKey {
    key: u64,
}

impl Model for ClientKey {
    ghost use Rattle.std.specs.Prelude.{ℕ, ◌≤◌};
    ghost use Rattle.doc_items.specs.Limits.{max_count};

    ghost Value = { ℕ };

    ghost view = { λ k. k.key };

    ghost invariant = { λ k. k.key ≤ max_count };
}

impl ClientKey {
    ghost use Rattle.std.specs.Prelude.{◌≡◌, ◌≤◌};
    ghost use Rattle.doc_items.specs.Limits.{max_count};

    /// The key of this number.
    pub fn new(key: u64) -> ClientKey
        requires { key ≤ max_count }
        ensures { result ≡ key }
    {
        ClientKey { key }
    }

    /// The number.
    pub fn get(&self) -> u64
        ensures value { result ≡ self.now }
        ensures bound { result ≤ max_count }
    {
        self.key
    }
}
