ghost use Rattle.std.specs.Prelude.{◌≡◌, ◌≤◌};
ghost use Rattle.std.specs.Cmp.Rules.{comparing};
ghost use Rattle.std.proofs.Common.{rules};
ghost use Rattle.doc_items.specs.Limits.{max_count};
ghost use Rattle.wave_base.specs.Versions.{same_version};

use std::marker::Model;

/// A version of a history, which counts its operations, and the hash of the history there.
#[derive(Clone, Copy, Debug, Drop)]
pub struct HashedVersion {
    /// At most 2^53 - 1.
    pub version: u64,
    /// 32 bytes of SHA-256.
    pub hash: [u8; 32],
}

impl Model for HashedVersion {
    ghost use Rattle.std.specs.Prelude.{◌≤◌};
    ghost use Rattle.doc_items.specs.Limits.{max_count};
    ghost use Rattle.wave_base.specs.Versions.{VersionAt};

    ghost Value = { VersionAt };

    ghost view = { λ v. record { version = v.version; hash = v.hash } };

    ghost invariant = { λ v. v.version ≤ max_count };

    ghost inverse = { λ v. record { version = v.version; hash = v.hash } };
}

impl PartialEq for HashedVersion {
    ghost eq = { same_version };

    ghost laws = { Prim.search (comparing, rules) };

    fn eq(&self, other: &HashedVersion) -> bool {
        self.version == other.version && self.hash == other.hash
    }
}

impl Eq for HashedVersion {
    ghost laws = { Prim.search (comparing, rules) };
}
