//! The chain of hashes by which a history is known: each version's hash is made of the one before it and the delta between.
#![tactic(auto)]

ghost use Rattle.std.specs.Prelude.{◌≡◌};
ghost use Rattle.wave_hash.specs.Chain.{zero_hash_of, next_hash_of};

use sha2::{Digest, Sha256};
use wave_base::WaveletName;

/// The hash of a wavelet's history at version 0: SHA-256 of the name's text.
#[tactic(auto, unfolding(crate::specs::Chain::zero_hash_of))]
pub fn zero_hash(name: &WaveletName) -> [u8; 32]
    ensures { result ≡ zero_hash_of name.now }
{
    let mut hasher = Sha256::new();
    hasher.update(name.text().as_bytes());
    hasher.finalize()
}

/// The hash of a history after a delta: SHA-256 of the 32 bytes of the hash before it, followed by the delta's bytes.
#[tactic(auto, unfolding(crate::specs::Chain::next_hash_of))]
pub fn next_hash(old: &[u8; 32], bytes: &[u8]) -> [u8; 32]
    ensures { result ≡ next_hash_of old.now bytes.now }
{
    let mut hasher = Sha256::new();
    hasher.update(old.as_slice());
    hasher.update(bytes);
    hasher.finalize()
}
