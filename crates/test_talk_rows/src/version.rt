// A version that a row names, with its hash.
use crate::Fault;
use doc_items::MAX_COUNT;
use wave_base::HashedVersion;

/// The version with this hash; `BadRow` where no history can have it.
pub(crate) fn hashed(version: u64, hash: [u8; 32]) -> Result<HashedVersion, Fault> {
    if version > MAX_COUNT {
        return Err(Fault::BadRow);
    }
    Ok(HashedVersion { version, hash })
}
