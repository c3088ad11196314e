// The first delta of a wavelet, submitted to a shelf.
use std::alloc::Global;
use std::test::Fail;
use test_wavelet_words::submission;
use wave_base::{HashedVersion, WaveletName};
use wave_hash::zero_hash;
use wave_outside::Folder;
use wavelet_op::{Submission, Verdict};
use wavelet_shelf::Shelf;

pub(crate) fn name(alloc: Global) -> Result<WaveletName, Fail> {
    Ok(WaveletName::parse(alloc, "a.com/w1/a.com/conv+root")?)
}

// Alice's first delta of the wavelet.
pub(crate) fn first(alloc: Global, name: &WaveletName) -> Result<Submission, Fail> {
    let at = HashedVersion {
        version: 0,
        hash: zero_hash(name),
    };
    Ok(submission(alloc, "alice@a.com", 1, at, "add alice@a.com; b+1: +hi")?)
}

// Whether the first delta is acknowledged.
pub(crate) fn is_submitted<F: Folder + Drop>(
    alloc: Global,
    shelf: &mut Shelf<F>,
) -> Result<bool, Fail> {
    let name = name(alloc)?;
    let made = first(alloc, &name)?;
    Ok(match shelf.submit(alloc, &name, &made, 1000)? {
        Verdict::Ack { at, to } => at == 0 && to.version == 2,
        _ => false,
    })
}
