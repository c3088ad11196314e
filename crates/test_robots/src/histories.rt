// A history of two deltas by alice, the first of which adds a robot.
use delta_history::History;
use std::alloc::Global;
use std::test::Fail;
use test_wavelet_words::delta_at;
use wave_base::WaveletName;

pub(crate) const ROBOT: &str = "robot@a.com";

const FIRST: &str = "add alice@a.com; add robot@a.com; b+1: +hi";

const SECOND: &str = "b+2: +ho; add bob@a.com";

/// The history. Its deltas end at versions 3 and 5.
pub(crate) fn history(alloc: Global) -> Result<History, Fail> {
    let name = WaveletName::parse(alloc, "a.com/w1/a.com/conv+root")?;
    let mut history = History::new(alloc, name);
    let first = delta_at(alloc, "alice@a.com", 1, history.head(), FIRST)?;
    history.push_applied(alloc, first)?;
    let second = delta_at(alloc, "alice@a.com", 2, history.head(), SECOND)?;
    history.push_applied(alloc, second)?;
    Ok(history)
}
