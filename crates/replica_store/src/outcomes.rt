// Verdicts that were noted.
ghost use Rattle.std.specs.Prelude.{◌≡◌, ◌≤◌, ◌∷◌, ◌++◌, [], length, OnOk, OnErr};
ghost use Rattle.replica_store.specs.Copies.{most_noted};
ghost use Rattle.replica_store.specs.Settling.{noted_for, unnoted, newest, with_noted};

use doc_items::Memory;
use std::alloc::Global;
use wave_base::DeltaId;
use wavelet_op::Verdict;

/// How many verdicts are kept. At one more the oldest is let go.
const MOST: usize = 1024;

/// The host's verdict on the submission of an id.
#[derive(Drop)]
pub struct Noted {
    pub id: DeltaId,
    pub verdict: Verdict,
}

/// The verdict that was noted for the id.
pub(crate) fn noted_for(list: &[Noted], id: &DeltaId) -> Option<Verdict>
    ensures { result ≡ noted_for id.now list.now }
{
    for noted in list {
        if *id == noted.id {
            return Some(noted.verdict);
        }
    }
    None
}

/// What was noted for others stays.
pub(crate) fn forget(list: &mut Vec<Noted>, id: &DeltaId)
    ensures { list.new.items ≡ unnoted id.now list.old.items }
{
    list.retain(|noted| *id != noted.id);
}

// The last of as many verdicts as are kept comes in the place of the first.
fn replace_oldest(list: &mut Vec<Noted>, last: Noted)
    requires { length list.old.items ≡ most_noted }
    ensures { list.new.items ≡ newest (list.old.items ++ last ∷ []) }
{
    drop(list.remove(0));
    list.push_reserved(last);
}

/// The verdict on the submission of the id is noted, after the others, of which the newest stay. After want of memory all is as it was.
pub(crate) fn note(
    alloc: Global,
    list: &mut Vec<Noted>,
    id: &DeltaId,
    verdict: Verdict,
) -> Result<(), Memory>
    requires { length list.old.items ≤ most_noted }
    ensures ok { OnOk result (list.new.items ≡ with_noted list.old.items id.now verdict) }
    ensures same { OnErr result (list.new.items ≡ list.old.items) }
{
    let id = id.copy(alloc)?;
    if list.len() < MOST {
        list.push(Noted { id, verdict })?;
        return Ok(());
    }
    replace_oldest(list, Noted { id, verdict });
    Ok(())
}
