// How many items operations insert.
ghost use Rattle.std.specs.Prelude.{◌≡◌, ◌≤◌, ◌+◌, ◌++◌, map};
ghost use Rattle.std.specs.Option.{option_to_list};
ghost use Rattle.wavelet_state.specs.Snapshots.{max_inserted};
ghost use Rattle.follower_rules.specs.Followers.{inserted_all};
ghost use Rattle.wavelet_op.specs.Acts.{inserted, meanings};

use wavelet_op::Ops;

// The number of items that entries insert.
fn inserted_queue(queue: &[Ops]) -> u64
    requires { inserted_all (map meanings queue.now) ≤ max_inserted }
    ensures { result ≡ inserted_all (map meanings queue.now) }
{
    let mut sum = 0;
    for ops in queue {
        sum += ops.inserted();
    }
    sum
}

/// The number of items that operations and the entries after them insert.
pub(crate) fn inserted_both(ops: &Ops, queue: &[Ops]) -> u64
    requires { inserted (meanings ops.now) + inserted_all (map meanings queue.now) ≤ max_inserted }
    ensures { result ≡ inserted (meanings ops.now) + inserted_all (map meanings queue.now) }
{
    ops.inserted() + inserted_queue(queue)
}

/// The number of items that the flight's operations, if there are any, and the entries insert.
pub(crate) fn inserted_all(ops: &Option<Ops>, queue: &[Ops]) -> u64
    requires { inserted_all (map meanings (option_to_list ops.now ++ queue.now)) ≤ max_inserted }
    ensures { result ≡ inserted_all (map meanings (option_to_list ops.now ++ queue.now)) }
{
    match ops {
        Some(ops) => inserted_both(ops, queue),
        None => inserted_queue(queue),
    }
}
