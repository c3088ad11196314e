// Single changes that start and stop, in a list with ascending keys.
ghost use Rattle.std.specs.Prelude.{◌≡◌, ◌<◌, ◌≤◌, ◌+◌, length, vec_capacity, vec_len};
ghost use Rattle.std.specs.FinMap as finite;
ghost use Rattle.std.specs.Str.{encode_utf8_all};
ghost use Rattle.doc_items.specs.Changes.{IsAscending, change_set, key_change, without, with_changes};

use crate::spot::{Spot, find};
use doc_items::{Change, Text};

/// The key's change stops, if it runs.
pub(crate) fn stop(list: &mut Vec<Change>, key: &Text)
    requires { IsAscending list.old.items }
    ensures ascending { IsAscending list.new.items }
    ensures stopped { change_set list.new.items ≡ finite.remove (change_set list.old.items) (encode_utf8_all key.now) }
    ensures room { vec_capacity list.old ≤ vec_capacity list.new }
    ensures len { vec_len list.new ≤ vec_len list.old }
{
    match find(list.as_slice(), key) {
        Spot::Here(index) => {
            let _stopped = list.remove(index);
        }
        Spot::Before(_) => {}
    }
}

/// The change runs from now on, in place of another of its key.
pub(crate) fn start(list: &mut Vec<Change>, change: Change)
    requires ascending { IsAscending list.old.items }
    requires room { vec_len list.old < vec_capacity list.old }
    ensures ascending { IsAscending list.new.items }
    ensures started { change_set list.new.items
        ≡ finite.insert (change_set list.old.items) (encode_utf8_all change.key) (key_change change) }
    ensures room { vec_capacity list.old ≤ vec_capacity list.new }
    ensures len { vec_len list.new ≤ vec_len list.old + 1 }
{
    match find(list.as_slice(), &change.key) {
        Spot::Here(index) => list[index] = change,
        Spot::Before(index) => match list.insert(index, change) {
            Ok(()) => {}
            Err(_) => unreachable!(),
        },
    }
}

/// The changes of the keys stop, where they run.
pub(crate) fn stop_all(list: &mut Vec<Change>, ends: &[Text])
    requires { IsAscending list.old.items }
    ensures ascending { IsAscending list.new.items }
    ensures stopped { change_set list.new.items ≡ without (change_set list.old.items) ends.now }
    ensures room { vec_capacity list.old ≤ vec_capacity list.new }
    ensures len { vec_len list.new ≤ vec_len list.old }
{
    for key in ends {
        stop(list, key);
    }
}

/// The changes run from now on.
pub(crate) fn start_all(list: &mut Vec<Change>, changes: Vec<Change>)
    requires ascending { IsAscending list.old.items }
    requires room { vec_len list.old + vec_len changes ≤ vec_capacity list.old }
    ensures ascending { IsAscending list.new.items }
    ensures started { change_set list.new.items ≡ with_changes (change_set list.old.items) changes.items }
{
    for change in changes {
        start(list, change);
    }
}
