ghost use Rattle.std.specs.Prelude.{◌≡◌, true, Some, None, IfSome, option_and_then};
ghost use Rattle.std.specs.Option.{option_copied, option_map};
ghost use Rattle.change_view.specs.Rules.{combined, one_second, one_second_turned, one_over, one_under, one_then, one_unlike};
ghost use Rattle.change_view.specs.Rules.{one_starting, one_inserted, one_deleted, passing, same_old, new_is_old, old_is_there};
ghost use Rattle.change_view.specs.Lists.{value_of};

use crate::entry::{ChangeRef, same_values};

/// What becomes of a key where two change sets meet at it.
#[derive(Clone, Copy)]
pub enum Rule {
    /// The second's change where it has one, else the first's.
    Second,
    /// The second's change turned back where it has one, else the first's.
    SecondTurned,
    /// The first's change, from the second's new value where the second has the key.
    Over,
    /// The first's change where the second lacks the key.
    Under,
    /// From the first's old value to the second's new one; a key of one alone keeps its change.
    Then,
    /// The first's change where the second hasn't the very same.
    Unlike,
    /// The first's change, from the second's new value, absent where the second lacks the key.
    Starting,
    /// The first's new value, as absent before; nothing where the new value is absent.
    Inserted,
    /// The first's old value, as absent afterwards.
    Deleted,
}

impl Rule {
    /// What the rule makes of the two changes of a key.
    pub fn combine<'a>(
        self,
        key: &'a str,
        first: Option<ChangeRef<'a>>,
        second: Option<ChangeRef<'a>>,
    ) -> Option<ChangeRef<'a>>
        ensures value { option_map value_of result ≡ combined self (option_map value_of first.entry) (option_map value_of second.entry) }
        ensures key { IfSome result (λ c. c.key.now ≡ key.entry.now) }
    {
        let made = match self {
            Rule::Second => second_first(first, second),
            Rule::SecondTurned => second_turned_first(first, second),
            Rule::Over => over(first, second),
            Rule::Under => under(first, second),
            Rule::Then => then(first, second),
            Rule::Unlike => unlike(first, second),
            Rule::Starting => starting(first, second),
            Rule::Inserted => inserted(first),
            Rule::Deleted => deleted(first),
        };
        at(key, made)
    }
}

// The change of a key in one of the two sets, where that has the key. What a rule makes may name any key.
type Side<'a> = Option<ChangeRef<'a>>;

fn second_first<'a>(first: Side<'a>, second: Side<'a>) -> Side<'a>
    ensures { option_map value_of result ≡ one_second (option_map value_of first.entry) (option_map value_of second.entry) }
{
    match second {
        Some(change) => Some(change),
        None => first,
    }
}

fn second_turned_first<'a>(first: Side<'a>, second: Side<'a>) -> Side<'a>
    ensures { option_map value_of result ≡ one_second_turned (option_map value_of first.entry) (option_map value_of second.entry) }
{
    match second {
        Some(change) => Some(change.turned()),
        None => first,
    }
}

fn over<'a>(first: Side<'a>, second: Side<'a>) -> Side<'a>
    ensures { option_map value_of result ≡ one_over (option_map value_of first.entry) (option_map value_of second.entry) }
{
    match first {
        Some(mine) => match second {
            Some(theirs) => Some(ChangeRef {
                key: mine.key,
                old: theirs.new,
                new: mine.new,
            }),
            None => Some(mine),
        },
        None => None,
    }
}

fn under<'a>(first: Side<'a>, second: Side<'a>) -> Side<'a>
    ensures { option_map value_of result ≡ one_under (option_map value_of first.entry) (option_map value_of second.entry) }
{
    match second {
        Some(_) => None,
        None => first,
    }
}

fn then<'a>(first: Side<'a>, second: Side<'a>) -> Side<'a>
    ensures { option_map value_of result ≡ one_then (option_map value_of first.entry) (option_map value_of second.entry) }
{
    match first {
        Some(before) => match second {
            Some(after) => Some(ChangeRef {
                key: before.key,
                old: before.old,
                new: after.new,
            }),
            None => Some(before),
        },
        None => second,
    }
}

fn unlike<'a>(first: Side<'a>, second: Side<'a>) -> Side<'a>
    ensures { option_map value_of result ≡ one_unlike (option_map value_of first.entry) (option_map value_of second.entry) }
{
    match first {
        Some(mine) => match second {
            Some(theirs) => {
                if mine.same_values(theirs) {
                    None
                } else {
                    Some(mine)
                }
            }
            None => Some(mine),
        },
        None => None,
    }
}

fn starting<'a>(first: Side<'a>, second: Side<'a>) -> Side<'a>
    ensures { option_map value_of result ≡ one_starting (option_map value_of first.entry) (option_map value_of second.entry) }
{
    match first {
        Some(mine) => match second {
            Some(theirs) => Some(ChangeRef {
                key: mine.key,
                old: theirs.new,
                new: mine.new,
            }),
            None => Some(ChangeRef {
                key: mine.key,
                old: None,
                new: mine.new,
            }),
        },
        None => None,
    }
}

fn inserted<'a>(first: Side<'a>) -> Side<'a>
    ensures { option_map value_of result ≡ option_and_then one_inserted (option_map value_of first.entry) }
{
    match first {
        Some(mine) => match mine.new {
            Some(new) => Some(ChangeRef {
                key: mine.key,
                old: None,
                new: Some(new),
            }),
            None => None,
        },
        None => None,
    }
}

fn deleted<'a>(first: Side<'a>) -> Side<'a>
    ensures { option_map value_of result ≡ option_map one_deleted (option_map value_of first.entry) }
{
    match first {
        Some(mine) => Some(ChangeRef {
            key: mine.key,
            old: mine.old,
            new: None,
        }),
        None => None,
    }
}

fn at<'a>(key: &'a str, change: Option<ChangeRef<'a>>) -> Option<ChangeRef<'a>>
    ensures value { option_map value_of result ≡ option_map value_of change.entry }
    ensures key { IfSome result (λ c. c.key.now ≡ key.entry.now) }
{
    match change {
        Some(change) => Some(change.at(key)),
        None => None,
    }
}

/// What is asked of a key where two change sets meet at it.
#[derive(Clone, Copy)]
pub enum Test {
    /// Where both have the key: their old values are equal.
    SameOld,
    /// Where both have the key: the first's new value is the second's old one.
    NewIsOld,
    /// Where the second has the key: its old value is the first's new one, absent where the first lacks the key.
    OldIsThere,
}

impl Test {
    /// Whether the two changes of a key pass.
    pub fn holds(self, first: Option<ChangeRef<'_>>, second: Option<ChangeRef<'_>>) -> bool
        ensures { result ≡ passing self (option_map value_of first.entry) (option_map value_of second.entry) }
    {
        match self {
            Test::SameOld => has_same_old(first, second),
            Test::NewIsOld => has_new_as_old(first, second),
            Test::OldIsThere => has_old_there(first, second),
        }
    }
}

fn has_same_old(first: Option<ChangeRef<'_>>, second: Option<ChangeRef<'_>>) -> bool
    ensures { result ≡ same_old (option_map value_of first.entry) (option_map value_of second.entry) }
{
    match first {
        Some(mine) => match second {
            Some(theirs) => same_values(mine.old, theirs.old),
            None => true,
        },
        None => true,
    }
}

fn has_new_as_old(first: Option<ChangeRef<'_>>, second: Option<ChangeRef<'_>>) -> bool
    ensures { result ≡ new_is_old (option_map value_of first.entry) (option_map value_of second.entry) }
{
    match first {
        Some(mine) => match second {
            Some(theirs) => same_values(mine.new, theirs.old),
            None => true,
        },
        None => true,
    }
}

fn has_old_there(first: Option<ChangeRef<'_>>, second: Option<ChangeRef<'_>>) -> bool
    ensures { result ≡ old_is_there (option_map value_of first.entry) (option_map value_of second.entry) }
{
    match second {
        Some(theirs) => match first {
            Some(mine) => same_values(theirs.old, mine.new),
            None => theirs.old.is_none(),
        },
        None => true,
    }
}
