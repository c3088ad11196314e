ghost use Rattle.follower_rules.specs.Laws.{NewIsSound, EditIsSound, SubmitIsSound, RefusalIsSound, SnapshotIsSound, Advances};

/// The law of a follower's calls. A new follower is sound: what is pending is valid where it is, and inserts no more than may be
/// inserted. Each call keeps it so. An edit moves the screen by its operations, and to take a submission changes no screen.
pub fn calls_keep()
    ensures new { NewIsSound }
    ensures edit { EditIsSound }
    ensures submit { SubmitIsSound }
    ensures refusal { RefusalIsSound }
    ensures snapshot { SnapshotIsSound }
{}

/// The law of deltas: a sound follower advances by each delta that starts where it is, is valid there and within the bounds, and
/// is sound after it. The flight's own delta leaves the screen as it was. Another's is taken past what is pending, and the screen
/// moves by what is left of it.
pub fn deltas_advance()
    ensures { Advances }
{}
