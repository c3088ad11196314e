// A session of a pipe, with its name.
ghost use Rattle.std.specs.Prelude.{◌≡◌};
ghost use Rattle.std.specs.Cmp.Lexicographic.{slice_cmp};
ghost use Rattle.std.specs.Ordering.{nat_cmp, is_gt};
ghost use Rattle.pipe_machine.specs.Seats.{begun};

use session_core::Session;
use std::alloc::Global;
use std::cmp::Ordering;
use wave_base::SessionName;

/// A session with its name.
pub struct Seat {
    pub name: SessionName,
    pub session: Session,
}

impl Drop for Seat {
    fn drop(self) {
        let Seat {
            name: _name,
            session: _session,
        } = self;
    }
}

// How two names compare, in bytes.
fn compared(left: &SessionName, right: &SessionName) -> Ordering
    ensures { result ≡ slice_cmp nat_cmp left.now right.now }
{
    left.text().cmp(right.text())
}

/// Whether the seat's name is before this one.
pub(crate) fn is_before(seat: &Seat, name: &SessionName) -> bool
    ensures { result ≡ is_gt (slice_cmp nat_cmp name.now seat.now.name) }
{
    match compared(name, &seat.name) {
        Ordering::Greater => true,
        Ordering::Equal => false,
        Ordering::Less => false,
    }
}

/// The seat of a new session of a pipe.
pub(crate) fn begun(alloc: Global, name: SessionName) -> Seat
    ensures { result ≡ begun name }
{
    Seat {
        name,
        session: Session::new(alloc, None, Vec::new(alloc)),
    }
}
