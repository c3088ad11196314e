ghost use Rattle.std.specs.Prelude.{◌≡◌, ◌||◌, true};
ghost use Rattle.std.specs.Coded.{Coded-set, coded_bool};
ghost use Rattle.std.specs.List.{AllByRecursion, AllByRecursion-prop};
ghost use Rattle.wavelet_shelf.specs.Shelves.{hosted_of};
ghost use Rattle.pipe_machine.specs.Due.{are_told};
ghost use Rattle.hosted_copies.specs.Shown.{shown_in};
ghost use Rattle.pipe_machine.specs.Runs.{seats_in};
ghost use Rattle.pipe_machine.specs.Seats.{are_ordered, IsPlainSeat, IsPlainSeat-prop};

use crate::runs::Seats;
use wave_outside::Folder;
use wavelet_shelf::Shelf;

/// Many sessions over the histories of a shelf, each of which is hosted here.
pub struct PipeMachine<F: Folder> {
    pub(crate) shelf: Shelf<F>,
    pub(crate) seats: Seats,
    // Whether a turn failed, after which sessions may lack what they were to be sent.
    pub(crate) behind: bool,
    ghost plain: { AllByRecursion IsPlainSeat (seats_in seats.runs.items) } by { AllByRecursion-prop IsPlainSeat IsPlainSeat-prop
        (seats_in seats.runs.items) },
    ghost ordered: { are_ordered (seats_in seats.runs.items)
        ≡ true } by { Coded-set coded_bool (are_ordered (seats_in seats.runs.items)) true },
    ghost told: { behind || are_told (shown_in (hosted_of shelf)) (seats_in seats.runs.items)
        ≡ true } by { Coded-set coded_bool (behind || are_told (shown_in (hosted_of shelf)) (seats_in seats.runs.items)) true },
}

impl<F: Folder + Drop> Drop for PipeMachine<F> {
    fn drop(self) {
        let PipeMachine {
            shelf: _shelf,
            seats: _seats,
            behind: _behind,
        } = self;
    }
}

impl<F: Folder + Drop> PipeMachine<F> {
    /// The shelf.
    pub fn into_shelf(self) -> Shelf<F>
        ensures { result ≡ self.shelf }
    {
        let PipeMachine {
            shelf,
            seats: _seats,
            behind: _behind,
        } = self;
        shelf
    }
}
