// Laws of histories in journals.
ghost use Rattle.wavelet_container.specs.Records.{HistoryIsOne, HistoryIsWhole};

/// Under one name a file shorter than 2 ^ 64 bytes stands for one legal history at most, and one that stands for a history isn't
/// damaged.
pub fn stored_history_is_one()
    ensures one { HistoryIsOne }
    ensures whole { HistoryIsWhole }
{}
