// Laws of the journal file.
ghost use Rattle.delta_journal.specs.File.{MeansOnce, NamedOnce};

/// Under one name a file shorter than 2 ^ 64 bytes stands for one list of records, or is damaged at one offset.
pub fn file_means_once()
    ensures { MeansOnce }
{}

/// A file has one name or none, or its header is broken.
pub fn file_named_once()
    ensures { NamedOnce }
{}
