// Laws of hosted histories.
ghost use Rattle.wavelet_shelf.specs.Hosting.{GrowsAlone};

/// A delta is after those of its name; the deltas of every other name stay as they are, and names stay in byte order.
pub fn hosting_grows_alone()
    ensures { GrowsAlone }
{}
