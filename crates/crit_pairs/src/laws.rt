ghost use Rattle.crit_pairs.specs.Laws.{ListedPeaksCover, PeaksAreListedOnce};

/// A law, with nothing to run: the list of all critical peaks of a system covers it. (Baader and
/// Nipkow, section 6.2.)
pub fn listed_peaks_cover()
    ensures { ListedPeaksCover }
{
    confluence_theory::critical_peaks_cover();
}

/// A law, with nothing to run: a system has one list of critical peaks, or one fault.
pub fn peaks_are_listed_once()
    ensures { PeaksAreListedOnce }
{}
