ghost use Rattle.rule_label.specs.Laws.{DecreasingPeaksConclude, LabelsAnswerOnce};
ghost use Rattle.rule_label.specs.Laws.{GivenLabelsAnswerOnce};

use closed_pairs::{listed_peaks_cover, peaks_are_listed_once};
use confluence_theory::{decreasing_peaks, followed_paths};

/// A law, with nothing to run: a linear system is confluent if each critical peak is decreasing by
/// some ranks of its rules. (Van Oostrom, Confluence by decreasing diagrams, 2008.)
pub fn decreasing_peaks_conclude()
    ensures { DecreasingPeaksConclude }
{
    listed_peaks_cover();
    decreasing_peaks();
    followed_paths();
}

/// A law, with nothing to run: the conditions on decreasing peaks have at most one answer, on the
/// critical peaks and on any list of peaks.
pub fn labels_answer_once()
    ensures labels { LabelsAnswerOnce }
    ensures given_labels { GivenLabelsAnswerOnce }
{
    peaks_are_listed_once();
}
