ghost use Rattle.closed_pairs.specs.Laws.{JoinedPeaksConclude, ParallelClosedPeaksConclude};
ghost use Rattle.closed_pairs.specs.Laws.{StronglyClosedPeaksConclude, JoinsAnswerOnce};
ghost use Rattle.closed_pairs.specs.Laws.{ParallelStepsAnswerOnce, StrongJoinsAnswerOnce};
ghost use Rattle.closed_pairs.specs.Laws.{GivenJoinsAnswerOnce, GivenParallelStepsAnswerOnce};
ghost use Rattle.closed_pairs.specs.Laws.{GivenStrongJoinsAnswerOnce};

use confluence_theory::{
    joined_peaks, parallel_closed_peaks, parallel_paths, strongly_closed_peaks,
};
use crit_pairs::{listed_peaks_cover, peaks_are_listed_once};

/// A law, with nothing to run: a terminating system is confluent if each critical peak is joined.
/// (Knuth and Bendix; Baader and Nipkow, section 6.2.)
pub fn joined_peaks_conclude()
    ensures { JoinedPeaksConclude }
{
    listed_peaks_cover();
    joined_peaks();
}

/// A law, with nothing to run: a left-linear system is confluent if one parallel step leads from
/// the left side of each critical peak to its right one. (Huet, Confluent reductions, 1980.)
pub fn parallel_closed_peaks_conclude()
    ensures { ParallelClosedPeaksConclude }
{
    listed_peaks_cover();
    parallel_closed_peaks();
    parallel_paths();
}

/// A law, with nothing to run: a linear system is confluent if each critical peak is joined
/// strongly. (Huet, Confluent reductions, 1980.)
pub fn strongly_closed_peaks_conclude()
    ensures { StronglyClosedPeaksConclude }
{
    listed_peaks_cover();
    strongly_closed_peaks();
}

/// A law, with nothing to run: the conditions on joined peaks, on parallel steps and on strongly
/// joined peaks have at most one answer each, on the critical peaks and on any list of peaks.
pub fn conditions_answer_once()
    ensures joins { JoinsAnswerOnce }
    ensures parallel { ParallelStepsAnswerOnce }
    ensures strong { StrongJoinsAnswerOnce }
    ensures given_joins { GivenJoinsAnswerOnce }
    ensures given_parallel { GivenParallelStepsAnswerOnce }
    ensures given_strong { GivenStrongJoinsAnswerOnce }
{
    peaks_are_listed_once();
}
