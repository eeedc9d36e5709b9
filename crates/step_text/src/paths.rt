ghost use Rattle.std.specs.Prelude.{◌≡◌, ◌++◌, [], ◌∷◌, map, OnOk};
ghost use Rattle.cert_step.specs.ProofStep.{step_of};
ghost use Rattle.path_text.specs.Paths.{paths_in};
ghost use Rattle.peak_text.specs.TwoPaths.{paths_of_two};
ghost use Rattle.peak_text.specs.FourPaths.{paths_of_four};
ghost use Rattle.step_text.specs.Steps.{paths_of_method};

use cert_step::Step;
use peak_text::Four;
use rewrite_core::{Join, PathStep};
use trs_core::OutOfMemory;

/// Adds the paths of a step, in the order of its text.
pub fn push_paths<'s>(paths: &mut Vec<&'s [PathStep]>, step: &'s Step) -> Result<(), OutOfMemory>
    ensures { OnOk result (map (λ p. p.now) paths.new.items
        ≡ map (λ p. p.now) paths.old.items ++ paths_of_method (step_of step.now)) }
{
    match step {
        Step::Loop { path, .. } => push_path(paths, path),
        Step::Newman(joins) => push_joins(paths, joins),
        Step::Strong(fours) => push_fours(paths, fours),
        Step::Label { joins, .. } => push_joins(paths, joins),
        Step::Fork { left, right, .. } => {
            push_path(paths, left)?;
            push_path(paths, right)
        }
        Step::Dp
        | Step::Graph(_)
        | Step::Subterm(_)
        | Step::Order(_)
        | Step::UsablePoly(_)
        | Step::Parallel(_)
        | Step::Confluence => Ok(()),
    }
}

fn push_path<'s>(paths: &mut Vec<&'s [PathStep]>, path: &'s [PathStep]) -> Result<(), OutOfMemory>
    ensures { OnOk result (map (λ p. p.now) paths.new.items
        ≡ map (λ p. p.now) paths.old.items ++ path.now ∷ []) }
{
    paths.push(path)?;
    Ok(())
}

fn push_joins<'s>(paths: &mut Vec<&'s [PathStep]>, joins: &'s [Join]) -> Result<(), OutOfMemory>
    ensures { OnOk result (map (λ p. p.now) paths.new.items
        ≡ map (λ p. p.now) paths.old.items ++ paths_in paths_of_two joins.now) }
{
    for join in joins {
        push_path(paths, &join.left)?;
        push_path(paths, &join.right)?;
    }
    Ok(())
}

fn push_fours<'s>(paths: &mut Vec<&'s [PathStep]>, fours: &'s [Four]) -> Result<(), OutOfMemory>
    ensures { OnOk result (map (λ p. p.now) paths.new.items
        ≡ map (λ p. p.now) paths.old.items ++ paths_in paths_of_four fours.now) }
{
    for four in fours {
        push_path(paths, &four.left_u)?;
        push_path(paths, &four.right_u)?;
        push_path(paths, &four.right_v)?;
        push_path(paths, &four.left_v)?;
    }
    Ok(())
}
