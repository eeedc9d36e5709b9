ghost use Rattle.std.specs.Prelude.{◌≡◌, ◌-◌, ◌≤◌, drop, length, map, slice_get, option_map, option_copied};
ghost use Rattle.trs_core.specs.View.{tree};
ghost use Rattle.path_lpo.specs.Kept.{IsSplit};

use trs_core::Term;

/// The arguments that a filter keeps: those at some places, as far as they are there.
#[derive(Clone, Copy)]
pub(crate) struct Kept<'a> {
    pub places: &'a [u8],
    pub args: &'a [Term],
}

impl<'a> Kept<'a> {
    /// The first kept argument, and the others.
    pub(crate) fn split_first(self) -> Option<(&'a Term, Kept<'a>)>
        ensures { IsSplit self.entry result }
    {
        for (k, place) in self.places.iter().enumerate() {
            if let Some(first) = argument(self.args, *place) {
                let others = Kept {
                    places: behind(self.places, k + 1),
                    args: self.args,
                };
                return Some((first, others));
            }
        }
        None
    }
}

fn behind(places: &[u8], k: usize) -> &[u8]
    requires { k ≤ length places.now }
    ensures { result.now ≡ drop k places.now }
{
    &places[k..]
}

/// The argument at a place.
pub(crate) fn argument(args: &[Term], place: u8) -> Option<&Term>
    ensures { option_map tree (option_copied result) ≡ slice_get (map tree args.now) (place - 1) }
{
    args.get(usize::from(place).saturating_sub(1))
}
