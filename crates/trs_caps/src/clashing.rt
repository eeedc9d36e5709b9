ghost use Rattle.std.specs.Prelude.{◌≡◌, ◌↔◌, IsTrue};
ghost use Rattle.trs_caps.specs.Clash.{clash, AreDisjoint};
ghost use Rattle.trs_caps.specs.View.{holed};

use crate::Cap;

impl Cap {
    /// Whether no term fits both caps: whether they do not unify, renamed apart, with their own
    /// variables as constants.
    pub fn is_disjoint(&self, other: &Cap) -> bool
        ensures { IsTrue result ↔ AreDisjoint (holed self.now) (holed other.now) }
    {
        self.clashes(other)
    }

    /// Whether the caps differ at a place where neither has a hole.
    pub(crate) fn clashes(&self, other: &Cap) -> bool
        ensures { result ≡ clash (holed self.now) (holed other.now) }
    {
        match (self, other) {
            (Cap::Open, _) => false,
            (_, Cap::Open) => false,
            (Cap::Own(v), Cap::Own(w)) => *v != *w,
            (Cap::Own(_), Cap::Symbol(_, _)) => true,
            (Cap::Symbol(_, _), Cap::Own(_)) => true,
            (Cap::Symbol(f, cs), Cap::Symbol(g, ds)) => {
                if *f != *g || cs.items.len() != ds.items.len() {
                    return true;
                }
                for (i, c) in cs.items.iter().enumerate() {
                    if c.clashes(&ds.items[i]) {
                        return true;
                    }
                }
                false
            }
        }
    }
}
