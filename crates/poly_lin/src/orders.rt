ghost use Rattle.std.specs.Prelude.{Bool};
ghost use Rattle.trs_core.specs.View.{tree};
ghost use Rattle.order_theory.specs.LinearInterpretation.{LinearWeak, LinearStrict};
ghost use Rattle.order_theory.proofs.Linear.{linear_pair};
ghost use Rattle.pair_theory.specs.ReductionPair.{AllTerms};
ghost use Rattle.pair_order.specs.Entries.{has_entry};
ghost use Rattle.poly_lin.specs.Table.{symbol_of, coefficient_in};
ghost use Rattle.poly_lin.specs.TooBig.{EitherIsBig};
ghost use Rattle.poly_lin.specs.Laws.{spoken, above_first, above_second};
ghost use Rattle.poly_lin.specs.Profiles.{IsProfile};

use crate::profiles::{decrease_from, profile_of};
use crate::{LinTable, Profile, is_strictly_above, is_weakly_above};
use pair_order::{Decrease, PairingOrder, ReductionPair, TooBig};
use pair_theory::ReductionOrder;
use trs_core::Term;

impl ReductionOrder for LinTable {
    ghost is_weak = { λ table. LinearWeak (coefficient_in table) };

    ghost is_strict = { λ table. LinearStrict (coefficient_in table) };

    ghost speaks_of = { λ table. AllTerms };

    ghost laws = { λ table. linear_pair (coefficient_in table) };
}

impl ReductionPair for LinTable {
    ghost is_too_big = { λ table. EitherIsBig (coefficient_in table) };

    ghost has = { λ table. has_entry symbol_of table };

    ghost speaks_over = { λ table arities. Unit {0} };

    type Profile = Profile;

    ghost is_profile = { λ table. IsProfile (coefficient_in table) };

    fn weak(&self, a: &Term, b: &Term) -> Result<bool, TooBig> {
        is_weakly_above(self, a, b)
    }

    fn strict(&self, a: &Term, b: &Term) -> Result<bool, TooBig> {
        is_strictly_above(self, a, b)
    }

    fn profile(&self, a: &Term) -> Profile {
        profile_of(self, a)
    }

    fn decrease(&self, a: &Term, profile: &Profile, b: &Term) -> Result<Decrease, TooBig> {
        decrease_from(self, a, profile, b)
    }

    fn has_entry(&self, f: u32) -> bool {
        self.entry(f).is_some()
    }

    ghost spoken = { λ table arities over. spoken arities (has_entry symbol_of table) };
}

impl PairingOrder for LinTable {
    ghost speaks_of_all = { λ table t. tt };

    ghost above_first = { λ table s t. above_first table s t };

    ghost above_second = { λ table s t. above_second table s t };
}
