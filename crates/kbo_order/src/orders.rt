ghost use Rattle.std.specs.Prelude.{Bool};
ghost use Rattle.order_theory.specs.KnuthBendix.{KnuthWeak, KnuthGreater};
ghost use Rattle.order_theory.proofs.KnuthPair.{knuth_pair};
ghost use Rattle.pair_theory.specs.Over.{IsOver};
ghost use Rattle.pair_order.specs.Entries.{has_entry};
ghost use Rattle.kbo_order.specs.Table.{symbol_of, arity_in, weight_in, rank_in, has_arity};
ghost use Rattle.kbo_order.specs.TooBig.{EitherIsBig};
ghost use Rattle.kbo_order.specs.Laws.{AgreesWith, spoken};
ghost use Rattle.kbo_order.specs.Profiles.{IsProfile};

use crate::profiles::{decrease_from, profile_of};
use crate::{Kbo, Profile, is_strict, is_weak};
use pair_order::{Decrease, ReductionPair, TooBig};
use pair_theory::ReductionOrder;
use trs_core::Term;

impl ReductionOrder for Kbo {
    ghost is_weak = { λ order.
        KnuthWeak (weight_in order.entries.items) (rank_in order.entries.items) };

    ghost is_strict = { λ order.
        KnuthGreater (weight_in order.entries.items) (rank_in order.entries.items) };

    ghost speaks_of = { λ order. IsOver (arity_in order.entries.items) };

    ghost laws = { λ order. knuth_pair (arity_in order.entries.items)
        (weight_in order.entries.items) (rank_in order.entries.items) order.admissible };
}

impl ReductionPair for Kbo {
    ghost is_too_big = { λ order. EitherIsBig (weight_in order.entries.items) };

    ghost has = { λ order. has_entry symbol_of order.entries.items };

    ghost speaks_over = { λ order arities. AgreesWith (arity_in order.entries.items) arities };

    type Profile = Profile;

    ghost is_profile = { λ order. IsProfile (weight_in order.entries.items) };

    fn weak(&self, a: &Term, b: &Term) -> Result<bool, TooBig> {
        is_weak(self, a, b)
    }

    fn strict(&self, a: &Term, b: &Term) -> Result<bool, TooBig> {
        is_strict(self, a, b)
    }

    fn profile(&self, a: &Term) -> Profile {
        profile_of(self, a)
    }

    fn decrease(&self, a: &Term, profile: &Profile, b: &Term) -> Result<Decrease, TooBig> {
        decrease_from(self, a, profile, b)
    }

    fn has_entry(&self, f: u32) -> bool {
        self.entry(f).is_some()
    }

    ghost spoken = { λ order arities over. spoken (arity_in order.entries.items)
        (has_entry symbol_of order.entries.items) (has_arity order.entries.items) arities over };
}
