ghost use Rattle.std.specs.Prelude.{Bool};
ghost use Rattle.order_theory.specs.ArgumentFilter.{PathWeak, PathStrict};
ghost use Rattle.order_theory.proofs.PathPair.{path_pair};
ghost use Rattle.pair_theory.specs.ReductionPair.{AllTerms};
ghost use Rattle.pair_order.specs.Entries.{has_entry};
ghost use Rattle.path_lpo.specs.Table.{symbol_of, rank_in, filter_in, spoken};

use crate::comparing::decrease;
use crate::{Lpo, is_strict, is_weak};
use pair_order::{Decrease, ReductionPair, TooBig};
use pair_theory::ReductionOrder;
use trs_core::Term;

impl ReductionOrder for Lpo {
    ghost is_weak = { λ order. PathWeak (rank_in order) (filter_in order) };

    ghost is_strict = { λ order. PathStrict (rank_in order) (filter_in order) };

    ghost speaks_of = { λ order. AllTerms };

    ghost laws = { λ order. path_pair (rank_in order) (filter_in order) };
}

impl ReductionPair for Lpo {
    ghost is_too_big = { λ order s t. ⊥ };

    ghost has = { λ order. has_entry symbol_of order };

    ghost speaks_over = { λ order arities. Unit {0} };

    type Profile = ();

    ghost is_profile = { λ order t profile. Unit {0} };

    fn weak(&self, a: &Term, b: &Term) -> Result<bool, TooBig> {
        Ok(is_weak(self, a, b))
    }

    fn strict(&self, a: &Term, b: &Term) -> Result<bool, TooBig> {
        Ok(is_strict(self, a, b))
    }

    fn profile(&self, _a: &Term) {}

    fn decrease(&self, a: &Term, _profile: &(), b: &Term) -> Result<Decrease, TooBig> {
        Ok(decrease(self, a, b))
    }

    fn has_entry(&self, f: u32) -> bool {
        self.entry(f).is_some()
    }

    ghost spoken = { λ order arities over. spoken arities (has_entry symbol_of order) };
}
