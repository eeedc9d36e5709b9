use rewrite_core::PeakSide;
use std::snapshot::Snapshot;
use term_pool::Pool;

/// A side of a peak that is not built: only proofs know the term, by its id in a pool. It takes no
/// memory.
#[derive(Drop)]
pub struct SeenSide {
    pub(crate) pool: Snapshot<Pool>,
    pub(crate) id: Snapshot<u32>,
}

impl PeakSide for SeenSide {
    ghost use Rattle.crit_pairs.specs.SeenSide.{seen_side};

    ghost side_tree = { seen_side };
}

impl SeenSide {
    ghost use Rattle.std.specs.Prelude.{◌≡◌};
    ghost use Rattle.term_pool.specs.Pooled.{tree_at};
    ghost use Rattle.crit_pairs.specs.SeenSide.{seen_side};

    /// The side that this id stands for.
    pub(crate) fn of(pool: &Pool, id: u32) -> SeenSide
        ensures { seen_side result ≡ tree_at pool.now id }
    {
        SeenSide {
            pool: Snapshot::of(pool),
            id: Snapshot::of(&id),
        }
    }
}
