ghost use Rattle.term_pool.specs.Pooled.{AreDistinct};

use crate::Pool;

/// A law, with nothing to run but the reading of the pool: equal terms of a pool have one id.
pub fn ids_are_distinct(pool: &Pool)
    ensures { AreDistinct pool.now }
{
    let _ids = pool.len();
}
