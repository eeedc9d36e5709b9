ghost use Rattle.std.specs.Prelude.{◌≡◌, ◌<◌, All, length, IfOk};
ghost use Rattle.trs_core.specs.View.{tree};
ghost use Rattle.trs_defs.specs.Member.{In};
ghost use Rattle.trs_defs.specs.Path.{Follows};
ghost use Rattle.term_pool.specs.ListedIds.{listed_at};
ghost use Rattle.term_pool.specs.Redexes.{IsNarrow};
ghost use Rattle.term_pool.specs.Listed.{Listed};
ghost use Rattle.term_pool.specs.Reach.{IsReachList};

use crate::{PathStep, Reached};
use std::alloc::Global;
use term_pool::Pool;
use trs_core::{OutOfMemory, Term, Trs};

/// The terms that steps lead to from `t`, each once with the first path that leads to it. The list
/// begins with `t`; for each of its terms in order that is fewer than `depth` steps away, the
/// reducts follow in the order of the redexes, if they have at most `size` nodes and keep the
/// limits. It ends at `count` terms (at one, where `count` is 0). Want of memory also says that
/// there are more different subterms than a pool takes, which are 4,294,967,295.
/// (Baader and Nipkow, section 2.1.)
pub fn reach(
    alloc: Global,
    trs: &Trs,
    t: &Term,
    depth: u32,
    count: u32,
    size: u64,
) -> Result<Vec<Reached>, OutOfMemory>
    requires { IsNarrow (tree t.now) }
    ensures list { IfOk result (λ found.
        IsReachList trs.now.rules (tree t.now) depth count size found.items) }
    ensures follow { IfOk result (λ found. (e : Listed) → In e found.items
        → Follows trs.now.rules e.path (tree t.now) e.term) }
{
    let mut pool = Pool::new(alloc);
    let id = pool.intern(alloc, t)?;
    let found = pool.reach(alloc, trs, id, depth, count, size)?;
    terms_of(alloc, &pool, found)
}

/// The terms of ids, with their paths.
fn terms_of(
    alloc: Global,
    pool: &Pool,
    found: Vec<(u32, Vec<PathStep>)>,
) -> Result<Vec<Reached>, OutOfMemory>
    requires { All (λ e. e.0 < length pool.now) found.items }
    ensures { IfOk result (λ terms. terms.items ≡ listed_at pool.now found.items) }
{
    let mut terms = Vec::with_capacity(alloc, found.len())?;
    for (id, path) in found {
        let term = pool.read(alloc, id)?;
        terms.push(Reached { term, path })?;
    }
    Ok(terms)
}
