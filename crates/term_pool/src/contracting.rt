ghost use Rattle.std.specs.Prelude.{◌≡◌, ◌<◌, false, Some, length, IsTrue, IfOk, IfSome, IfNone};
ghost use Rattle.trs_defs.specs.Size.{size_of, within_limits};
ghost use Rattle.trs_defs.specs.Position.{subterm_at};
ghost use Rattle.trs_core.specs.View.{tree};
ghost use Rattle.term_pool.specs.Pooled.{Extends, tree_at};
ghost use Rattle.term_pool.specs.Bindings.{HasIds, instance_of};
ghost use Rattle.term_pool.specs.Placing.{HasPut, IsPlaced, IsTooLargePut};

use crate::Pool;
use crate::bindings::Bindings;
use std::alloc::Global;
use trs_core::{GREATEST_DEPTH, MOST_NODES, OutOfMemory, Term};

impl Pool {
    /// The id of a term with the instance of `t` in place of a part of it, or `None` where that
    /// would pass the limits. Only the instance and the nodes on the way to it are made. Sizes and
    /// depths are known before, so that nothing is made in vain unless the old term is too deep
    /// itself, or has 2^32 - 1 nodes or more; what is made then is released.
    pub(crate) fn put_instance(
        &mut self,
        alloc: Global,
        id: u32,
        places: &[u8],
        part: u32,
        found: &Bindings,
        t: &Term,
    ) -> Result<Option<u32>, OutOfMemory>
        requires id { id < length self.old }
        requires part { part < length self.old }
        requires there { subterm_at places.now (tree_at self.old id)
            ≡ Some (tree_at self.old part) }
        requires ids { HasIds self.old found.now }
        ensures put { IfOk result (λ made. IfSome made (
            IsPlaced places.now (tree_at self.old id)
            (instance_of self.old found.now (tree t.now)) self.old self.new)) }
        ensures none { IfOk result (λ made. IfNone made (
            IsTooLargePut places.now (tree_at self.old id)
            (instance_of self.old found.now (tree t.now)))) }
        ensures kept { Extends self.old self.new }
        ensures unchanged { IfOk result (λ made. IfNone made (self.new ≡ self.old)) }
    {
        if self.is_too_large(id, places, part, found, t) {
            return Ok(None);
        }
        let mark = self.mark();
        let by = self.instance(alloc, found, t)?;
        let new = self.put(alloc, id, places, by)?;
        if !self.keeps_limits(new) {
            self.release(mark);
            return Ok(None);
        }
        Ok(Some(new))
    }

    /// The id of a term with another subterm at a position, or `None` where that passes the limits.
    /// Only the nodes on the way to it are made, and none is kept where it passes the limits.
    pub(crate) fn put_within(
        &mut self,
        alloc: Global,
        id: u32,
        places: &[u8],
        by: u32,
    ) -> Result<Option<u32>, OutOfMemory>
        requires there { id < length self.old }
        requires by { by < length self.old }
        requires put { HasPut self.old places.now id by }
        ensures put { IfOk result (λ made. IfSome made (IsPlaced places.now
            (tree_at self.old id) (tree_at self.old by) self.old self.new)) }
        ensures none { IfOk result (λ made. IfNone made (
            IsTooLargePut places.now (tree_at self.old id) (tree_at self.old by))) }
        ensures kept { Extends self.old self.new }
        ensures unchanged { IfOk result (λ made. IfNone made (self.new ≡ self.old)) }
    {
        let mark = self.mark();
        let new = self.put(alloc, id, places, by)?;
        if !self.keeps_limits(new) {
            self.release(mark);
            return Ok(None);
        }
        Ok(Some(new))
    }

    /// The number of nodes of an id's term. `None` where the term passes the limits.
    pub fn small_size(&self, id: u32) -> Option<u64>
        requires { id < length self.now }
        ensures large { IfNone result (within_limits (tree_at self.now id) ≡ false) }
        ensures small { IfSome result (λ _. IsTrue (within_limits (tree_at self.now id))) }
        ensures size { IfSome result (λ n. n ≡ size_of (tree_at self.now id)) }
    {
        if self.keeps_limits(id) {
            Some(self.size(id))
        } else {
            None
        }
    }

    /// Whether the id's term keeps the limits.
    fn keeps_limits(&self, id: u32) -> bool
        requires { id < length self.now }
        ensures { result ≡ within_limits (tree_at self.now id) }
    {
        let made = self.measure(id);
        u64::from(made.size) <= MOST_NODES && u64::from(made.depth) <= GREATEST_DEPTH
    }

    /// Whether it is seen before that the whole would pass the limits with the instance of `t` in
    /// place of a part: by its nodes, or by the depth of the instance and the way to it.
    fn is_too_large(&self, id: u32, places: &[u8], part: u32, found: &Bindings, t: &Term) -> bool
        requires id { id < length self.now }
        requires part { part < length self.now }
        requires there { subterm_at places.now (tree_at self.now id)
            ≡ Some (tree_at self.now part) }
        requires ids { HasIds self.now found.now }
        ensures { IsTrue result → IsTooLargePut places.now (tree_at self.now id)
            (instance_of self.now found.now (tree t.now)) }
    {
        let put = self.instance_measure(found, t);
        let kept = self.measure(id).size - self.measure(part).size;
        u64::from(kept) + u64::from(put.size) > MOST_NODES
            || places.len() as u64 + u64::from(put.depth) > GREATEST_DEPTH
    }
}
