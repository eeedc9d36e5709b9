ghost use Rattle.std.specs.Prelude.{◌≡◌, IfOk};
ghost use Rattle.cert_step.specs.ProofStep.{order_step};

use kbo_order::Kbo;
use path_lpo::Lpo;
use poly_lin::LinTable;
use std::alloc::Global;
use trs_core::OutOfMemory;

/// An order that makes pairs fall.
#[derive(Drop)]
pub enum AnyOrder {
    /// A linear interpretation.
    Poly(LinTable),
    /// A path order with filters.
    Lpo(Lpo),
    /// A Knuth-Bendix order.
    Kbo(Kbo),
}

impl AnyOrder {
    pub fn copy(&self, alloc: Global) -> Result<AnyOrder, OutOfMemory>
        ensures { IfOk result (λ order. order_step order ≡ order_step self.now) }
    {
        match self {
            AnyOrder::Poly(table) => Ok(AnyOrder::Poly(table.copy(alloc)?)),
            AnyOrder::Lpo(order) => Ok(AnyOrder::Lpo(order.copy(alloc)?)),
            AnyOrder::Kbo(order) => Ok(AnyOrder::Kbo(order.copy(alloc)?)),
        }
    }
}
