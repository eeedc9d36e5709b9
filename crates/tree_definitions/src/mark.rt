ghost use Rattle.std.specs.Prelude.{◌≡◌};
ghost use Rattle.tree_definitions.specs.Marks.{is_idle as idle, has_failed as failed};

use strategies::Failure;

/// How a strategy of a node stands: it may be claimed, it runs, or it failed, for this reason.
#[derive(Clone, Copy, Debug, PartialEq, Eq)]
pub enum Mark {
    Idle,
    Running,
    Failed(Failure),
}

impl Mark {
    pub fn is_idle(&self) -> bool
        ensures { result ≡ idle self.now }
    {
        matches!(self, Mark::Idle)
    }

    pub fn has_failed(&self) -> bool
        ensures { result ≡ failed self.now }
    {
        matches!(self, Mark::Failed(_))
    }
}
