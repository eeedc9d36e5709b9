use std::convert::Infallible;

/// How many pairs a comparison may go through.
pub(crate) trait Effort {
    /// What ends it.
    type End;

    /// Allows one pair more.
    fn spend(&mut self) -> Result<(), Self::End>;
}

/// As many pairs as there are.
#[derive(Drop)]
pub(crate) struct Unlimited;

/// So many pairs.
#[derive(Drop)]
pub(crate) struct Limited {
    pub(crate) pairs: u64,
}

/// The pairs are spent.
#[derive(Clone, Copy)]
pub(crate) struct Spent;

impl Effort for Unlimited {
    type End = Infallible;

    fn spend(&mut self) -> Result<(), Infallible> {
        Ok(())
    }
}

impl Effort for Limited {
    type End = Spent;

    fn spend(&mut self) -> Result<(), Spent> {
        match self.pairs.checked_sub(1) {
            None => Err(Spent),
            Some(pairs) => {
                self.pairs = pairs;
                Ok(())
            }
        }
    }
}
