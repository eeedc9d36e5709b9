ghost use Rattle.std.specs.Prelude.{◌≡◌};
ghost use Rattle.path_lpo.specs.Comparison.{same_if, greater_if, is_greater, is_at_least};

/// How one term compares with another.
#[derive(Clone, Copy)]
pub(crate) enum Comparison {
    Same,
    Greater,
    Neither,
}

impl Comparison {
    pub(crate) fn same_if(yes: bool) -> Comparison
        ensures { result ≡ same_if yes }
    {
        if yes {
            Comparison::Same
        } else {
            Comparison::Neither
        }
    }

    pub(crate) fn greater_if(yes: bool) -> Comparison
        ensures { result ≡ greater_if yes }
    {
        if yes {
            Comparison::Greater
        } else {
            Comparison::Neither
        }
    }

    pub(crate) fn is_greater(self) -> bool
        ensures { result ≡ is_greater self }
    {
        matches!(self, Comparison::Greater)
    }

    pub(crate) fn is_at_least(self) -> bool
        ensures { result ≡ is_at_least self }
    {
        !matches!(self, Comparison::Neither)
    }
}
