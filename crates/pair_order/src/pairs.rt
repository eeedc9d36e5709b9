ghost use Rattle.std.specs.Prelude.{◌≡◌, ℕ, List, Bool};
ghost use Rattle.trs_defs.specs.Tree.{Tree, app, nil, cons};
ghost use Rattle.trs_core.specs.View.{tree};
ghost use Rattle.pair_order.specs.Spoken.{SpeaksWithEntries};
ghost use Rattle.pair_order.specs.Compared.{IsAnswer, IsDecrease};

use pair_theory::ReductionOrder;
use trs_core::Term;

/// A value that a comparison meets is too big to be computed.
#[derive(Clone, Copy, Debug, PartialEq, Eq)]
pub struct TooBig;

/// How a term is above another one.
#[derive(Clone, Copy, Debug, PartialEq, Eq)]
pub enum Decrease {
    /// Strictly, and so weakly.
    Strict,
    /// Weakly, and not strictly.
    Weak,
    /// Not even weakly.
    Missing,
}

/// A reduction pair with entries for some symbols, as a value whose comparisons are computed.
/// Over an arity table of which it speaks, its laws hold for the terms whose symbols have entries.
/// (Arts and Giesl, Termination of term rewriting using dependency pairs, 2000.)
pub trait ReductionPair: ReductionOrder {
    ghost is_too_big: { Self → Tree → Tree → Type 0 };

    ghost has: { Self → ℕ → Bool };

    ghost speaks_over: { Self → List ℕ → Type 0 };

    /// What is worked out once of a term that is compared with several others.
    type Profile: Drop;

    ghost is_profile: { Self → Tree → Self.Profile → Type 0 };

    /// Whether the first term is weakly above the second.
    fn weak(&self, a: &Term, b: &Term) -> Result<bool, TooBig>
        ensures { IsAnswer (is_too_big self.now (tree a.now) (tree b.now))
            (Self.is_weak self.now (tree a.now) (tree b.now)) result };

    /// Whether the first term is strictly above the second.
    fn strict(&self, a: &Term, b: &Term) -> Result<bool, TooBig>
        ensures { IsAnswer (is_too_big self.now (tree a.now) (tree b.now))
            (Self.is_strict self.now (tree a.now) (tree b.now)) result };

    /// The profile of a term. It takes no memory.
    fn profile(&self, a: &Term) -> Self::Profile
        ensures { is_profile self.now (tree a.now) result };

    /// How the first term, of which this is the profile, is above the second.
    fn decrease(&self, a: &Term, profile: &Self::Profile, b: &Term) -> Result<Decrease, TooBig>
        requires { is_profile self.now (tree a.now) profile.now }
        ensures { IsDecrease (is_too_big self.now (tree a.now) (tree b.now))
            (Self.is_weak self.now (tree a.now) (tree b.now))
            (Self.is_strict self.now (tree a.now) (tree b.now)) result };

    /// Whether the symbol has an entry.
    fn has_entry(&self, f: u32) -> bool
        ensures { result ≡ has self.now f };

    ghost spoken: { (x : Self) (arities : List ℕ) → speaks_over x arities →
        SpeaksWithEntries arities (has x) (Self.speaks_of x) };
}

/// A reduction pair on all terms that reads symbol 8191, which no system has, as a pairing: a term
/// C(s, t) of it is weakly above s and t.
/// (Hirokawa and Middeldorp, Tyrolean termination tool: techniques and features, 2007.)
pub trait PairingOrder: ReductionPair {
    ghost speaks_of_all: { (x : Self) (t : Tree) → Self.speaks_of x t };

    ghost above_first: { (x : Self) (s t : Tree) →
        Self.is_weak x (app 8191 (cons s (cons t nil))) s };

    ghost above_second: { (x : Self) (s t : Tree) →
        Self.is_weak x (app 8191 (cons s (cons t nil))) t };
}
