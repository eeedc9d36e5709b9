ghost use Rattle.std.specs.Prelude.{◌≡◌, ◌≢◌, ℕ, List, [], Some, None, false};
ghost use Rattle.std.specs.List.{AllByRecursion};
ghost use Rattle.ari_text.specs.declared.fault.AriFault.{AriFault};
ghost use Rattle.ari_text.specs.declared.fault.AriFault.TheVariants.{OutOfMemory};
ghost use Rattle.names_text.specs.Named.{NamedSystem};
ghost use Rattle.ari_text.specs.Problem.{SaysSystem, IsProblemRefused};
ghost use Rattle.ari_text.specs.Least.{comes_before, noted, IsAmong};

/// What is noted last of several faults is the least of them.
pub fn least_is_least()
    ensures found { (fs : List AriFault) (f : AriFault) → noted None fs ≡ Some f → IsAmong f fs }
    ensures least { (fs : List AriFault) (f : AriFault) → noted None fs ≡ Some f
        → AllByRecursion (λ g. comes_before g f ≡ false) fs }
    ensures none { (fs : List AriFault) → noted None fs ≡ None → fs ≡ [] }
{}

/// A text says at most one system, and none where it is refused for a fault. Want of memory aside, it is refused for at
/// most one fault.
pub fn one_system()
    ensures system { (text : List ℕ) (s t : NamedSystem) → SaysSystem text s
        → SaysSystem text t → s ≡ t }
    ensures refusal { (text : List ℕ) (s : NamedSystem) (f : AriFault) → SaysSystem text s
        → IsProblemRefused text f → f ≡ OutOfMemory }
    ensures fault { (text : List ℕ) (f g : AriFault) → IsProblemRefused text f
        → IsProblemRefused text g → f ≢ OutOfMemory → g ≢ OutOfMemory → f ≡ g }
{}
