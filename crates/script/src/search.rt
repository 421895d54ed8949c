// A search for the first place at which a test fails: each check of records in a row is one, but for that of a script's nodes, which packs them as it goes.
ghost use Rattle.std.specs.Prelude.{◌≡◌, ◌<◌, ℕ, Bool};
ghost use Rattle.lambdamix.specs.Refusal.{first_failing};
ghost use Rattle.script.specs.Verdicts.{found_at};

// The first of so many places that does not pass. It is what the definition finds by any test that the closure decides.
pub fn first_failing<F: Fn(usize) -> bool>(count: usize, passes: F) -> Option<usize>
    requires { (j : ℕ) → j < count → F.pre passes j }
    ensures { (p : ℕ → Bool) → ((j : ℕ) (b : Bool) → j < count → F.post passes j b → b ≡ p j) → found_at result ≡ first_failing p 0 count }
{
    for j in 0..count {
        if !passes(j) {
            return Some(j);
        }
    }
    None
}
