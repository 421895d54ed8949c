// An answer, where the output has room for every one.
ghost use Rattle.std.specs.Prelude.{ℕ, List, ◌≤◌, length};
ghost use Rattle.std.specs.Fn.{FnOnceReturnsAtMut};
ghost use Rattle.lambdamix.specs.Limits.{max_bytes};
ghost use Rattle.streams.specs.Printed.{Prints};
ghost use Rattle.streams.specs.Responds.{Responds};

use crate::limits::MAX_BYTES;
use script::Refusal;
use script::cause::Cause;

// What the closure writes into the output, whose length it tells. An output that may be too short for some answer is 21, before all else.
pub fn answered<F: FnOnce(&mut [u8]) -> usize>(out: &mut [u8], answer: F) -> Result<usize, Refusal>
    requires { F.IsAlwaysCallable answer }
    ensures { (text : List ℕ) → ((x y : List ℕ) (n : ℕ) → max_bytes ≤ length x → FnOnceReturnsAtMut F.FnOnce answer x n y → Prints text x y n) → Responds text out.old out.new result }
{
    if out.len() < MAX_BYTES {
        return Err(Cause::OutputTooShort.at(0));
    }
    Ok(answer(out))
}
