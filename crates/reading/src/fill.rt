// Columns filled from their front.
ghost use Rattle.std.specs.Prelude.{◌≡◌, ◌<◌, ◌≤◌, ℕ, length};
ghost use Rattle.script.specs.File.{numbered};
ghost use Rattle.script.specs.Tables.{over};

// The first places of a column, each filled with the element that a closure gives for it.
pub fn fill<T, F: Fn(u16) -> T>(column: &mut [T], count: u16, element: F)
where
    T: Copy,
    requires callable { F.IsAlwaysCallable element }
    requires enough { count ≤ length column.old }
    ensures { (f : ℕ → T) → ((j : ℕ) (v : T) → j < count → F.post element j v → v ≡ f j) → column.new ≡ over (numbered f 0 count) column.old }
{
    for j in 0..count {
        column[j as usize] = element(j);
    }
}
