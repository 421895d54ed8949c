// What the answer of `benchrun` works with, each in one place: its fuel, which is the most that a run may have, and the places of the store that suffice
// for it.
use cells::limits::MAX_FUEL;
use script::limits::MAX_INPUTS;

pub const FUEL: usize = MAX_FUEL as usize;

pub const HEAP: usize = FUEL + MAX_INPUTS;
