// What the answer of `benchmake` works with, each in one place: its fuel, and the places of the stores that suffice for every script.
use script::limits::MAX_INPUTS;

pub const FUEL: usize = 4000;

pub const HEAP: usize = FUEL + MAX_INPUTS;

pub const CODES: usize = 2 * FUEL + MAX_INPUTS;
