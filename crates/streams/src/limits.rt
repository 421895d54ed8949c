// What every program works with, each in one place: the places for settings, one more than a script has inputs, and the most bytes of an input that
// count, of a made file and of an answer.
use script::limits::MAX_INPUTS;

pub const SETTINGS: usize = MAX_INPUTS + 1;

pub const MAX_BYTES: usize = 65536;
