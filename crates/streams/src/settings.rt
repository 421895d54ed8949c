// The settings behind a script: a record `SV` for each. The lent store has SETTINGS places, one more than a script has inputs.
ghost use Rattle.std.specs.Prelude.{◌≡◌, ◌<◌, ◌≤◌, length};
ghost use Rattle.lambdamix.specs.Refusal.{first_failing};
ghost use Rattle.script.specs.Refusals.{is_none};
ghost use Rattle.script.specs.Tables.{over};
ghost use Rattle.streams.specs.Input.{setting_marked};
ghost use Rattle.streams.specs.Given.{program_settings};
ghost use Rattle.streams.specs.Given.{given_count, given_settings};

use crate::limits::SETTINGS;
use reading::bytes::value32;
use reading::fill::fill;
use reading::marks::marked;
use script::search::first_failing;

// Whether each of some records has its mark.
#[tactic(auto, unfolding(crate::specs::Given::program_settings, lambdamix::specs::Limits::max_inputs))]
fn all_marked(s: &[u8], count: usize) -> bool
    requires { count < program_settings }
    ensures { result ≡ is_none (first_failing (setting_marked s.now) 0 count) }
{
    first_failing(count, |j| marked(s, 6 * j, b'S', b'V')).is_none()
}

// How many settings the maker is given; for what is not whole records, or more than MAX_INPUTS, one more than any script wants.
// A count and no `Option`, since the maker refuses by it (12).
fn given_count(s: &[u8]) -> usize
    ensures { result ≡ given_count s.now }
{
    let count = s.len() / 6;
    if count < SETTINGS && s.len() % 6 == 0 && all_marked(s, count) {
        count
    } else {
        SETTINGS
    }
}

// The settings that the maker is given, into the lent store; how many they are. A store of fewer than SETTINGS places stays as it is.
#[tactic(auto, unfolding(crate::specs::Given::program_settings, lambdamix::specs::Limits::max_inputs))]
pub fn settings_given(s: &[u8], settings: &mut [i32]) -> usize
    ensures value { result ≡ given_count s.now }
    ensures settings_after { program_settings ≤ length settings.old → settings.new ≡ over (given_settings s.now) settings.old }
{
    let count = given_count(s);
    if SETTINGS <= settings.len() {
        fill(settings, count as u16, |j| value32(s, 6 * (j as usize) + 2));
    }
    count
}
