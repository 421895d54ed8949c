// Little-endian numbers read from bytes; past the end a byte is 0.
ghost use Rattle.std.specs.Prelude.{◌≡◌, ◌+◌, [], ◌∷◌};
ghost use Rattle.script.specs.Bytes.{byte_at, number16, number32, signed32};

use script::column::at;
use script::word::signed;

// The byte at a place and the one after it.
#[tactic(auto, using(crate::proofs::WordLaws::byte_behind), unfolding(script::specs::Bytes::byte_at))]
pub(crate) fn pair(s: &[u8], i: usize) -> [u8; 2]
    ensures { result ≡ byte_at s.now i ∷ byte_at s.now (i + 1) ∷ [] }
{
    [at(s, i, 0), at(s, i.saturating_add(1), 0)]
}

#[tactic(auto, unfolding(script::specs::Bytes::number16))]
pub fn number16(s: &[u8], i: usize) -> u16
    ensures { result ≡ number16 s.now i }
{
    u16::from_le_bytes(pair(s, i))
}

// The units of a number's upper half.
const HALF: u32 = 65536;

// By halves, as the definition `number32` has it.
#[tactic(auto, using(crate::proofs::WordLaws::word_behind), unfolding(script::specs::Bytes::number32))]
pub fn number32(s: &[u8], i: usize) -> u32
    ensures { result ≡ number32 s.now i }
{
    let low = u32::from(number16(s, i));
    let high = u32::from(number16(s, i.saturating_add(2)));
    low + HALF * high
}

pub fn value32(s: &[u8], i: usize) -> i32
    ensures { result ≡ signed32 (number32 s.now i) }
{
    signed(number32(s, i))
}
