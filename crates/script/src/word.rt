// A node in one word of 64 bits: packing and unpacking. What the code of a run is made of stands in words alike.
ghost use Rattle.std.specs.Prelude.{◌≡◌, get_or};
ghost use Rattle.script.specs.KindRows.{kind_number};
ghost use Rattle.script.specs.Bytes.{signed32, bits32};
ghost use Rattle.script.specs.Words.{word, word_kind, word_a, word_b, word_c, word_value, Holds};
ghost use Rattle.lambdamix.specs.Code.{node};

use crate::column::at;
use crate::{Name, NodeNumber, TypeNumber};
use lambdamix::Step;

// Numbers of 16 and of 32 bits are below these.
pub const LIMIT_16: u64 = 65536;

pub const LIMIT_32: u64 = 4294967296;

// Bits below this are those of a number from 0 up.
pub const SIGNED_LIMIT: u32 = 2147483648;

// The units of a word's kind, of field a and of field b; field c stands lowest.
const KIND_UNIT: u64 = 281474976710656;

const A_UNIT: u64 = 4294967296;

const B_UNIT: u64 = 65536;

// The bits of a signed number, and back, under the names of the definitions.
pub fn bits(z: i32) -> u32
    ensures { result ≡ bits32 z }
{
    z.cast_unsigned()
}

pub fn signed(n: u32) -> i32
    ensures { result ≡ signed32 n }
{
    n.cast_signed()
}

pub fn word(k: u8, a: u16, b: u16, c: u16) -> u64
    ensures { result ≡ word k a b c }
{
    KIND_UNIT * (k as u64) + (A_UNIT * (a as u64) + (B_UNIT * (b as u64) + (c as u64)))
}

// The word of a step with these fields.
pub fn step_word(step: Step, a: u16, b: u16, c: u16) -> u64
    ensures { result ≡ word (kind_number step) a b c }
{
    word(step as u8, a, b, c)
}

pub fn kind(w: u64) -> u16
    ensures { result ≡ word_kind w }
{
    (w / KIND_UNIT) as u16
}

pub fn field_a(w: u64) -> u16
    ensures { result ≡ word_a w }
{
    (w / A_UNIT % LIMIT_16) as u16
}

pub fn field_b(w: u64) -> u16
    ensures { result ≡ word_b w }
{
    (w / B_UNIT % LIMIT_16) as u16
}

pub fn field_c(w: u64) -> u16
    ensures { result ≡ word_c w }
{
    (w % LIMIT_16) as u16
}

// A field whose use is known: a child, a name, a parameter's type. Each has its type, so that none is taken for another.
pub fn child_a(w: u64) -> NodeNumber
    ensures { result.0 ≡ word_a w }
{
    NodeNumber(field_a(w))
}

pub fn child_b(w: u64) -> NodeNumber
    ensures { result.0 ≡ word_b w }
{
    NodeNumber(field_b(w))
}

pub fn child_c(w: u64) -> NodeNumber
    ensures { result.0 ≡ word_c w }
{
    NodeNumber(field_c(w))
}

pub fn name_a(w: u64) -> Name
    ensures { result.0 ≡ word_a w }
{
    Name(field_a(w))
}

pub fn type_b(w: u64) -> TypeNumber
    ensures { result.0 ≡ word_b w }
{
    TypeNumber(field_b(w))
}

pub fn value(w: u64) -> i32
    ensures { result ≡ word_value w }
{
    signed((w % LIMIT_32) as u32)
}

// The word of a node, 0 past the end.
pub fn node_word(nodes: &[u64], i: NodeNumber) -> u64
    ensures { result ≡ get_or nodes.now i.0 0 }
{
    at(nodes, i.0 as usize, 0)
}

// The word that holds a node.
pub fn pack_node(k: u8, a: u16, b: u16, c: u16, v: i32) -> u64
    ensures { Holds result (node k a b c v) }
{
    if k == 0 {
        return bits(v) as u64;
    }
    word(k, a, b, c)
}
