// Decimals, each written in one pass from its first digit to its last, with no count of its digits before. A number is held as a fraction of a power of
// ten: its whole part is the next digit, and ten times the rest goes on to the next round. Each writer gives the length of its text, also of
// one that finds no room.
ghost use Rattle.std.specs.Prelude.{◌*◌, ◌<◌, ◌∷◌};
ghost use Rattle.lambdamix.specs.Text.{digits, decimal};
ghost use Rattle.text.specs.Places.{Placed};
ghost use Rattle.text.specs.Decimals.{PutNumber, PutLong};
ghost use Rattle.text.specs.Drawing.{NextDigit, one, Draws};

use crate::Decimal;
use crate::parts::written_at;
use script::column::put;
use script::word::LIMIT_32;

// One, in the units of a fraction.
const ONE: u64 = LIMIT_32;

// Numbers below this, as most are, have five digits at most.
const SHORT: u32 = 100000;

// A digit behind the bytes that stand, as many as `length` says; a zero in front of all others is none. How many bytes stand then.
#[tactic(auto, using(crate::specs::Drawing::passed_over, crate::specs::Drawing::stands))]
fn put_digit(out: &mut [u8], length: usize, digit: u8) -> usize
    requires { (digit < 10) × (length < 10) }
    ensures { NextDigit digit length out.old out.new result }
{
    if (digit as usize) + length == 0 {
        return length;
    }
    put(out, length, 48 + digit);
    length + 1
}

// The digits of a fraction, first to last: one in each round, and one after them all.
fn put_drawn(out: &mut [u8], fraction: u64, rounds: usize) -> Decimal
    requires { (fraction < 10 * one) × (rounds < 10) }
    ensures { Draws fraction rounds out.old out.new result }
{
    let mut rest = fraction;
    let mut length = 0;
    let mut done = 0;
    for round in 0..rounds {
        length = put_digit(out, length, (rest / ONE) as u8);
        rest = rest % ONE * 10;
        done = round + 1;
    }
    put(out, length, 48 + (rest / ONE) as u8);
    Decimal {
        length: length + 1,
        rounds: done,
    }
}

// A number in decimal, without leading zeros, from its fraction of 10^4 or of 10^9, rounded up.
pub fn put_digits(out: &mut [u8], x: u32) -> Decimal
    ensures { PutNumber (digits x) out.old out.new result }
{
    if x < SHORT {
        return put_drawn(out, (x as u64) * ONE / 10000 + 1, 4);
    }
    put_drawn(out, (x as u64) * ONE / 1000000000 + 1, 9)
}

// A letter, then the digits of a number.
pub fn put_prefixed(out: &mut [u8], letter: u8, x: u32) -> Decimal
    ensures { PutNumber (letter ∷ digits x) out.old out.new result }
{
    put(out, 0, letter);
    let from = out.len().min(1);
    let behind = put_digits(&mut out[from..], x);
    Decimal {
        length: behind.length + 1,
        rounds: behind.rounds,
    }
}

// "Signed decimals", the least number too, whose distance from 0 has 32 bits.
#[tactic(auto, using(crate::proofs::Signs::read_back, crate::proofs::Signs::decimal_unsigned, crate::proofs::Signs::decimal_signed))]
pub fn put_decimal(out: &mut [u8], z: i32) -> Decimal
    ensures { PutNumber (decimal z) out.old out.new result }
{
    let x = z.unsigned_abs();
    if z < 0 {
        return put_prefixed(out, b'-', x);
    }
    put_digits(out, x)
}

// A number of up to 64 bits: one of 32 bits as above, any other behind the digits of its tenth. A recursion, whose rounds
// are counted with those of the loop (`PutLong`).
fn put_long(out: &mut [u8], x: u64) -> Decimal
    ensures { PutLong x out.old out.new result }
{
    if x < LIMIT_32 {
        return put_digits(out, x as u32);
    }
    let front = put_long(out, x / 10);
    let length = front.length;
    put(out, length, 48 + (x % 10) as u8);
    Decimal {
        length: length + 1,
        rounds: front.rounds + 1,
    }
}

// Numbers from a place on, each giving the next place.
pub fn digits_at(out: &mut [u8], at: usize, x: u32) -> usize
    ensures { Placed (digits x) at out.old out.new result }
{
    written_at(out, at, |rest| put_digits(rest, x).length)
}

pub fn decimal_at(out: &mut [u8], at: usize, z: i32) -> usize
    ensures { Placed (decimal z) at out.old out.new result }
{
    written_at(out, at, |rest| put_decimal(rest, z).length)
}

pub fn long_at(out: &mut [u8], at: usize, x: u64) -> usize
    ensures { Placed (digits x) at out.old out.new result }
{
    written_at(out, at, |rest| put_long(rest, x).length)
}
