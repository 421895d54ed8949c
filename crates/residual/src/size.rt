// The written tree of code is counted before it is written, by recursion on falling places. A shared piece counts each time; where
// nodes or height give out, the count ends. What is left is one number, as `room_of` of the promises reads it: the nodes and one more, or 0. Which fields of a
// cell hold pieces is told by the row of its kind, which an arm of that kind reads so that the compiler folds it, and a variable is counted without a call:
// docs/SPEED.md, "What was changed", 5 and 7.
ghost use Rattle.std.specs.Prelude.{ℕ, ◌≤◌, ◌≡◌, true, length, get_or};
ghost use Rattle.lambdamix.specs.declared.Use.TheVariants.{Child};
ghost use Rattle.lambdamix.specs.Code.{Code, nil_c, ref};
ghost use Rattle.residual.specs.Cells.{code_at, code_below, piece_by, row_pieces, charge_one, room_of, Charges, ChargesUnder, ChargesAll, Counted};

use crate::limits::{MAX_HEIGHT, MAX_NODES};
use lambdamix::{Step, Use};
use script::kinds::{self, step_row};
use script::{Row, word};

// One node, as a variable is.
fn charge_node(room: u16, height: u16) -> u16
    ensures { room_of result ≡ charge_one (ref 0) (room_of room) height }
{
    if room < 2 || height == 0 {
        return 0;
    }
    room - 1
}

// Whether a field of the use v is the piece at f.
fn same_piece(v: Use, g: u16, f: u16) -> bool
    ensures { result ≡ true → (v ≡ Child) × (g ≡ f) }
{
    matches!(v, Use::Child) && g == f
}

// A piece once more, which took the room to what is left: it takes as much again, if that is there.
#[tactic(auto, using(crate::proofs::Charging::again))]
fn charge_again(room: u16, left: u16) -> u16
    requires { left ≤ room }
    ensures { (c : Code) (h : ℕ) → room_of left ≡ charge_one c (room_of room) h → room_of result ≡ charge_one c (room_of left) h }
{
    left.saturating_sub(room - left)
}

// What is under the node of the cell x at p, in a height of one more than some levels.
// Not by `by_kind`: only kinds of code stand here.
#[cycle(charges)]
fn charge_pieces(codes: &[u64], p: u16, x: u64, room: u16, levels: u16) -> u16
    requires { (p ≤ length codes.now) × (x ≡ get_or codes.now p 0) }
    ensures { ChargesUnder codes.now p room levels result }
{
    match word::kind(x) {
        kinds::VARIABLE => charge_row(codes, p, x, step_row(Step::Variable), room, levels),
        kinds::DYNAMIC_FUNCTION => charge_row(
            codes,
            p,
            x,
            step_row(Step::DynamicFunction),
            room,
            levels,
        ),
        kinds::DYNAMIC_APPLICATION => charge_row(
            codes,
            p,
            x,
            step_row(Step::DynamicApplication),
            room,
            levels,
        ),
        kinds::DYNAMIC_FIX => charge_row(codes, p, x, step_row(Step::DynamicFix), room, levels),
        kinds::DYNAMIC_IF => charge_row(codes, p, x, step_row(Step::DynamicIf), room, levels),
        kinds::DYNAMIC_OPERATION => charge_row(
            codes,
            p,
            x,
            step_row(Step::DynamicOperation),
            room,
            levels,
        ),
        _ => charge_node(room, 1),
    }
}

// The fields of the cell x at p by their uses, in order; before the first stands none.
#[cycle(charges)]
fn charge_row(codes: &[u64], p: u16, x: u64, row: Row, room: u16, levels: u16) -> u16
    requires { p ≤ length codes.now }
    ensures { ChargesAll (row_pieces row (code_below codes.now p) x) room levels result }
{
    let Row(u, v, w) = row;
    let i = word::field_a(x);
    let j = word::field_b(x);
    let a = charge_field(codes, p, u, i, room, Use::Nothing, 0, room, levels);
    let b = charge_field(codes, p, v, j, a, u, i, room, levels);
    charge_field(codes, p, w, word::field_c(x), b, v, j, a, levels)
}

// A field f by its use u: a child is a piece. The field before it has the use v and is g, and took the room before to this one: where
// both are the same piece, that one is counted, and charged again.
#[cycle(charges)]
fn charge_field(
    codes: &[u64],
    p: u16,
    u: Use,
    f: u16,
    room: u16,
    v: Use,
    g: u16,
    before: u16,
    levels: u16,
) -> u16
    requires { (p ≤ length codes.now) × ChargesAll (piece_by v (code_below codes.now p g) nil_c) before levels room }
    ensures { ChargesAll (piece_by u (code_below codes.now p f) nil_c) room levels result }
{
    let Use::Child = u else {
        return room;
    };
    if same_piece(v, g, f) {
        return charge_again(before, room);
    }
    charge_piece(codes, p, f, room, levels)
}

// The code at q if that is below p, else a constant.
#[cycle(charges)]
fn charge_piece(codes: &[u64], p: u16, q: u16, room: u16, levels: u16) -> u16
    requires { p ≤ length codes.now }
    ensures { Charges codes.now p q room levels result }
{
    if room < 2 {
        return 0;
    }
    if p <= q {
        return charge_node(room - 1, levels);
    }
    let x = codes[q as usize];
    if word::kind(x) == kinds::VARIABLE {
        return room - 1;
    }
    if levels == 0 {
        return 0;
    }
    charge_pieces(codes, q, x, room - 1, levels - 1)
}

// The code at p, out of the most nodes and the greatest height.
pub fn charge(codes: &[u64], p: u16) -> u16
    ensures { Counted (code_at codes.now p) result }
{
    let Some(x) = codes.get(p as usize) else {
        return MAX_NODES - 1;
    };
    charge_pieces(codes, p, *x, MAX_NODES, MAX_HEIGHT - 2)
}
