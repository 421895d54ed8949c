// The lines that are printed. Each part is written into what remains of the lent output.
ghost use Rattle.std.specs.Prelude.{ltb};
ghost use Rattle.text.specs.Places.{Placed};
ghost use Rattle.streams.specs.Lines.{pair_text, unmade_text};
ghost use Rattle.streams.specs.Printed.{CountsPlaced, Prints};

use script::Refusal;
use text::decimals::{digits_at, long_at};
use text::parts::{letter_at, text_at};

// Two numbers, each behind its words, and the end of the line. The second may be a place, which has up to 64 bits.
pub fn print_pair(out: &mut [u8], opening: &[u8], x: u32, middle: &[u8], y: u64) -> usize
    ensures { Placed (pair_text opening.now x middle.now y) 0 out.old out.new result }
{
    let one = text_at(out, 0, opening);
    let two = digits_at(out, one, x);
    let three = text_at(out, two, middle);
    let four = long_at(out, three, y);
    letter_at(out, four, b'\n')
}

// "`refused 9 4` (number, place) alone, or `accepted` and `stopped 24 2`, each on its own line"
#[tactic(auto, using(crate::proofs::Lines::unmade_refused, crate::proofs::Lines::unmade_stopped, crate::proofs::Lines::unmade_within), unfolding(lambdamix::specs::Text::ascii))]
pub fn print_unmade(out: &mut [u8], f: Refusal) -> usize
    ensures { Prints (unmade_text (ltb f.number 20) f.number f.place) out.old out.new result }
{
    if f.number < 20 {
        return print_pair(out, b"refused ", f.number as u32, b" ", f.place as u64);
    }
    print_pair(
        out,
        b"accepted\nstopped ",
        f.number as u32,
        b" ",
        f.place as u64,
    )
}

// `accepted`, the steps and the nodes, each on its own line.
pub fn print_counts(out: &mut [u8], steps: u16, nodes: u16) -> usize
    ensures { CountsPlaced steps nodes out.old out.new result }
{
    print_pair(
        out,
        b"accepted\nsteps ",
        steps as u32,
        b"\nnodes ",
        nodes as u64,
    )
}
