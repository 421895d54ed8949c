// Letters and words, written into what remains of the lent output. Each writer gives the length of its text, also of one that
// finds no room, so that a listing is measured by a walk that is lent none.
ghost use Rattle.std.specs.Prelude.{ℕ, List, [], ◌∷◌};
ghost use Rattle.std.specs.Fn.{FnOnceReturnsAtMut};
ghost use Rattle.text.specs.Places.{Put, Placed};

use script::column::put;

// One letter.
pub fn put_letter(out: &mut [u8], letter: u8) -> usize
    ensures { Put (letter ∷ []) out.old out.new result }
{
    put(out, 0, letter);
    1
}

// A text, if there is room for it.
#[tactic(auto, unfolding(script::specs::Tables::over))]
pub fn put_text(out: &mut [u8], text: &[u8]) -> usize
    ensures { Put text.now out.old out.new result }
{
    let n = text.len();
    if n <= out.len() {
        out[..n].copy_from_slice(text);
    }
    n
}

// What the closure writes at the front of an output, written from a place on; gives the next place.
pub fn written_at<F: FnOnce(&mut [u8]) -> usize>(out: &mut [u8], at: usize, write: F) -> usize
    requires { F.IsAlwaysCallable write }
    ensures { (text : List ℕ) → ((x y : List ℕ) (n : ℕ) → FnOnceReturnsAtMut F.FnOnce write x n y → Put text x y n) → Placed text at out.old out.new result }
{
    let from = at.min(out.len());
    let n = write(&mut out[from..]);
    at.saturating_add(n)
}

// A letter and a text from a place on, each giving the next place.
pub fn letter_at(out: &mut [u8], at: usize, letter: u8) -> usize
    ensures { Placed (letter ∷ []) at out.old out.new result }
{
    written_at(out, at, |rest| put_letter(rest, letter))
}

pub fn text_at(out: &mut [u8], at: usize, text: &[u8]) -> usize
    ensures { Placed text.now at out.old out.new result }
{
    written_at(out, at, |rest| put_text(rest, text))
}
