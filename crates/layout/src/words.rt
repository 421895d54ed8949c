// The signs of operations and the names, as they stand in a listing.
ghost use Rattle.std.specs.Prelude.{◌≡◌, [], ◌∷◌};
ghost use Rattle.lambdamix.specs.Term.{operator_of};
ghost use Rattle.lambdamix.specs.Listing.{name_text, operator_text};
ghost use Rattle.text.specs.Places.{Put, Placed};

use script::Name;
use script::column::at;
use text::decimals::put_prefixed;
use text::parts::{letter_at, put_letter, written_at};

const SIGNS: [u8; 6] = *b"+-*/=<";

// The sign of an operator; that of the first past the last.
fn sign(operator: u16) -> u8
    ensures { operator_text (operator_of operator) ≡ result ∷ [] }
{
    at(&SIGNS, operator as usize, b'+')
}

// A bracket and the sign of an operator.
pub(crate) fn put_sign(out: &mut [u8], operator: u16) -> usize
    ensures { Placed (40 ∷ operator_text (operator_of operator)) 0 out.old out.new result }
{
    let open = put_letter(out, b'(');
    letter_at(out, open, sign(operator))
}

// "`i0` an input, `v2` a binder's name".
fn put_name(out: &mut [u8], inputs: u16, x: Name) -> usize
    ensures { Put (name_text inputs x.0) out.old out.new result }
{
    let letter = if x.0 < inputs { b'i' } else { b'v' };
    put_prefixed(out, letter, x.0 as u32).length
}

// A name in what remains from a place on; gives the next place.
pub(crate) fn name_at(out: &mut [u8], at: usize, inputs: u16, x: Name) -> usize
    ensures { Placed (name_text inputs x.0) at out.old out.new result }
{
    written_at(out, at, |rest| put_name(rest, inputs, x))
}
