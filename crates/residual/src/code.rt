// The fields of a written node that hold no piece.
ghost use Rattle.std.specs.Prelude.{◌≡◌};
ghost use Rattle.lambdamix.specs.Term.{operator_of};
ghost use Rattle.lambdamix.specs.Code.{operator_number};
ghost use Rattle.residual.specs.Cells.{field_by};

use lambdamix::Use;

// The number that an operator is written as.
// Past the table stands +, whose number is 0.
fn operator(f: u16) -> u16
    ensures { result ≡ operator_number (operator_of f) }
{
    if f < 6 { f } else { 0 }
}

// A field by its use: a name stands as it is, an operator as its number.
#[tactic(auto, unfolding(crate::specs::Cells::field_by))]
pub fn plain_field(u: Use, f: u16) -> u16
    ensures { result ≡ field_by u f 0 }
{
    match u {
        Use::Name | Use::Binder => f,
        Use::Operation => operator(f),
        _ => 0,
    }
}
