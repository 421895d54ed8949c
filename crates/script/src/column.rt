// Columns that a caller lends: an element past the end is told as another value, and a write past the end changes nothing.
ghost use Rattle.std.specs.Prelude.{◌≡◌, get_or, set};

use crate::TypeNumber;

// The element at a place; past the end another value.
pub fn at<T: Copy>(s: &[T], i: usize, otherwise: T) -> T
    ensures { result ≡ get_or s.now i otherwise }
{
    if i < s.len() { s[i] } else { otherwise }
}

// A type's number of a column that holds such.
pub fn type_at(s: &[u16], i: usize) -> TypeNumber
    ensures { result.0 ≡ get_or s.now i 0 }
{
    TypeNumber(at(s, i, 0))
}

pub fn put<T: Copy>(s: &mut [T], i: usize, v: T)
    ensures { s.new ≡ set s.old i v }
{
    if i < s.len() {
        s[i] = v;
    }
}
