// Where the script ends in an input and the settings begin.
ghost use Rattle.std.specs.Prelude.{◌≡◌, min, length};
ghost use Rattle.streams.specs.Input.{script_length};

use reading::marks::marked;
use reading::reader::head_counts;
use script::limits::counts_right;
use script::place::file_size;

// "the script is as long as its head says; without a right head the whole input is the script"
fn script_length(input: &[u8]) -> usize
    ensures { result ≡ script_length input.now }
{
    let n = head_counts(input);
    if 8 <= input.len() && marked(input, 0, b'H', b'D') && counts_right(n) {
        file_size(n)
    } else {
        input.len()
    }
}

// Where the script ends.
pub fn script_end(input: &[u8]) -> usize
    ensures { result ≡ min (script_length input.now) (length input.now) }
{
    script_length(input).min(input.len())
}
