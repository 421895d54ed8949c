// Rows: refusals 1, 30, 31 and 32.
ghost use Rattle.std.specs.Prelude.{◌≡◌, suc};
ghost use Rattle.std.proofs.Math.IntN.{suc_ℤ};
ghost use Rattle.std.specs.Int.Signed.{le_z};
ghost use Rattle.lambdamix.specs.Refusal.{first_failing, refused_at};
ghost use Rattle.script.specs.Causes.{cause_number};
ghost use Rattle.script.specs.Verdicts.{found_at, refusal_of};
ghost use Rattle.bands.specs.Rows.{band_right, band_at, above_before, joins_before, rows_refusal};
ghost use Rattle.bands.specs.Calls.{columns_in, columns_long, row_in, rows_in, columns_refusal};
ghost use Rattle.bands.specs.Steps.{above_in, left_in, start_in};

use script::Refusal;
use script::cause::Cause;
use script::column::at;
use script::search::first_failing;

// "It takes 1 to 32 rows"
pub(crate) const MAX_ROWS: u16 = 32;

// "grade (0 to 255)"
const MAX_GRADE: i32 = 255;

// The lowest reading, and the number past the highest.
const LOWEST: i64 = -2147483648;

const PAST_HIGHEST: i64 = 2147483648;

// Rows as a caller lends them: a column each for low, high and grade.
#[derive(Clone, Copy)]
pub struct Rows<'a> {
    pub low: &'a [i32],
    pub high: &'a [i32],
    pub grade: &'a [i32],
}

impl Rows<'_> {
    // Whether the columns hold as many rows as are counted.
    #[tactic(auto, unfolding(crate::specs::Calls::columns_long))]
    fn hold(&self, count: u16) -> bool
        ensures { result ≡ columns_long count (columns_in self.now) }
    {
        let rows = count as usize;
        rows <= self.low.len() && rows <= self.high.len() && rows <= self.grade.len()
    }
}

// A row by itself: low not above high, and a grade of the range.
fn band_right(low: i32, high: i32, grade: i32) -> bool
    ensures { result ≡ band_right (record { low = low; high = high; grade = grade }) }
{
    low <= high && 0 <= grade && grade <= MAX_GRADE
}

// Whether row k is right by itself.
fn row_right(rows: &Rows, k: usize) -> bool
    ensures { result ≡ band_right (row_in (columns_in rows.now) k) }
{
    band_right(
        at(rows.low, k, 0),
        at(rows.high, k, 0),
        at(rows.grade, k, 0),
    )
}

// Whether row k is above the row before it, if there is one.
fn above_before(rows: &Rows, k: usize) -> bool
    ensures { result ≡ above_in rows.now.low.now rows.now.high.now k }
{
    k < 1 || at(rows.high, k - 1, 0) < at(rows.low, k, 0)
}

// The number after this one, in 64 bits.
fn next(z: i32) -> i64
    ensures { result ≡ suc_ℤ z }
{
    i64::from(z) + 1
}

// The lowest reading that the rows before row k leave.
fn left_at(high: &[i32], k: usize) -> i64
    ensures { result ≡ left_in high.now k }
{
    if k < 1 {
        LOWEST
    } else {
        next(at(high, k - 1, 0))
    }
}

// From where row k takes readings; after the last row, from past the range.
fn start_at(low: &[i32], count: u16, k: usize) -> i64
    ensures { result ≡ start_in low.now count k }
{
    if k < (count as usize) {
        i64::from(at(low, k, 0))
    } else {
        PAST_HIGHEST
    }
}

// Whether no reading is left out before row k.
fn joins_before(rows: &Rows, count: u16, k: usize) -> bool
    ensures { result ≡ le_z (start_in rows.now.low.now count k) (left_in rows.now.high.now k) }
{
    start_at(rows.low, count, k) <= left_at(rows.high, k)
}

// 30: the first row that is not right by itself.
fn wrong_row(count: u16, rows: &Rows) -> Result<(), Refusal>
    ensures { refusal_of result ≡ refused_at 30 (first_failing (λ k. band_right (band_at (rows_in count (columns_in rows.now)) k)) 0 count) }
{
    Cause::BadRow.at_first(first_failing(count as usize, |k| row_right(rows, k)))
}

// 31: the first row whose low is not above the row before's high.
fn overlap(count: u16, rows: &Rows) -> Result<(), Refusal>
    ensures { refusal_of result ≡ refused_at 31 (first_failing (above_before (rows_in count (columns_in rows.now))) 0 count) }
{
    Cause::Overlap.at_first(first_failing(count as usize, |k| above_before(rows, k)))
}

// 32: the first row behind a gap, or the count of rows.
fn gap(count: u16, rows: &Rows) -> Result<(), Refusal>
    ensures { refusal_of result ≡ refused_at 32 (first_failing (joins_before (rows_in count (columns_in rows.now))) 0 (suc count)) }
{
    Cause::Gap.at_first(first_failing((count as usize) + 1, |k| joins_before(rows, count, k)))
}

// All rows are tried for 30, then for 31, then for 32.
fn rows_refusal(count: u16, rows: &Rows) -> Result<(), Refusal>
    ensures { refusal_of result ≡ rows_refusal (rows_in count (columns_in rows.now)) }
{
    if count < 1 || MAX_ROWS < count {
        return Err(Cause::BadRow.at(0));
    }
    wrong_row(count, rows)?;
    overlap(count, rows)?;
    gap(count, rows)
}

// Columns shorter than the count: 1 [0]; then 30 to 32.
pub(crate) fn columns_refusal(count: u16, rows: &Rows) -> Result<(), Refusal>
    ensures { refusal_of result ≡ columns_refusal count (columns_in rows.now) }
{
    if !rows.hold(count) {
        return Err(Cause::WrongLength.at(0));
    }
    rows_refusal(count, rows)
}
