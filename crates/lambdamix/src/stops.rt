// The numbers that stops are told by.
ghost use Rattle.std.specs.Prelude.{◌≡◌};
ghost use Rattle.lambdamix.specs.Value.{reason_number_by, reason_number};
ghost use Rattle.lambdamix.specs.PlainRun.{plain_reason_number};

use crate::Reason;

// The paper's number of a reason, where a clash is told by the number given.
fn number_of(r: Reason, clash: u8) -> u8
    ensures { result ≡ reason_number_by clash r }
{
    match r {
        Reason::FuelSpent => 22,
        Reason::TooDeep => 23,
        Reason::AboveRange => 24,
        Reason::BelowRange => 29,
        Reason::DivisorZero => 25,
        Reason::Clash => clash,
    }
}

// In making. Two numberings, which differ in a clash, are no `From`.
pub fn reason_number(r: Reason) -> u8
    ensures { result ≡ reason_number r }
{
    number_of(r, 27)
}

// In the plain run.
pub fn plain_reason_number(r: Reason) -> u8
    ensures { result ≡ plain_reason_number r }
{
    number_of(r, 28)
}
