// The table of tables: per kind, the use of the fields a, b and c; and the kinds of the steps.
ghost use Rattle.std.specs.Prelude.{◌≡◌};
ghost use Rattle.script.specs.Kinds.{is_child, is_binder};
ghost use Rattle.script.specs.KindRows.{kind_number, row_at};

use crate::Row;
use lambdamix::{Step, Use};

// The kinds 0 to 12, as files and words hold them. A word's kind is matched as a number: read as a step first, a walk of the tree takes a fifth more instructions.
pub const CONSTANT: u16 = Step::Constant as u16;

pub const VARIABLE: u16 = Step::Variable as u16;

pub const LIFT: u16 = Step::Lift as u16;

pub const FUNCTION: u16 = Step::Function as u16;

pub const APPLICATION: u16 = Step::Application as u16;

pub const FIX: u16 = Step::Fix as u16;

pub const CONDITIONAL: u16 = Step::Conditional as u16;

pub const OPERATION: u16 = Step::Operation as u16;

pub const DYNAMIC_FUNCTION: u16 = Step::DynamicFunction as u16;

pub const DYNAMIC_APPLICATION: u16 = Step::DynamicApplication as u16;

pub const DYNAMIC_FIX: u16 = Step::DynamicFix as u16;

pub const DYNAMIC_IF: u16 = Step::DynamicIf as u16;

pub const DYNAMIC_OPERATION: u16 = Step::DynamicOperation as u16;

const USES: [[Use; 3]; 13] = [
    [Use::Nothing, Use::Nothing, Use::Nothing],
    [Use::Name, Use::Nothing, Use::Nothing],
    [Use::Child, Use::Nothing, Use::Nothing],
    [Use::Binder, Use::ParameterType, Use::Child],
    [Use::Child, Use::Child, Use::Nothing],
    [Use::Child, Use::Nothing, Use::Nothing],
    [Use::Child, Use::Child, Use::Child],
    [Use::Child, Use::Child, Use::Operation],
    [Use::Binder, Use::Nothing, Use::Child],
    [Use::Child, Use::Child, Use::Nothing],
    [Use::Child, Use::Nothing, Use::Nothing],
    [Use::Child, Use::Child, Use::Child],
    [Use::Child, Use::Child, Use::Operation],
];

// The row of a step, read of the table. Read at a literal step it costs nothing: the compiler folds it.
#[tactic(auto, unfolding(crate::specs::KindRows::row_at, crate::specs::Kinds::use_of, crate::specs::Kinds::uses_table, lambdamix::specs::Script::rows))]
pub fn step_row(step: Step) -> Row
    ensures { result ≡ row_at (kind_number step) }
{
    let uses = USES[step as usize];
    Row(uses[0], uses[1], uses[2])
}

// The row of a node's own kind, nothing past the table: one arm for each kind, which reads the row of that literal step.
pub fn own_row(kind: u16) -> Row
    ensures { result ≡ row_at kind }
{
    match kind {
        CONSTANT => step_row(Step::Constant),
        VARIABLE => step_row(Step::Variable),
        LIFT => step_row(Step::Lift),
        FUNCTION => step_row(Step::Function),
        APPLICATION => step_row(Step::Application),
        FIX => step_row(Step::Fix),
        CONDITIONAL => step_row(Step::Conditional),
        OPERATION => step_row(Step::Operation),
        DYNAMIC_FUNCTION => step_row(Step::DynamicFunction),
        DYNAMIC_APPLICATION => step_row(Step::DynamicApplication),
        DYNAMIC_FIX => step_row(Step::DynamicFix),
        DYNAMIC_IF => step_row(Step::DynamicIf),
        DYNAMIC_OPERATION => step_row(Step::DynamicOperation),
        _ => step_row(Step::Constant),
    }
}

// A call with a row behind its arguments, in an arm for each kind: each hands on the row of its own literal step, so that the compiler folds the read; past the
// table another value.
#[macro_export]
macro_rules! by_kind {
    ($kind:expr, $call:ident($($argument:expr),*), $past:expr) => {
        match $kind {
            $crate::kinds::CONSTANT => $call($($argument),*, $crate::kinds::step_row($crate::Step::Constant)),
            $crate::kinds::VARIABLE => $call($($argument),*, $crate::kinds::step_row($crate::Step::Variable)),
            $crate::kinds::LIFT => $call($($argument),*, $crate::kinds::step_row($crate::Step::Lift)),
            $crate::kinds::FUNCTION => $call($($argument),*, $crate::kinds::step_row($crate::Step::Function)),
            $crate::kinds::APPLICATION => $call($($argument),*, $crate::kinds::step_row($crate::Step::Application)),
            $crate::kinds::FIX => $call($($argument),*, $crate::kinds::step_row($crate::Step::Fix)),
            $crate::kinds::CONDITIONAL => $call($($argument),*, $crate::kinds::step_row($crate::Step::Conditional)),
            $crate::kinds::OPERATION => $call($($argument),*, $crate::kinds::step_row($crate::Step::Operation)),
            $crate::kinds::DYNAMIC_FUNCTION => $call($($argument),*, $crate::kinds::step_row($crate::Step::DynamicFunction)),
            $crate::kinds::DYNAMIC_APPLICATION => $call($($argument),*, $crate::kinds::step_row($crate::Step::DynamicApplication)),
            $crate::kinds::DYNAMIC_FIX => $call($($argument),*, $crate::kinds::step_row($crate::Step::DynamicFix)),
            $crate::kinds::DYNAMIC_IF => $call($($argument),*, $crate::kinds::step_row($crate::Step::DynamicIf)),
            $crate::kinds::DYNAMIC_OPERATION => $call($($argument),*, $crate::kinds::step_row($crate::Step::DynamicOperation)),
            _ => $past,
        }
    };
}

// What a use asks of a walk.
pub fn is_child(u: Use) -> bool
    ensures { result ≡ is_child u }
{
    matches!(u, Use::Child)
}

pub fn is_binder(u: Use) -> bool
    ensures { result ≡ is_binder u }
{
    matches!(u, Use::Binder)
}
