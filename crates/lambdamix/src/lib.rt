// The Rattle part of the calculus: the names that its definitions share with the code above it, and the
// exact arithmetic of the six operators, and the numbers of stops.
#![tactic(auto)]

pub mod arithmetic;
pub mod stops;

ghost use Rattle.std.specs.Prelude.{◌≡◌};
ghost use Rattle.lambdamix.specs.Arithmetic.{reason_of};

// What a field of a node holds: nothing, a variable's name, the name that a function binds, a child's number, the
// number of a parameter's type, or an operator. The first variant is also what a field past the table holds.
#[derive(Clone, Copy)]
pub enum Use {
    Nothing,
    Name,
    Binder,
    Child,
    ParameterType,
    Operation,
}

// The steps of Figure 2, in the order of their kinds 0 to 12. The paper says early for static and late for dynamic.
#[derive(Clone, Copy, PartialEq, Eq)]
pub enum Step {
    Constant,
    Variable,
    Lift,
    Function,
    Application,
    Fix,
    Conditional,
    Operation,
    DynamicFunction,
    DynamicApplication,
    DynamicFix,
    DynamicIf,
    DynamicOperation,
}

// The operators 0 to 5 of the paper, in its order: + - * / = <.
#[derive(Clone, Copy)]
pub enum Operator {
    Add,
    Subtract,
    Multiply,
    Divide,
    Equal,
    Less,
}

// Why a run stops: its fuel is spent, it is too deep, a result is above the range or below it, a divisor is 0, or a value is of another sort than
// its rule wants.
#[derive(Clone, Copy)]
pub enum Reason {
    FuelSpent,
    TooDeep,
    AboveRange,
    BelowRange,
    DivisorZero,
    Clash,
}

// What a run of the maker is: making, or the bare run, which leaves out refusals 9 to 11.
#[derive(Clone, Copy)]
pub enum Mode {
    Making,
    BareRun,
}

// Why an operation has no result of 32 bits: the exact one is above the range or below it, or the divisor is 0.
#[derive(Clone, Copy, PartialEq, Eq)]
pub enum ArithmeticError {
    AboveRange,
    BelowRange,
    DivisorZero,
}

impl From<ArithmeticError> for Reason {
    ghost from_gives = { λ e r. r ≡ reason_of e };

    fn from(error: ArithmeticError) -> Reason {
        match error {
            ArithmeticError::AboveRange => Reason::AboveRange,
            ArithmeticError::BelowRange => Reason::BelowRange,
            ArithmeticError::DivisorZero => Reason::DivisorZero,
        }
    }
}
