// What kind of meaning an operator has.

ghost use Rattle.std.specs.Prelude.{◌≡◌};
ghost use Rattle.aml_meaning.specs.Actions.{action, action_over_data, mutex_action, told_action};

use aml_operators::Op;

/// An operator whose operands are two integers and a target.
#[derive(Clone, Copy, Debug, PartialEq, Eq)]
pub enum Arithmetic {
    Add,
    Subtract,
    Multiply,
    And,
    Nand,
    Or,
    Nor,
    Xor,
    ShiftLeft,
    ShiftRight,
    Mod,
}

/// An operator whose operands are an integer and a target.
#[derive(Clone, Copy, Debug, PartialEq, Eq)]
pub enum Bitwise {
    Not,
    FindSetLeftBit,
    FindSetRightBit,
}

/// An operator that makes a value one of another kind, and leaves one that has that kind already.
#[derive(Clone, Copy, Debug, PartialEq, Eq)]
pub enum Conversion {
    ToBuffer,
    ToInteger,
}

/// An operator that says of two values whether something holds.
#[derive(Clone, Copy, Debug, PartialEq, Eq)]
pub enum Comparison {
    LAnd,
    LOr,
    LEqual,
    LGreater,
    LLess,
}

/// A pause that a method asks for.
#[derive(Clone, Copy, Debug, PartialEq, Eq)]
pub enum Pause {
    Sleep,
    Stall,
}

/// What kind of meaning an operator has, as a term and as a target.
#[derive(Clone, Copy, Debug, PartialEq, Eq)]
pub enum Action {
    /// An integer, by the operator that spells it (ACPI 6.5, 20.2.3).
    Literal(Op),
    /// A string, a buffer or a package, by the operator that spells it (20.2.3 and 20.2.5.4).
    Data(Op),
    /// A local, by its number below 8 (5.5.2.3).
    Local(u8),
    /// An argument, by its number below 7 (5.5.2.1).
    Argument(u8),
    /// A name alone, as a target or as what is read.
    Name,
    /// Two integers give a third, which is stored into a target.
    Binary(Arithmetic),
    /// An integer gives another, which is stored into a target.
    Unary(Bitwise),
    /// An integer and one give a third, which is stored back (19.6, Increment, Decrement).
    ByOne(Arithmetic),
    /// Two values are asked whether something holds: Ones or Zero.
    Compare(Comparison),
    /// An integer is asked whether it is zero: Ones or Zero (19.6, LNot).
    LNot,
    /// An integer divided by another: the remainder and the quotient each have a target
    /// (19.6, Divide).
    Divide,
    /// A value as one of another kind, which is stored into a target (19.6, ToBuffer, ToInteger).
    Convert(Conversion),
    /// Two buffers or two strings give a third, which is stored into a target (19.6, Concatenate).
    Concatenate,
    /// How large a value is (19.6, SizeOf).
    SizeOf,
    /// What an Index leads to is read (19.6, DerefOf).
    Dereference,
    /// A byte or an element of a value (19.6, Index).
    Index,
    /// Whether something has a name (19.6, CondRefOf).
    CondRefOf,
    /// The debugger, which takes every value (19.6, Debug).
    Debug,
    /// A value is stored into a target (19.6, Store).
    Store,
    /// The method ends with a value (19.6, Return).
    Return,
    /// Statements under a test, and those of an Else (19.6, If).
    If,
    /// Statements as long as a test holds (19.6, While).
    While,
    /// The innermost loop ends (19.6, Break).
    Break,
    /// Its turn ends (19.6, Continue).
    Continue,
    /// Nothing is done (19.6, Noop, BreakPoint).
    Nothing,
    /// A name as a term, with its arguments (20.2.5, MethodInvocation).
    Invoke,
    /// An object is notified with a value (19.6, Notify).
    Notify,
    /// A pause of so many units of time (19.6, Sleep, Stall).
    Pause(Pause),
    /// A mutex is taken (19.6, Acquire).
    Acquire,
    /// The mutex that was taken last is released (19.6, Release).
    Release,
    /// No target: nothing is stored.
    NoTarget,
    /// No meaning: an error after one step.
    Unwritten,
}

/// The kind of meaning of an operator.
#[inline(always)]
pub fn action_of(op: Op) -> Action
    ensures { result ≡ action op }
{
    match op {
        Op::Zero
        | Op::One
        | Op::Ones
        | Op::ByteConst
        | Op::WordConst
        | Op::DWordConst
        | Op::QWordConst => Action::Literal(op),
        Op::String | Op::Buffer | Op::Package | Op::VarPackage => Action::Data(op),
        Op::Local0 => Action::Local(0),
        Op::Local1 => Action::Local(1),
        Op::Local2 => Action::Local(2),
        Op::Local3 => Action::Local(3),
        Op::Local4 => Action::Local(4),
        Op::Local5 => Action::Local(5),
        Op::Local6 => Action::Local(6),
        Op::Local7 => Action::Local(7),
        Op::Arg0 => Action::Argument(0),
        Op::Arg1 => Action::Argument(1),
        Op::Arg2 => Action::Argument(2),
        Op::Arg3 => Action::Argument(3),
        Op::Arg4 => Action::Argument(4),
        Op::Arg5 => Action::Argument(5),
        Op::Arg6 => Action::Argument(6),
        Op::Add => Action::Binary(Arithmetic::Add),
        Op::Subtract => Action::Binary(Arithmetic::Subtract),
        Op::Multiply => Action::Binary(Arithmetic::Multiply),
        Op::And => Action::Binary(Arithmetic::And),
        Op::Nand => Action::Binary(Arithmetic::Nand),
        Op::Or => Action::Binary(Arithmetic::Or),
        Op::Nor => Action::Binary(Arithmetic::Nor),
        Op::Xor => Action::Binary(Arithmetic::Xor),
        Op::ShiftLeft => Action::Binary(Arithmetic::ShiftLeft),
        Op::ShiftRight => Action::Binary(Arithmetic::ShiftRight),
        Op::Mod => Action::Binary(Arithmetic::Mod),
        Op::Not => Action::Unary(Bitwise::Not),
        Op::FindSetLeftBit => Action::Unary(Bitwise::FindSetLeftBit),
        Op::FindSetRightBit => Action::Unary(Bitwise::FindSetRightBit),
        Op::Increment => Action::ByOne(Arithmetic::Add),
        Op::Decrement => Action::ByOne(Arithmetic::Subtract),
        Op::LAnd => Action::Compare(Comparison::LAnd),
        Op::LOr => Action::Compare(Comparison::LOr),
        Op::LEqual => Action::Compare(Comparison::LEqual),
        Op::LGreater => Action::Compare(Comparison::LGreater),
        Op::LLess => Action::Compare(Comparison::LLess),
        Op::LNot => Action::LNot,
        Op::Divide => Action::Divide,
        Op::Store => Action::Store,
        Op::Return => Action::Return,
        Op::If => Action::If,
        Op::While => Action::While,
        Op::Break => Action::Break,
        Op::Continue => Action::Continue,
        Op::Noop | Op::BreakPoint => Action::Nothing,
        Op::Invocation => Action::Invoke,
        Op::NameString => Action::Name,
        Op::NullName => Action::NoTarget,
        _ => action_over_data(op),
    }
}

/// That of an operator over buffers, strings and packages.
#[inline(always)]
fn action_over_data(op: Op) -> Action
    ensures { result ≡ action_over_data op }
{
    match op {
        Op::ToBuffer => Action::Convert(Conversion::ToBuffer),
        Op::ToInteger => Action::Convert(Conversion::ToInteger),
        Op::Concatenate => Action::Concatenate,
        Op::SizeOf => Action::SizeOf,
        Op::DerefOf => Action::Dereference,
        Op::Index => Action::Index,
        Op::CondRefOf => Action::CondRefOf,
        Op::Debug => Action::Debug,
        _ => told_action(op),
    }
}

/// That of an operator of which the world is told.
#[inline(always)]
fn told_action(op: Op) -> Action
    ensures { result ≡ told_action op }
{
    match op {
        Op::Notify => Action::Notify,
        Op::Sleep => Action::Pause(Pause::Sleep),
        Op::Stall => Action::Pause(Pause::Stall),
        _ => mutex_action(op),
    }
}

/// That of an operator of mutexes.
#[inline(always)]
fn mutex_action(op: Op) -> Action
    ensures { result ≡ mutex_action op }
{
    match op {
        Op::Acquire => Action::Acquire,
        Op::Release => Action::Release,
        _ => Action::Unwritten,
    }
}
