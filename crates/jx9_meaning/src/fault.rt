//! Faults of operations.

/// Why an operation of a script faulted.
#[derive(Clone, Copy, Debug, PartialEq, Eq)]
pub enum FaultKind {
    /// A whole number would not fit in 64 bits with a sign.
    Overflow,
    /// A division or a remainder by 0.
    ZeroDivisor,
    /// An operand has no number.
    NotNumber,
    /// A value would be larger than a value may be.
    TooLarge,
    /// A value would be deeper than a value may be.
    TooDeep,
    /// An index into a list that is no whole number from 0 to its length.
    IndexRange,
    /// A step or a `foreach` into what has no parts.
    NotContainer,
    /// What is called names no function.
    UnknownFunction,
    /// A call while as many as may be are active.
    CallDepth,
    /// A function does not take these arguments.
    BadArgument,
}
