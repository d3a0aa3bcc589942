//! What is read one level of nesting deeper.

ghost use Rattle.std.specs.Prelude.{◌≡◌};
ghost use Rattle.jx9_parse.specs.OneOf.{first_of as spec_first_of, second_of as spec_second_of};

use crate::stop::Stop;
use jx9_syntax::{Expr, Statement};

/// What stands within a construct that takes a level of nesting.
#[derive(Clone, Copy)]
pub(crate) enum Construct {
    Unary,
    Expr,
    Block,
    Statement,
}

/// One of two.
#[derive(Drop)]
pub(crate) enum OneOf<A, B> {
    First(A),
    Second(B),
}

/// The tree of a construct.
pub(crate) type Tree = OneOf<Expr, Statement>;

/// What was read, where it is the first of the two.
pub(crate) fn first_of<A, B: Drop>(read: Result<OneOf<A, B>, Stop>) -> Result<A, Stop>
    ensures { result ≡ spec_first_of read }
{
    match read {
        Ok(OneOf::First(found)) => Ok(found),
        Ok(OneOf::Second(_)) => Err(Stop::Dead),
        Err(stop) => Err(stop),
    }
}

/// What was read, where it is the second of the two.
pub(crate) fn second_of<A: Drop, B>(read: Result<OneOf<A, B>, Stop>) -> Result<B, Stop>
    ensures { result ≡ spec_second_of read }
{
    match read {
        Ok(OneOf::Second(found)) => Ok(found),
        Ok(OneOf::First(_)) => Err(Stop::Dead),
        Err(stop) => Err(stop),
    }
}
