//! Trees, made of their parts.

ghost use Rattle.std.specs.Prelude.{◌≡◌, IfOk, IfErr};
ghost use Rattle.jx9_syntax.specs.Grammar.{at, stands, variable, with_steps as spec_with_steps};
ghost use Rattle.jx9_parse.specs.Reading.{empty_function as spec_empty_function};
ghost use Rattle.jx9_parse.specs.Spots.{spot_of, with_spot};
ghost use Rattle.jx9_parse.specs.declared.stop.Stop.TheVariants.{Memory};

use crate::spot::Spot;
use crate::stop::Stop;
use jx9_syntax::{Access, Expr, Function, Kind, Node, Place, Statement};
use sqlite_items::{Boxed, Items};
use std::alloc::Global;

/// A place with the spot of its variable.
pub(crate) type PlaceAt = (Place, Spot);

pub(crate) fn expr_at(spot: Spot, node: Node) -> Expr
    ensures { result ≡ at (spot_of spot) node }
{
    let Spot { line, token } = spot;
    Expr { line, token, node }
}

pub(crate) fn expr_like(line: u32, token: u32, node: Node) -> Expr
    ensures { result ≡ record { line = line; token = token; node = node } }
{
    Expr { line, token, node }
}

pub(crate) fn statement_of(spot: Spot, kind: Kind) -> Statement
    ensures { result ≡ stands (spot_of spot) kind }
{
    let Spot { line, token } = spot;
    Statement { line, token, kind }
}

/// A variable with its steps.
pub(crate) fn variable_of(place: PlaceAt) -> Expr
    ensures { result ≡ variable (with_spot place) }
{
    let (Place { name, steps }, spot) = place;
    expr_at(spot, Node::Var(name, steps))
}

/// The expression with its steps: itself where there are none.
pub(crate) fn with_steps(alloc: Global, first: Expr, steps: Items<Access>) -> Result<Expr, Stop>
    ensures ok { IfOk result (λ e. e ≡ spec_with_steps first steps) }
    ensures err { IfErr result (λ stop. stop ≡ Memory) }
{
    if steps.is_empty() {
        return Ok(first);
    }
    let (line, token) = (first.line, first.token);
    Ok(expr_like(line, token, Node::Path(Boxed::new(alloc, first)?, steps)))
}

/// What stands in the list of lambdas while one is read.
pub(crate) fn empty_function(alloc: Global) -> Function
    ensures { result ≡ spec_empty_function }
{
    Function {
        params: Items::new(alloc),
        body: Statement {
            line: 0,
            token: 0,
            kind: Kind::Empty,
        },
    }
}
