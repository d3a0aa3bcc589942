//! Chains of operators while they are read. A chain is open while an operand is owed behind its last operator. The chain
//! that was opened last has the lowest level, so it is the first to be closed.

ghost use Rattle.std.specs.Prelude.{◌≡◌, [], ◌∷◌, ◌++◌, map, IfOk, IfErr, OnOk};
ghost use Rattle.std.specs.Option.{option_map};
ghost use Rattle.jx9_syntax.specs.Grammar.{chain as spec_chain, chain_node as spec_chain_node, links as spec_links, operands as spec_operands};
ghost use Rattle.jx9_parse.specs.Chains.{tied, operator_of, open_chain, open_chains, is_last, take_open, first_operand, ties_with, closed, opened};
ghost use Rattle.jx9_parse.specs.declared.stop.Stop.TheVariants.{Memory};

use crate::stop::Stop;
use jx9_syntax::{Binary, Expr, Link, Node};
use sqlite_items::{Boxed, Items};
use std::alloc::Global;

/// An operator between two operands.
#[derive(Clone, Copy)]
pub(crate) enum Operator {
    /// Of arithmetic or a comparison.
    Of(Binary),
    /// `..`
    Join,
    /// `&&`
    And,
    /// `||`
    Or,
}

/// An operator and the operand behind it.
#[derive(Drop)]
struct Tie {
    operator: Operator,
    operand: Expr,
}

/// A chain of a level that is open.
#[derive(Drop)]
struct Open {
    level: u8,
    first: Expr,
    ties: Vec<Tie>,
    operator: Operator,
}

/// The chains that are open.
#[derive(Drop)]
pub(crate) struct OpenChains {
    chains: Items<Open>,
}

impl Open {
    /// Its first operand, and the others with this one behind them.
    fn with(self, operand: Expr) -> Result<(Expr, Vec<Tie>), Stop>
        ensures first { IfOk result (λ it. it.0 ≡ self.first) }
        ensures ties { IfOk result (λ it. map tied it.1.items ≡ map tied self.ties.items ++ (operator_of self.operator, operand) ∷ []) }
        ensures err { IfErr result (λ stop. stop ≡ Memory) }
    {
        let Open {
            first,
            mut ties,
            operator,
            ..
        } = self;
        ties.push(Tie { operator, operand })?;
        Ok((first, ties))
    }
}

impl OpenChains {
    /// None is open.
    pub(crate) fn new(alloc: Global) -> OpenChains
        ensures { open_chains result.chains ≡ [] }
    {
        OpenChains {
            chains: Items::new(alloc),
        }
    }

    /// Whether the last that was opened is of the level.
    fn last_is(&self, level: u8) -> bool
        ensures { result ≡ is_last level (open_chains self.now.chains) }
    {
        match self.chains.as_slice().last() {
            Some(last) => last.level == level,
            None => false,
        }
    }

    /// The chain of the level, if it is open.
    fn take(&mut self, level: u8) -> Option<Open>
        ensures taken { option_map open_chain result ≡ (take_open level (open_chains self.old.chains)).0 }
        ensures rest { open_chains self.new.chains ≡ (take_open level (open_chains self.old.chains)).1 }
    {
        if self.last_is(level) {
            self.chains.pop()
        } else {
            None
        }
    }

    /// The operands of the chain of the level, where this one is the last: it is the first where none is open.
    fn take_with(
        &mut self,
        alloc: Global,
        level: u8,
        operand: Expr,
    ) -> Result<(Expr, Vec<Tie>), Stop>
        ensures first { IfOk result (λ it. it.0 ≡ first_operand (take_open level (open_chains self.old.chains)).0 operand) }
        ensures ties { IfOk result (λ it. map tied it.1.items ≡ ties_with (take_open level (open_chains self.old.chains)).0 operand) }
        ensures rest { open_chains self.new.chains ≡ (take_open level (open_chains self.old.chains)).1 }
        ensures err { IfErr result (λ stop. stop ≡ Memory) }
    {
        match self.take(level) {
            Some(open) => open.with(operand),
            None => Ok((operand, Vec::new(alloc))),
        }
    }

    /// The chain of the level, which this operand ends; the operand itself where none is open.
    pub(crate) fn close(&mut self, alloc: Global, level: u8, operand: Expr) -> Result<Expr, Stop>
        ensures ok { IfOk result (λ e. e ≡ closed (take_open level (open_chains self.old.chains)).0 operand) }
        ensures rest { open_chains self.new.chains ≡ (take_open level (open_chains self.old.chains)).1 }
        ensures err { IfErr result (λ stop. stop ≡ Memory) }
    {
        let (first, ties) = self.take_with(alloc, level, operand)?;
        chain(alloc, first, ties)
    }

    /// An operator of the level stands behind the operand.
    pub(crate) fn go_on(
        &mut self,
        alloc: Global,
        level: u8,
        operand: Expr,
        operator: Operator,
    ) -> Result<(), Stop>
        ensures ok { OnOk result (open_chains self.new.chains ≡
            opened level (operator_of operator) (take_open level (open_chains self.old.chains)).0 operand ∷ (take_open level (open_chains self.old.chains)).1) }
        ensures err { IfErr result (λ stop. stop ≡ Memory) }
    {
        let (first, ties) = self.take_with(alloc, level, operand)?;
        self.chains.push(Open {
            level,
            first,
            ties,
            operator,
        })?;
        Ok(())
    }
}

/// The chain of these operands, of one level: the first itself where there are no others.
fn chain(alloc: Global, first: Expr, ties: Vec<Tie>) -> Result<Expr, Stop>
    ensures ok { IfOk result (λ e. e ≡ spec_chain first (map tied ties.items)) }
    ensures err { IfErr result (λ stop. stop ≡ Memory) }
{
    let operator = match ties.as_slice() {
        [tie, ..] => tie.operator,
        [] => return Ok(first),
    };
    let (line, token) = (first.line, first.token);
    let node = chain_node(alloc, operator, first, ties)?;
    Ok(Expr { line, token, node })
}

/// The node of a chain of operators like this one.
fn chain_node(alloc: Global, operator: Operator, first: Expr, ties: Vec<Tie>) -> Result<Node, Stop>
    ensures ok { IfOk result (λ node. node ≡ spec_chain_node (operator_of operator) first (map tied ties.items)) }
    ensures err { IfErr result (λ stop. stop ≡ Memory) }
{
    match operator {
        Operator::Of(_) => {
            let first = Boxed::new(alloc, first)?;
            Ok(Node::Chain(first, links(alloc, ties)?))
        }
        Operator::Join => {
            let mut operands = Items::new(alloc);
            operands.push(first)?;
            Ok(Node::Join(with_operands(operands, ties)?))
        }
        Operator::And => {
            let first = Boxed::new(alloc, first)?;
            Ok(Node::And(first, with_operands(Items::new(alloc), ties)?))
        }
        Operator::Or => {
            let first = Boxed::new(alloc, first)?;
            Ok(Node::Or(first, with_operands(Items::new(alloc), ties)?))
        }
    }
}

/// The operators of arithmetic and comparisons, with their operands.
fn links(alloc: Global, ties: Vec<Tie>) -> Result<Items<Link>, Stop>
    ensures ok { IfOk result (λ found. found ≡ spec_links (map tied ties.items)) }
    ensures err { IfErr result (λ stop. stop ≡ Memory) }
{
    let mut found = Items::new(alloc);
    for Tie { operator, operand } in ties {
        if let Operator::Of(op) = operator {
            found.push(Link { op, operand })?;
        }
    }
    Ok(found)
}

/// These, and behind them the operands of the ties.
fn with_operands(mut found: Items<Expr>, ties: Vec<Tie>) -> Result<Items<Expr>, Stop>
    ensures ok { IfOk result (λ all. all ≡ found ++ spec_operands (map tied ties.items)) }
    ensures err { IfErr result (λ stop. stop ≡ Memory) }
{
    for tie in ties {
        found.push(tie.operand)?;
    }
    Ok(found)
}
