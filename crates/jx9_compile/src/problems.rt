//! What keeps a program from being compiled, and which of that comes first in order of text.

ghost use Rattle.std.specs.Prelude.{◌≡◌, MatchOption, false};
ghost use Rattle.jx9_compile.specs.Problems.{Adds, ExprProblem, IsClean, IsDefinition, IsFirst, IsIn, IsInBranches, IsInLinks, IsInOption, IsInStatements, IsProblemOf, StatementProblem, is_before as spec_is_before, precedes as spec_precedes, problem, rank as spec_rank};
ghost use Rattle.jx9_compile.specs.declared.error.CompileKind.TheVariants.{NotBuilt, BreakOutside};

use crate::error::CompileKind;
use jx9_syntax::{Branch, Expr, Kind, Link, Named, Node, Program, Statement};
use sqlite_items::Boxed;

/// What is wrong with the tree whose first token has this number and this line.
#[derive(Clone, Copy, Debug, PartialEq, Eq)]
pub(crate) struct Problem {
    pub(crate) token: u32,
    pub(crate) kind: CompileKind,
    pub(crate) line: u32,
}

impl Problem {
    /// Whether it comes before another one in order of text. Two at one token, which no text has, are told apart by their
    /// kinds, and two of one kind by their lines.
    fn precedes(&self, other: &Problem) -> bool
        ensures { result ≡ spec_precedes self.now other.now }
    {
        if self.token != other.token {
            return self.token < other.token;
        }
        if rank(self.kind) != rank(other.kind) {
            return rank(self.kind) < rank(other.kind);
        }
        self.line < other.line
    }
}

/// The kind's place among the kinds.
fn rank(kind: CompileKind) -> u8
    ensures { result ≡ spec_rank kind }
{
    match kind {
        CompileKind::UnknownFunction => 0,
        CompileKind::DefinedTwice => 1,
        CompileKind::BreakOutside => 2,
        CompileKind::NotBuilt => 3,
    }
}

/// The program's first problem in order of text, None where it has none.
pub(crate) fn first_problem(p: &Program) -> Option<Problem>
    ensures { MatchOption result (IsClean p.now) (IsFirst p.now) }
{
    first_in(p.functions.as_slice(), p.statements.as_slice())
}

/// The first problem of these definitions and of these statements, which stand in no loop.
pub(crate) fn first_in(definitions: &[Named], statements: &[Statement]) -> Option<Problem>
    ensures { Adds (IsProblemOf definitions.now statements.now) None result }
{
    let mut search = Search { first: None };
    search.definitions(definitions);
    search.statements(false, statements);
    search.first
}

/// The first problem so far.
#[derive(Drop)]
struct Search {
    first: Option<Problem>,
}

impl Search {
    /// Whether a problem stands before the one that is kept.
    fn is_before(&self, problem: &Problem) -> bool
        ensures { result ≡ spec_is_before problem.now self.now.first }
    {
        match &self.first {
            Some(known) => problem.precedes(known),
            None => true,
        }
    }

    /// Keeps the problem that comes first.
    fn note(&mut self, token: u32, kind: CompileKind, line: u32)
        ensures { Adds (λ q. q ≡ problem token kind line) self.old.first self.new.first }
    {
        let problem = Problem { token, kind, line };
        if !self.is_before(&problem) {
            return;
        }
        self.first = Some(problem);
    }

    /// Notes a tree that is not built.
    fn built(&mut self, is_built: bool, token: u32, line: u32)
        ensures { Adds (λ q. (is_built ≡ false) × (q ≡ problem token NotBuilt line)) self.old.first self.new.first }
    {
        if is_built {
            return;
        }
        self.note(token, CompileKind::NotBuilt, line);
    }

    /// Notes a `break` or `continue` in no loop.
    fn looped(&mut self, looped: bool, token: u32, line: u32)
        ensures { Adds (λ q. (looped ≡ false) × (q ≡ problem token BreakOutside line)) self.old.first self.new.first }
    {
        if looped {
            return;
        }
        self.note(token, CompileKind::BreakOutside, line);
    }

    /// No definition of a function is built.
    fn definitions(&mut self, definitions: &[Named])
        ensures { Adds (IsDefinition definitions.now) self.old.first self.new.first }
    {
        for definition in definitions {
            self.note(definition.token, CompileKind::NotBuilt, definition.line);
        }
    }

    #[cycle(search_expr)]
    fn expr(&mut self, e: &Expr)
        ensures { Adds (ExprProblem e.now) self.old.first self.new.first }
    {
        match &e.node {
            Node::Literal(_) => {}
            Node::Mixed(_) => {}
            Node::Var(_, steps) => self.built(steps.is_empty(), e.token, e.line),
            Node::Group(inner) => self.expr(inner.get()),
            Node::Negate(inner) => self.expr(inner.get()),
            Node::Not(inner) => self.expr(inner.get()),
            Node::Step(_, place) => self.built(place.steps.is_empty(), e.token, e.line),
            Node::Or(first, more) => {
                self.expr(first.get());
                self.exprs(more.as_slice());
            }
            Node::And(first, more) => {
                self.expr(first.get());
                self.exprs(more.as_slice());
            }
            Node::Join(operands) => self.exprs(operands.as_slice()),
            Node::Chain(first, links) => {
                self.expr(first.get());
                self.links(links.as_slice());
            }
            Node::Cond(test, first, second) => {
                self.expr(test.get());
                self.expr(first.get());
                self.expr(second.get());
            }
            Node::Assign(place, right) => {
                self.built(place.steps.is_empty(), e.token, e.line);
                self.expr(right.get());
            }
            Node::Change(place, _, right) => {
                self.built(place.steps.is_empty(), e.token, e.line);
                self.expr(right.get());
            }
            _ => self.built(false, e.token, e.line),
        }
    }

    #[cycle(search_expr)]
    fn exprs(&mut self, expressions: &[Expr])
        ensures { Adds (IsIn expressions.now) self.old.first self.new.first }
    {
        for e in expressions {
            self.expr(e);
        }
    }

    #[cycle(search_expr)]
    fn links(&mut self, links: &[Link])
        ensures { Adds (IsInLinks links.now) self.old.first self.new.first }
    {
        for link in links {
            self.expr(&link.operand);
        }
    }

    fn option(&mut self, e: &Option<Boxed<Expr>>)
        ensures { Adds (IsInOption e.now) self.old.first self.new.first }
    {
        match e {
            Some(e) => self.expr(e.get()),
            None => {}
        }
    }

    #[cycle(search_statement)]
    fn statement(&mut self, looped: bool, t: &Statement)
        ensures { Adds (StatementProblem looped t.now) self.old.first self.new.first }
    {
        match &t.kind {
            Kind::Block(statements) => self.statements(looped, statements.as_slice()),
            Kind::Print(values) => self.exprs(values.as_slice()),
            Kind::Expr(e) => self.expr(e),
            Kind::If(branches, other) => {
                self.branches(looped, branches.as_slice());
                match other {
                    None => {}
                    Some(other) => self.statement(looped, other.get()),
                }
            }
            Kind::While(test, body) => {
                self.expr(test);
                self.statement(true, body.get());
            }
            Kind::For(first, test, last, body) => {
                self.exprs(first.as_slice());
                self.option(test);
                self.exprs(last.as_slice());
                self.statement(true, body.get());
            }
            Kind::Return(value) => self.option(value),
            Kind::Break => self.looped(looped, t.token, t.line),
            Kind::Continue => self.looped(looped, t.token, t.line),
            _ => self.built(false, t.token, t.line),
        }
    }

    #[cycle(search_statement)]
    fn statements(&mut self, looped: bool, statements: &[Statement])
        ensures { Adds (IsInStatements looped statements.now) self.old.first self.new.first }
    {
        for statement in statements {
            self.statement(looped, statement);
        }
    }

    #[cycle(search_statement)]
    fn branches(&mut self, looped: bool, branches: &[Branch])
        ensures { Adds (IsInBranches looped branches.now) self.old.first self.new.first }
    {
        for branch in branches {
            self.expr(&branch.test);
            self.statement(looped, &branch.body);
        }
    }
}
