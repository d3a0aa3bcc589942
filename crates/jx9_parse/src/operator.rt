//! Operators of chains and of assignments, and literals.

ghost use Rattle.std.specs.Prelude.{◌≡◌, ◌∷◌, [], ◌≤◌, if◌then◌else◌, Some, None, IfOk, IfErr};
ghost use Rattle.std.specs.Option.{option_map};
ghost use Rattle.jx9_syntax.specs.Grammar.{at, spot, coded, operator, operator_of as spec_operator_of, change_sign, change_of as spec_change_of, literal_or_mixed, word_literal};
ghost use Rattle.jx9_parse.specs.Answers.{Gives, state, it};
ghost use Rattle.jx9_parse.specs.Chains.{operators, operator_of as spec_operator};
ghost use Rattle.jx9_parse.specs.Expressions.{taken_as};
ghost use Rattle.jx9_parse.specs.Reading.{member, next_in, one, map_read};
ghost use Rattle.jx9_parse.specs.Spots.{spot_of};
ghost use Rattle.jx9_parse.specs.declared.stop.Stop.TheVariants.{Memory};

use crate::chain::Operator;
use crate::number::token_number;
use crate::parser::Parser;
use crate::spot::Spot;
use crate::stop::Stop;
use crate::text::{copy_parts, copy_text};
use jx9_syntax::{Binary, Change, Expr, Literal, Node, Token, TokenKind};
use std::alloc::Global;
use uq_value::Text;

/// The operator of the level that has this number. Level 1 is `* / %`, then `+ -`, `..`, `< <= > >=`, `== != === !==`, `&&`,
/// `||`.
fn operator_of(level: u8, number: u8) -> Option<Operator>
    ensures { option_map spec_operator result ≡ spec_operator_of level number }
{
    if level == 1 {
        product_of(number)
    } else if level == 2 {
        sum_of(number)
    } else if level == 3 {
        only_if(number == 54, Operator::Join)
    } else if level == 4 {
        comparison_of(number)
    } else if level == 5 {
        equality_of(number)
    } else if level == 6 {
        only_if(number == 63, Operator::And)
    } else if level == 7 {
        only_if(number == 64, Operator::Or)
    } else {
        None
    }
}

fn only_if(holds: bool, operator: Operator) -> Option<Operator>
    ensures { option_map spec_operator result ≡ (if holds then Some (spec_operator operator) else None) }
{
    if holds { Some(operator) } else { None }
}

fn product_of(number: u8) -> Option<Operator>
    ensures { option_map spec_operator result ≡ spec_operator_of 1 number }
{
    if number == 50 {
        Some(Operator::Of(Binary::Multiply))
    } else if number == 51 {
        Some(Operator::Of(Binary::Divide))
    } else if number == 52 {
        Some(Operator::Of(Binary::Remainder))
    } else {
        None
    }
}

fn sum_of(number: u8) -> Option<Operator>
    ensures { option_map spec_operator result ≡ spec_operator_of 2 number }
{
    if number == 53 {
        Some(Operator::Of(Binary::Add))
    } else if number == 13 {
        Some(Operator::Of(Binary::Subtract))
    } else {
        None
    }
}

fn comparison_of(number: u8) -> Option<Operator>
    ensures { option_map spec_operator result ≡ spec_operator_of 4 number }
{
    if number == 55 {
        Some(Operator::Of(Binary::Less))
    } else if number == 56 {
        Some(Operator::Of(Binary::LessOrEqual))
    } else if number == 57 {
        Some(Operator::Of(Binary::Greater))
    } else if number == 58 {
        Some(Operator::Of(Binary::GreaterOrEqual))
    } else {
        None
    }
}

fn equality_of(number: u8) -> Option<Operator>
    ensures { option_map spec_operator result ≡ spec_operator_of 5 number }
{
    if number == 59 {
        Some(Operator::Of(Binary::Equal))
    } else if number == 60 {
        Some(Operator::Of(Binary::NotEqual))
    } else if number == 61 {
        Some(Operator::Of(Binary::Same))
    } else if number == 62 {
        Some(Operator::Of(Binary::NotSame))
    } else {
        None
    }
}

/// Whether an operator of the level has this number.
fn is_operator(level: u8, number: u8) -> bool
    requires { level ≤ 7 }
    ensures { result ≡ member number (operators level) }
{
    if level == 1 {
        matches!(number, 50 | 51 | 52)
    } else if level == 2 {
        matches!(number, 53 | 13)
    } else if level == 3 {
        number == 54
    } else if level == 4 {
        matches!(number, 55 | 56 | 57 | 58)
    } else if level == 5 {
        matches!(number, 59 | 60 | 61 | 62)
    } else if level == 6 {
        number == 63
    } else if level == 7 {
        number == 64
    } else {
        false
    }
}

/// What an operator before the `=` of an assignment changes, by a token's number.
fn change_of(number: u8) -> Option<Change>
    ensures { result ≡ spec_change_of number }
{
    if number == 41 {
        Some(Change::By(Binary::Add))
    } else if number == 42 {
        Some(Change::By(Binary::Subtract))
    } else if number == 43 {
        Some(Change::By(Binary::Multiply))
    } else if number == 44 {
        Some(Change::By(Binary::Divide))
    } else if number == 45 {
        Some(Change::By(Binary::Remainder))
    } else if number == 46 {
        Some(Change::Join)
    } else {
        None
    }
}

/// The text of one line feed.
fn line_feed(alloc: Global) -> Result<Text, Stop>
    ensures ok { IfOk result (λ text. text ≡ 0x0a ∷ []) }
    ensures err { IfErr result (λ stop. stop ≡ Memory) }
{
    match Text::new(alloc, &[b'\n']) {
        Ok(text) => Ok(text),
        Err(_) => Err(Stop::Memory),
    }
}

impl<'a> Parser<'a> {
    /// Whether the next token is an operator of the level.
    pub(crate) fn next_is_operator(&self, level: u8) -> bool
        requires { level ≤ 7 }
        ensures { result ≡ next_in (operators level) self.now.tokens.now }
    {
        match self.tokens {
            [next, ..] => is_operator(level, token_number(next)),
            [] => false,
        }
    }

    /// An operator of the level.
    pub(crate) fn operator(&mut self, level: u8) -> Result<Operator, Stop>
        ensures { Gives spec_operator result self.new (one (operator level) (state self.old)) }
    {
        match self.tokens {
            [next, rest @ ..] => match operator_of(level, token_number(next)) {
                Some(operator) => {
                    self.tokens = rest;
                    self.number += 1;
                    Ok(operator)
                }
                None => Err(Stop::Dead),
            },
            [] => Err(Stop::Dead),
        }
    }

    /// An operator and the `=` of an assignment.
    pub(crate) fn change_sign(&mut self) -> Result<Change, Stop>
        ensures { Gives it result self.new (one change_sign (state self.old)) }
    {
        match self.tokens {
            [next, rest @ ..] => match change_of(token_number(next)) {
                Some(change) => {
                    self.tokens = rest;
                    self.number += 1;
                    Ok(change)
                }
                None => Err(Stop::Dead),
            },
            [] => Err(Stop::Dead),
        }
    }

    /// The next token, which is there, as this node.
    fn taken(&mut self, node: Node) -> Result<Expr, Stop>
        ensures { Gives it result self.new (one (taken_as node) (state self.old)) }
    {
        match self.tokens {
            [next, rest @ ..] => {
                let (line, token) = (next.line, self.number);
                self.tokens = rest;
                self.number += 1;
                Ok(Expr { line, token, node })
            }
            [] => Err(Stop::Dead),
        }
    }

    /// A number, a text, or the word of a literal.
    pub(crate) fn literal(&mut self) -> Result<Expr, Stop>
        ensures { Gives it result self.new (one literal_or_mixed (state self.old)) }
    {
        match self.tokens {
            [
                Token {
                    kind: TokenKind::Int(number),
                    ..
                },
                ..
            ] => self.taken(Node::Literal(Literal::Int(*number))),
            [
                Token {
                    kind: TokenKind::Text(text),
                    ..
                },
                ..
            ] => {
                let text = copy_text(self.alloc, text)?;
                self.taken(Node::Literal(Literal::Text(text)))
            }
            [
                Token {
                    kind: TokenKind::Mixed(parts),
                    ..
                },
                ..
            ] => {
                let parts = copy_parts(self.alloc, parts)?;
                self.taken(Node::Mixed(parts))
            }
            [_, ..] => self.word_literal(),
            [] => Err(Stop::Dead),
        }
    }

    /// `null`, `true`, `false` or `JX9_EOL`
    fn word_literal(&mut self) -> Result<Expr, Stop>
        ensures { Gives it result self.new (one word_literal (state self.old)) }
    {
        match self.tokens {
            [next, ..] => {
                let number = token_number(next);
                if number == 4 {
                    self.taken(Node::Literal(Literal::Null))
                } else if number == 5 {
                    self.taken(Node::Literal(Literal::Bool(true)))
                } else if number == 6 {
                    self.taken(Node::Literal(Literal::Bool(false)))
                } else if number == 7 {
                    let text = line_feed(self.alloc)?;
                    self.taken(Node::Literal(Literal::Text(text)))
                } else {
                    Err(Stop::Dead)
                }
            }
            [] => Err(Stop::Dead),
        }
    }
}
