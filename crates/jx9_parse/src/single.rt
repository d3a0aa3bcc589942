//! Single tokens.

use crate::keyword::{Keyword, keyword_number};
use crate::number::{sign_number, token_number};
use crate::parser::Parser;
use crate::spot::Spot;
use crate::stop::Stop;
use crate::text::copy_text;
use jx9_syntax::{Access, Sign, Step, Token, TokenKind};
use uq_value::Text;

impl<'a> Parser<'a> {
    ghost use Rattle.std.specs.Prelude.{◌≡◌, ◌∷◌, [], ◌<◌, length, IsTrue, IfOk};
    ghost use Rattle.jx9_syntax.specs.Grammar.{coded, sign_code, is_sign, var, any_name, name, member_name, step_sign};
    ghost use Rattle.jx9_parse.specs.Reading.{one, next_in};
    ghost use Rattle.jx9_parse.specs.Keywords.{keyword_code};
    ghost use Rattle.jx9_parse.specs.Answers.{Gives, state, it};
    ghost use Rattle.jx9_parse.specs.Spots.{spot_of, with_spot};
    ghost use Rattle.jx9_parse.specs.Expressions.{expr_begins};
    ghost use Rattle.jx9_parse.specs.Statements.{statement_begins};
    ghost use Rattle.jx9_parse.specs.Levels as levels;

    /// Whether the next token has this number, from 1 on.
    fn next_is(&self, number: u8) -> bool
        ensures { result ≡ next_in (number ∷ []) self.now.tokens.now }
    {
        match self.tokens {
            [next, ..] => token_number(next) == number,
            [] => false,
        }
    }

    /// Whether the next token is this sign.
    pub(crate) fn next_is_sign(&self, sign: Sign) -> bool
        ensures { result ≡ next_in (sign_code sign ∷ []) self.now.tokens.now }
    {
        self.next_is(sign_number(sign))
    }

    /// Whether the next token is this word.
    pub(crate) fn next_is_keyword(&self, keyword: Keyword) -> bool
        ensures { result ≡ next_in (keyword_code keyword ∷ []) self.now.tokens.now }
    {
        self.next_is(keyword_number(keyword))
    }

    /// The next token, where it has this number.
    fn coded(&mut self, number: u8) -> Result<Spot, Stop>
        ensures { Gives spot_of result self.new (one (coded number) (state self.old)) }
    {
        match self.tokens {
            [next, rest @ ..] => {
                if token_number(next) != number {
                    return Err(Stop::Dead);
                }
                let spot = Spot {
                    line: next.line,
                    token: self.number,
                };
                self.tokens = rest;
                self.number += 1;
                Ok(spot)
            }
            [] => Err(Stop::Dead),
        }
    }

    /// The sign.
    pub(crate) fn sign(&mut self, sign: Sign) -> Result<Spot, Stop>
        ensures { Gives spot_of result self.new (one (is_sign sign) (state self.old)) }
    {
        self.coded(sign_number(sign))
    }

    /// The sign behind what was found.
    pub(crate) fn sign_behind<T: Drop>(&mut self, found: T, sign: Sign) -> Result<(T, Spot), Stop>
        ensures kept { IfOk result (λ both. both.0 ≡ found) }
        ensures read { Gives (λ both. spot_of both.1) result self.new (one (is_sign sign) (state self.old)) }
    {
        let spot = self.sign(sign)?;
        Ok((found, spot))
    }

    /// The word.
    pub(crate) fn keyword(&mut self, keyword: Keyword) -> Result<Spot, Stop>
        ensures { Gives spot_of result self.new (one (coded (keyword_code keyword)) (state self.old)) }
    {
        self.coded(keyword_number(keyword))
    }

    /// The word behind what was found.
    pub(crate) fn keyword_behind<T: Drop>(
        &mut self,
        found: T,
        keyword: Keyword,
    ) -> Result<(T, Spot), Stop>
        ensures kept { IfOk result (λ both. both.0 ≡ found) }
        ensures read { Gives (λ both. spot_of both.1) result self.new (one (coded (keyword_code keyword)) (state self.old)) }
    {
        let spot = self.keyword(keyword)?;
        Ok((found, spot))
    }

    /// A variable, by its name.
    pub(crate) fn variable(&mut self) -> Result<(Text, Spot), Stop>
        ensures { Gives with_spot result self.new (one var (state self.old)) }
    {
        match self.tokens {
            [
                Token {
                    kind: TokenKind::Var(name),
                    line,
                },
                rest @ ..,
            ] => {
                let name = copy_text(self.alloc, name)?;
                let spot = Spot {
                    line: *line,
                    token: self.number,
                };
                self.tokens = rest;
                self.number += 1;
                Ok((name, spot))
            }
            _ => Err(Stop::Dead),
        }
    }

    /// Any name, also a reserved one.
    pub(crate) fn any_name(&mut self) -> Result<(Text, Spot), Stop>
        ensures { Gives with_spot result self.new (one any_name (state self.old)) }
    {
        match self.tokens {
            [
                Token {
                    kind: TokenKind::Name(name),
                    line,
                },
                rest @ ..,
            ] => {
                let name = copy_text(self.alloc, name)?;
                let spot = Spot {
                    line: *line,
                    token: self.number,
                };
                self.tokens = rest;
                self.number += 1;
                Ok((name, spot))
            }
            _ => Err(Stop::Dead),
        }
    }

    /// A name that is not reserved.
    pub(crate) fn name(&mut self) -> Result<(Text, Spot), Stop>
        ensures { Gives with_spot result self.new (one name (state self.old)) }
    {
        match self.tokens {
            [next, ..] => {
                if token_number(next) != 8 {
                    return Err(Stop::Dead);
                }
                self.any_name()
            }
            [] => Err(Stop::Dead),
        }
    }

    /// The name of a member: any name, or a text that names no variable.
    pub(crate) fn member_name(&mut self) -> Result<(Text, Spot), Stop>
        ensures { Gives with_spot result self.new (one member_name (state self.old)) }
    {
        match self.tokens {
            [
                Token {
                    kind: TokenKind::Name(name) | TokenKind::Text(name),
                    line,
                },
                rest @ ..,
            ] => {
                let name = copy_text(self.alloc, name)?;
                let spot = Spot {
                    line: *line,
                    token: self.number,
                };
                self.tokens = rest;
                self.number += 1;
                Ok((name, spot))
            }
            _ => Err(Stop::Dead),
        }
    }

    pub(crate) fn next_is_variable(&self) -> bool
        ensures { result ≡ next_in (17 ∷ []) self.now.tokens.now }
    {
        self.next_is(17)
    }

    /// Whether the next token is a name that is not reserved.
    pub(crate) fn next_is_name(&self) -> bool
        ensures { result ≡ next_in (8 ∷ []) self.now.tokens.now }
    {
        self.next_is(8)
    }

    /// `.` or `[`
    pub(crate) fn next_is_step(&self) -> bool
        ensures { result ≡ next_in (11 ∷ 36 ∷ []) self.now.tokens.now }
    {
        match self.tokens {
            [next, ..] => matches!(token_number(next), 11 | 36),
            [] => false,
        }
    }

    /// `++` or `--`
    pub(crate) fn next_is_step_sign(&self) -> bool
        ensures { result ≡ next_in (15 ∷ 16 ∷ []) self.now.tokens.now }
    {
        match self.tokens {
            [next, ..] => matches!(token_number(next), 15 | 16),
            [] => false,
        }
    }

    /// `+=` and its kin
    pub(crate) fn next_is_change(&self) -> bool
        ensures { result ≡ next_in (41 ∷ 42 ∷ 43 ∷ 44 ∷ 45 ∷ 46 ∷ []) self.now.tokens.now }
    {
        match self.tokens {
            [next, ..] => matches!(token_number(next), 41 | 42 | 43 | 44 | 45 | 46),
            [] => false,
        }
    }

    /// Whether an expression begins with the next token.
    pub(crate) fn begins_expr(&self) -> bool
        ensures { result ≡ next_in expr_begins self.now.tokens.now }
    {
        match self.tokens {
            [next, ..] => matches!(
                token_number(next),
                1 | 2 | 3 | 4 | 5 | 6 | 7 | 8 | 9 | 10 | 11 | 12 | 13 | 14 | 15 | 16 | 17
            ),
            [] => false,
        }
    }

    /// Whether a statement begins with the next token.
    pub(crate) fn begins_statement(&self) -> bool
        ensures { result ≡ next_in statement_begins self.now.tokens.now }
    {
        match self.tokens {
            [next, ..] => matches!(
                token_number(next),
                1 | 2
                    | 3
                    | 4
                    | 5
                    | 6
                    | 7
                    | 8
                    | 9
                    | 10
                    | 11
                    | 12
                    | 13
                    | 14
                    | 15
                    | 16
                    | 17
                    | 20
                    | 21
                    | 22
                    | 23
                    | 24
                    | 25
                    | 26
                    | 27
                    | 28
            ),
            [] => false,
        }
    }

    /// `.name`
    pub(crate) fn member_access(&mut self) -> Result<Access, Stop>
        ensures { Gives it result self.new (levels.member 0 (state self.old)) }
    {
        self.sign(Sign::Dot)?;
        let (name, _) = self.any_name()?;
        Ok(Access::Member(name))
    }

    /// `++` or `--`, by what they are there.
    pub(crate) fn step_sign(
        &mut self,
        increment: Step,
        decrement: Step,
    ) -> Result<(Step, Spot), Stop>
        ensures { Gives with_spot result self.new (one (step_sign increment decrement) (state self.old)) }
    {
        if self.next_is_sign(Sign::Increment) {
            let spot = self.sign(Sign::Increment)?;
            return Ok((increment, spot));
        }
        let spot = self.sign(Sign::Decrement)?;
        Ok((decrement, spot))
    }
}
