//! A law of the texts of scripts, the contract of a call that does nothing.
ghost use Rattle.uq_shell.specs.Verdicts.{HasOneVerdict, HasRightJudge};
ghost use Rattle.uq_value.specs.Data.{Bytes};

use jx9_compile::one_outcome;
use jx9_lex::lists_end;
use jx9_parse::one_program;
use jx9_syntax::one_list;

/// Each text has one verdict, and no text has two: lexer, parser and compiler say one thing of it. So there is a right
/// judge of texts, and what a run means is the same for each.
pub fn texts_have_one_verdict()
    ensures one { (text : Bytes) → HasOneVerdict text }
    ensures judge { HasRightJudge }
{
    one_list();
    lists_end();
    one_program();
    one_outcome();
}
