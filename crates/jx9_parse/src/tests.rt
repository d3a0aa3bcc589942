//! Tables of tokens and their trees, or the token that is dead.

ghost use Rattle.std.specs.Prelude.{◌≡◌, true};
ghost use Rattle.jx9_syntax.specs.Program.{IsTokens};

use crate::number::token_number;
use crate::*;
use jx9_syntax::*;
use sqlite_items::Items;
use std::alloc::Global;
use std::process::Abort;
use uq_value::Text;

// ---- tokens

fn put(rt: &impl Abort, out: &mut Vec<u8>, bytes: &[u8]) {
    out.extend_from_slice(bytes).expect(rt, "memory");
}

fn text(rt: &impl Abort, alloc: Global, bytes: &[u8]) -> Text {
    Text::new(alloc, bytes).expect(rt, "memory")
}

/// The sign of the spelling.
fn sign_of(word: &[u8]) -> Option<Sign> {
    let signs = [
        ("+", Sign::Plus),
        ("-", Sign::Minus),
        ("*", Sign::Times),
        ("/", Sign::Divide),
        ("%", Sign::Remainder),
        ("..", Sign::Join),
        (".", Sign::Dot),
        ("=", Sign::Assign),
        ("+=", Sign::PlusAssign),
        ("-=", Sign::MinusAssign),
        ("*=", Sign::TimesAssign),
        ("/=", Sign::DivideAssign),
        ("%=", Sign::RemainderAssign),
        ("..=", Sign::JoinAssign),
        ("==", Sign::Equal),
        ("!=", Sign::NotEqual),
        ("===", Sign::Same),
        ("!==", Sign::NotSame),
        ("<", Sign::Less),
        ("<=", Sign::LessOrEqual),
        (">", Sign::Greater),
        (">=", Sign::GreaterOrEqual),
        ("&&", Sign::And),
        ("||", Sign::Or),
        ("!", Sign::Not),
        ("++", Sign::Increment),
        ("--", Sign::Decrement),
        ("?", Sign::Question),
        (":", Sign::Colon),
        ("(", Sign::OpenParen),
        (")", Sign::CloseParen),
        ("[", Sign::OpenBracket),
        ("]", Sign::CloseBracket),
        ("{", Sign::OpenBrace),
        ("}", Sign::CloseBrace),
        (",", Sign::Comma),
        (";", Sign::Semicolon),
    ];
    for (spelling, sign) in signs {
        if spelling.as_bytes() == word {
            return Some(sign);
        }
    }
    None
}

/// The token of a word: a sign, a digit, a name, `$` and a name, `'` and a text, or `"` and the name of the one variable of a text.
fn kind_of(rt: &impl Abort, alloc: Global, word: &[u8]) -> TokenKind {
    if let Some(sign) = sign_of(word) {
        return TokenKind::Sign(sign);
    }
    match word {
        [b'$', name @ ..] => TokenKind::Var(text(rt, alloc, name)),
        [b'\'', bytes @ ..] => TokenKind::Text(text(rt, alloc, bytes)),
        [b'"', name @ ..] => {
            let mut parts = Vec::new(alloc);
            parts
                .push(Part::Var(text(rt, alloc, name)))
                .expect(rt, "memory");
            TokenKind::Mixed(Parts::from_vec(parts))
        }
        [digit @ b'0'..=b'9'] => TokenKind::Int((*digit - b'0') as i64),
        _ => TokenKind::Name(text(rt, alloc, word)),
    }
}

/// The words that have blanks between them as tokens of line 7, at most so many, and the end, of line 8. The token that has
/// the number `changed` is `switch`.
fn tokens_in(
    rt: &impl Abort,
    alloc: Global,
    words: &[u8],
    most: usize,
    changed: usize,
) -> Vec<Token> {
    let mut tokens = Vec::new(alloc);
    for word in words.split(|byte| *byte == b' ') {
        if !word.is_empty() && tokens.len() < most {
            let word = if tokens.len() == changed {
                b"switch"
            } else {
                word
            };
            let kind = kind_of(rt, alloc, word);
            tokens.push(Token { kind, line: 7 }).expect(rt, "memory");
        }
    }
    let end = Token {
        kind: TokenKind::End,
        line: 8,
    };
    tokens.push(end).expect(rt, "memory");
    tokens
}

/// Whether the end stands last, and nowhere else.
fn has_one_end(tokens: &[Token]) -> bool
    ensures { result ≡ true → IsTokens tokens.now }
{
    match tokens {
        [first, rest @ ..] => {
            if token_number(first) == 0 {
                return rest.is_empty();
            }
            has_one_end(rest)
        }
        [] => false,
    }
}

/// What `parse` answers.
fn parsed(rt: &impl Abort, alloc: Global, tokens: &[Token]) -> Result<Program, SyntaxFault> {
    assert!(rt; has_one_end(tokens));
    assert!(rt; tokens.len() < 0x1_0000_0000);
    parse(alloc, tokens)
}

/// The number of the token that is dead, if one is.
fn dead_in(rt: &impl Abort, alloc: Global, tokens: &[Token]) -> Option<usize> {
    match parsed(rt, alloc, tokens) {
        Ok(_) => None,
        Err(SyntaxFault::Dead { token, .. }) => Some(token as usize),
        Err(SyntaxFault::Memory) => Some(usize::MAX),
    }
}

// ---- trees

/// A part of what is to be shown.
#[derive(Clone, Copy)]
enum Piece<'p> {
    Word(&'p [u8]),
    Number(i64),
    Expr(&'p Expr),
    Statement(&'p Statement),
}

/// Shows trees without recursion.
#[derive(Drop)]
struct Printer<'r, 'p, A: Abort> {
    rt: &'r A,
    alloc: Global,
    /// What was shown.
    out: Vec<u8>,
    /// What is still to be shown. The next piece stands last.
    left: Vec<Piece<'p>>,
    /// The pieces of the one that is shown, in order.
    pieces: Vec<Piece<'p>>,
}

fn spelling(op: Binary) -> &'static str {
    match op {
        Binary::Add => " + ",
        Binary::Subtract => " - ",
        Binary::Multiply => " * ",
        Binary::Divide => " / ",
        Binary::Remainder => " % ",
        Binary::Equal => " == ",
        Binary::NotEqual => " != ",
        Binary::Same => " === ",
        Binary::NotSame => " !== ",
        Binary::Less => " < ",
        Binary::LessOrEqual => " <= ",
        Binary::Greater => " > ",
        Binary::GreaterOrEqual => " >= ",
    }
}

impl<'r, 'p, A: Abort> Printer<'r, 'p, A> {
    fn put(&mut self, piece: Piece<'p>) {
        self.pieces.push(piece).expect(self.rt, "memory");
    }

    fn word(&mut self, word: &'p str) {
        self.put(Piece::Word(word.as_bytes()));
    }

    fn text(&mut self, text: &'p Text) {
        self.put(Piece::Word(text.bytes()));
    }

    fn expr(&mut self, expr: &'p Expr) {
        self.put(Piece::Expr(expr));
    }

    /// The word before each expression.
    fn exprs(&mut self, word: &'p str, exprs: &'p Items<Expr>) {
        for expr in exprs.as_slice() {
            self.word(word);
            self.expr(expr);
        }
    }

    fn steps(&mut self, steps: &'p Items<Access>) {
        for step in steps.as_slice() {
            match step {
                Access::Member(name) => {
                    self.word(".");
                    self.text(name);
                }
                Access::Index(index) => {
                    self.word("[");
                    self.expr(index);
                    self.word("]");
                }
            }
        }
    }

    fn place(&mut self, name: &'p Text, steps: &'p Items<Access>) {
        self.word("$");
        self.text(name);
        self.steps(steps);
    }

    fn literal(&mut self, literal: &'p Literal) {
        match literal {
            Literal::Null => self.word("null"),
            Literal::Bool(true) => self.word("true"),
            Literal::Bool(false) => self.word("false"),
            Literal::Int(n) => self.put(Piece::Number(*n)),
            Literal::Text(bytes) => {
                self.word("'");
                self.text(bytes);
            }
        }
    }

    fn mixed(&mut self, parts: &'p Parts) {
        for part in parts.as_slice() {
            self.word("\"");
            match part {
                Part::Text(text) => self.text(text),
                Part::Var(name) => self.text(name),
            }
        }
    }

    fn members(&mut self, members: &'p Items<Entry>) {
        for member in members.as_slice() {
            self.text(&member.name);
            self.word(":");
            self.expr(&member.value);
            self.word(",");
        }
    }

    fn links(&mut self, links: &'p Items<Link>) {
        for link in links.as_slice() {
            self.word(spelling(link.op));
            self.expr(&link.operand);
        }
    }

    fn step(&mut self, step: Step, place: &'p Place) {
        match step {
            Step::IncrementFirst => self.word("++"),
            Step::DecrementFirst => self.word("--"),
            Step::IncrementAfter | Step::DecrementAfter => {}
        }
        self.place(&place.name, &place.steps);
        match step {
            Step::IncrementAfter => self.word("++"),
            Step::DecrementAfter => self.word("--"),
            Step::IncrementFirst | Step::DecrementFirst => {}
        }
    }

    /// What is no operator.
    fn primary(&mut self, node: &'p Node) {
        match node {
            Node::Literal(literal) => self.literal(literal),
            Node::Mixed(parts) => self.mixed(parts),
            Node::Var(name, steps) => self.place(name, steps),
            Node::Path(first, steps) => {
                self.expr(first.get());
                self.steps(steps);
            }
            Node::Group(inner) => {
                self.word("group ");
                self.expr(inner.get());
            }
            Node::List(items) => {
                self.word("list");
                self.exprs(" ", items);
            }
            Node::Object(members) => {
                self.word("object ");
                self.members(members);
            }
            Node::Call(name, items) => {
                self.word("call ");
                self.text(name);
                self.exprs(" ", items);
            }
            Node::VarCall(name, items) => {
                self.word("call $");
                self.text(name);
                self.exprs(" ", items);
            }
            Node::Lambda(number) => {
                self.word("lambda");
                self.put(Piece::Number(*number as i64));
            }
            _ => self.operator(node),
        }
    }

    fn operator(&mut self, node: &'p Node) {
        match node {
            Node::Negate(inner) => {
                self.word("-");
                self.expr(inner.get());
            }
            Node::Not(inner) => {
                self.word("!");
                self.expr(inner.get());
            }
            Node::Step(step, place) => self.step(*step, place),
            Node::Or(first, others) => {
                self.expr(first.get());
                self.exprs(" || ", others);
            }
            Node::And(first, others) => {
                self.expr(first.get());
                self.exprs(" && ", others);
            }
            Node::Join(items) => {
                self.word("join");
                self.exprs(" ", items);
            }
            Node::Chain(first, links) => {
                self.expr(first.get());
                self.links(links);
            }
            Node::Cond(test, first, second) => {
                self.expr(test.get());
                self.word(" ? ");
                self.expr(first.get());
                self.word(" : ");
                self.expr(second.get());
            }
            _ => self.assignment(node),
        }
    }

    fn assignment(&mut self, node: &'p Node) {
        match node {
            Node::Assign(place, value) => {
                self.place(&place.name, &place.steps);
                self.word(" = ");
                self.expr(value.get());
            }
            Node::Append(place, value) => {
                self.place(&place.name, &place.steps);
                self.word("[] = ");
                self.expr(value.get());
            }
            Node::Change(place, change, value) => {
                self.place(&place.name, &place.steps);
                self.word(" change");
                self.word(match change {
                    Change::By(op) => spelling(*op),
                    Change::Join => " .. ",
                });
                self.expr(value.get());
            }
            _ => {}
        }
    }

    fn statements(&mut self, statements: &'p Items<Statement>) {
        for statement in statements.as_slice() {
            self.put(Piece::Statement(statement));
        }
    }

    fn statement(&mut self, statement: &'p Statement) {
        match &statement.kind {
            Kind::Empty => self.word(";"),
            Kind::Block(inner) => {
                self.word("{");
                self.statements(inner);
                self.word("}");
            }
            Kind::Print(items) => {
                self.word("print");
                self.exprs(" ", items);
                self.word(";");
            }
            Kind::Expr(inner) => {
                self.expr(inner);
                self.word(";");
            }
            Kind::Return(value) => {
                self.word("return ");
                if let Some(value) = value {
                    self.expr(value.get());
                }
                self.word(";");
            }
            Kind::Break => self.word("break;"),
            Kind::Continue => self.word("continue;"),
            _ => self.guarded(statement),
        }
    }

    /// A statement with others in it that is no block.
    fn guarded(&mut self, statement: &'p Statement) {
        match &statement.kind {
            Kind::If(branches, other) => {
                for branch in branches.as_slice() {
                    self.word("if ");
                    self.expr(&branch.test);
                    self.word(" ");
                    self.put(Piece::Statement(&branch.body));
                }
                if let Some(other) = other {
                    self.word("else ");
                    self.put(Piece::Statement(other.get()));
                }
                self.word("fi");
            }
            Kind::While(test, body) => {
                self.word("while ");
                self.expr(test);
                self.word(" ");
                self.put(Piece::Statement(body.get()));
            }
            Kind::For(first, test, last, body) => {
                self.word("for");
                self.exprs(" ", first);
                self.word(";");
                if let Some(test) = test {
                    self.expr(test.get());
                }
                self.word(";");
                self.exprs(" ", last);
                self.word(" ");
                self.put(Piece::Statement(body.get()));
            }
            Kind::Foreach(over, key, value, body) => {
                self.word("foreach ");
                self.expr(over);
                self.word(" ");
                if let Some(key) = key {
                    self.text(key);
                    self.word(",");
                }
                self.text(value);
                self.word(" ");
                self.put(Piece::Statement(body.get()));
            }
            _ => {}
        }
    }

    fn function(&mut self, function: &'p Function) {
        self.word("(");
        for param in function.params.as_slice() {
            self.text(param);
            self.word(",");
        }
        self.word(")");
        self.put(Piece::Statement(&function.body));
    }

    fn program(&mut self, program: &'p Program) {
        for named in program.functions.as_slice() {
            self.text(&named.name);
            self.put(Piece::Number(named.token as i64));
            self.function(&named.function);
        }
        for lambda in program.lambdas.as_slice() {
            self.word("lambda");
            self.function(lambda);
        }
        self.statements(&program.statements);
    }

    /// Shows a piece, or puts those of which it is made aside: of an expression its node, `@` and the number of its first token.
    fn show(&mut self, piece: Piece<'p>) {
        match piece {
            Piece::Word(bytes) => put(self.rt, &mut self.out, bytes),
            Piece::Number(number) => {
                let digits = format!(in self.alloc; "{number}").expect(self.rt, "memory");
                put(self.rt, &mut self.out, digits.as_bytes());
            }
            Piece::Expr(expr) => {
                let is_short = matches!(
                    expr.node,
                    Node::Literal(_) | Node::Mixed(_) | Node::Var(..) | Node::Lambda(_)
                );
                self.word(if is_short { "" } else { "(" });
                self.primary(&expr.node);
                self.word(if is_short { "@" } else { ")@" });
                self.put(Piece::Number(expr.token as i64));
            }
            Piece::Statement(statement) => self.statement(statement),
        }
    }

    /// The pieces that were put aside come next.
    fn turn(&mut self) {
        for _ in 0..self.pieces.len() {
            if let Some(piece) = self.pieces.pop() {
                self.left.push(piece).expect(self.rt, "memory");
            }
        }
    }

    /// Shows all.
    fn all(&mut self) {
        for _ in 0..1_000_000u32 {
            self.turn();
            match self.left.pop() {
                Some(piece) => self.show(piece),
                None => return,
            }
        }
    }
}

fn program_shown<A: Abort>(rt: &A, alloc: Global, program: &Program) -> Vec<u8> {
    let mut printer = Printer {
        rt,
        alloc,
        out: Vec::new(alloc),
        left: Vec::new(alloc),
        pieces: Vec::new(alloc),
    };
    printer.program(program);
    printer.all();
    let Printer { out, .. } = printer;
    out
}

/// The program of the tokens, or `dead`, the number of the token and its line.
fn shown<A: Abort>(rt: &A, alloc: Global, words: &str) -> Vec<u8> {
    let tokens = tokens_in(rt, alloc, words.as_bytes(), usize::MAX, usize::MAX);
    let mut out = Vec::new(alloc);
    match parsed(rt, alloc, tokens.as_slice()) {
        Ok(program) => return program_shown(rt, alloc, &program),
        Err(SyntaxFault::Dead { token, line }) => {
            let fault = format!(in alloc; "dead {token} line {line}").expect(rt, "memory");
            put(rt, &mut out, fault.as_bytes());
        }
        Err(SyntaxFault::Memory) => put(rt, &mut out, b"memory"),
    }
    out
}

// ---- tables

/// Each text with its tree. `behind` has the signs behind which any name may stand: the dot, and in an object the brace
/// and the comma. Cut at a place, a text is a program or dead at its end. With `switch`, which is reserved, in the place
/// of a token it is dead there, unless a name of any kind may stand there.
fn check_trees(rt: &impl Abort, alloc: Global, table: &[(&str, &str)], behind: &[u8]) {
    for (words, tree) in table {
        let found = shown(rt, alloc, words);
        assert_eq!(rt; found.as_slice(), tree.as_bytes(), "{words}");
        check_places(rt, alloc, words.as_bytes(), behind);
    }
}

fn check_places(rt: &impl Abort, alloc: Global, words: &[u8], behind: &[u8]) {
    let whole = tokens_in(rt, alloc, words, usize::MAX, usize::MAX);
    let mut is_named = false;
    for at in 0..whole.len().saturating_sub(1) {
        let cut = tokens_in(rt, alloc, words, at, usize::MAX);
        let dead = dead_in(rt, alloc, cut.as_slice());
        assert!(rt; dead.is_none() || dead == Some(at));
        let changed = tokens_in(rt, alloc, words, usize::MAX, at);
        let dead = dead_in(rt, alloc, changed.as_slice());
        assert!(rt; is_named || dead == Some(at));
        is_named = is_sign_in(whole.get(at), behind);
    }
}

/// The token is one of these signs, which are a byte each.
fn is_sign_in(token: Option<&Token>, signs: &[u8]) -> bool {
    match token {
        Some(
            Token {
                kind: TokenKind::Sign(sign),
                ..
            },
        ) => signs.iter().any(|byte| sign_of(&[*byte]) == Some(*sign)),
        _ => false,
    }
}

#[test]
fn statements_have_these_trees(rt: HostRuntime) {
    let table = [
        ("", ""),
        ("; { ; { } }", ";{;{}}"),
        ("{ } ;", "{};"),
        ("print 1 ;", "print 1@1;"),
        ("print 1 , $x , 2 ;", "print 1@1 $x@3 2@5;"),
        ("1 ; 2 ;", "1@0;2@2;"),
        ("if ( 1 ) ;", "if 1@2 ;fi"),
        ("if ( 1 ) ; elseif ( 2 ) ;", "if 1@2 ;if 2@7 ;fi"),
        (
            "if ( 1 ) ; elseif ( 2 ) ; elseif ( 3 ) { } else { }",
            "if 1@2 ;if 2@7 ;if 3@12 {}else {}fi",
        ),
        ("if ( 1 ) if ( 2 ) ; else ;", "if 1@2 if 2@6 ;else ;fifi"),
        (
            "if ( 1 ) if ( 2 ) ; else ; else { }",
            "if 1@2 if 2@6 ;else ;fielse {}fi",
        ),
        ("if ( 1 ) if ( 2 ) ;", "if 1@2 if 2@6 ;fifi"),
        (
            "if ( 1 ) { if ( 2 ) ; } else ;",
            "if 1@2 {if 2@7 ;fi}else ;fi",
        ),
        (
            "if ( 1 ) ; else if ( 2 ) ; else ;",
            "if 1@2 ;else if 2@8 ;else ;fifi",
        ),
        (
            "if ( 1 ) ; elseif ( 2 ) if ( 3 ) ; else ;",
            "if 1@2 ;if 2@7 if 3@11 ;else ;fifi",
        ),
        (
            "if ( 1 ) while ( 2 ) if ( 3 ) ; elseif ( 4 ) ;",
            "if 1@2 while 2@6 if 3@10 ;if 4@15 ;fifi",
        ),
        (
            "if ( 1 ) for ( ; ; ) if ( 2 ) ; else ;",
            "if 1@2 for;; if 2@11 ;else ;fifi",
        ),
        (
            "if ( 1 ) foreach ( $l as $v ) if ( 2 ) ; else ;",
            "if 1@2 foreach $l@6 v if 2@12 ;else ;fifi",
        ),
        ("while ( $i ) ;", "while $i@2 ;"),
        (
            "for ( $i = 0 , 1 ; $i < 3 ; $i ++ , 2 ) ;",
            "for ($i = 0@4)@2 1@6;($i@8 < 3@10)@8; ($i++)@12 2@15 ;",
        ),
        ("for ( ; ; ) ;", "for;; ;"),
        ("foreach ( $l as $v ) ;", "foreach $l@2 v ;"),
        ("foreach ( $l as $k , $v ) ;", "foreach $l@2 k,v ;"),
        ("return ; return 1 ;", "return ;return 1@3;"),
        ("break ; continue ;", "break;continue;"),
        ("function f ( ) { }", "f0(){}"),
        (
            "function f ( $x , $y ) { return $x ; }",
            "f0(x,y,){return $x@9;}",
        ),
        ("1 ; function f ( ) { } 2 ;", "f2(){}1@0;2@8;"),
    ];
    check_trees(&rt, rt.alloc(), &table, b".");
}

#[test]
fn expressions_have_these_trees(rt: HostRuntime) {
    let table = [
        ("$a = $b = 1 ;", "($a = ($b = 1@4)@2)@0;"),
        ("$a . b [ 2 ] = 3 ;", "($a.b[2@4] = 3@7)@0;"),
        (
            "$a += 1 ; $a -= 1 ;",
            "($a change + 1@2)@0;($a change - 1@6)@4;",
        ),
        (
            "$a *= 1 ; $a /= 1 ;",
            "($a change * 1@2)@0;($a change / 1@6)@4;",
        ),
        (
            "$a %= 1 ; $a ..= 1 ;",
            "($a change % 1@2)@0;($a change .. 1@6)@4;",
        ),
        ("$a . b [ ] = 1 ;", "($a.b[] = 1@6)@0;"),
        (
            "1 ? 2 : 3 ? 4 : 5 ;",
            "(1@0 ? 2@2 : (3@4 ? 4@6 : 5@8)@4)@0;",
        ),
        ("1 ? $a = 2 : 3 ;", "(1@0 ? ($a = 2@4)@2 : 3@6)@0;"),
        (
            "1 && 2 || 3 || 4 && 5 ;",
            "((1@0 && 2@2)@0 || 3@4 || (4@6 && 5@8)@6)@0;",
        ),
        ("1 && 2 == 3 && 4 ;", "(1@0 && (2@2 == 3@4)@2 && 4@6)@0;"),
        (
            "1 == 2 != 3 === 4 !== 5 ;",
            "(1@0 == 2@2 != 3@4 === 4@6 !== 5@8)@0;",
        ),
        ("1 < 2 == 3 < 4 ;", "((1@0 < 2@2)@0 == (3@4 < 4@6)@4)@0;"),
        (
            "1 < 2 <= 3 > 4 >= 5 ;",
            "(1@0 < 2@2 <= 3@4 > 4@6 >= 5@8)@0;",
        ),
        ("1 .. 2 < 3 ;", "((join 1@0 2@2)@0 < 3@4)@0;"),
        ("1 .. 2 + 3 .. 4 ;", "(join 1@0 (2@2 + 3@4)@2 4@6)@0;"),
        ("1 - 2 + 3 ;", "(1@0 - 2@2 + 3@4)@0;"),
        ("1 - 2 * 3 - 4 ;", "(1@0 - (2@2 * 3@4)@2 - 4@6)@0;"),
        ("1 * 2 / 3 % 4 ;", "(1@0 * 2@2 / 3@4 % 4@6)@0;"),
        ("1 ? 2 : $a = 3 ;", "(1@0 ? 2@2 : ($a = 3@6)@4)@0;"),
        ("- - 1 ;", "(-(-1@2)@1)@0;"),
        ("- ! 1 ; ! - 1 ;", "(-(!1@2)@1)@0;(!(-1@6)@5)@4;"),
        ("- 1 * 2 ;", "((-1@1)@0 * 2@3)@0;"),
        ("++ $a . b ; -- $a ;", "(++$a.b)@0;(--$a)@5;"),
        ("$a ++ ; $a [ 1 ] -- ;", "($a++)@0;($a[1@5]--)@3;"),
        ("2 * $a ++ ;", "(2@0 * ($a++)@2)@0;"),
        (
            "null ; NULL ; true ; TRUE ; false ; FALSE ;",
            "null@0;null@2;true@4;true@6;false@8;false@10;",
        ),
        ("7 ; 'ab ; JX9_EOL ; \"x ;", "7@0;'ab@2;'\n@4;\"x@6;"),
        ("$a ; $a . if ;", "$a@0;$a.if@2;"),
        ("$a [ 1 ] . b [ 2 ] ;", "$a[1@2].b[2@7]@0;"),
        ("( 1 ) ; ( 1 ) . a ;", "(group 1@1)@0;((group 1@5)@4.a)@4;"),
        ("[ ] ; [ 1 ] [ 0 ] ;", "(list)@0;((list 1@4)@3[0@7])@3;"),
        (
            "[ 1 , 2 , ] ; [ 1 , 2 ] ;",
            "(list 1@1 2@3)@0;(list 1@8 2@10)@7;",
        ),
        ("f ( ) ; $f ( 1 , 2 ) ;", "(call f)@0;(call $f 1@6 2@8)@4;"),
        (
            "f ( 1 ) . a ; $f ( ) [ 1 ] ;",
            "((call f 1@2)@0.a)@0;((call $f)@7[1@11])@7;",
        ),
        ("$a = $f ( ) + 1 ;", "($a = ((call $f)@2 + 1@6)@2)@0;"),
        ("function ( ) { } ;", "lambda(){}lambda1@0;"),
        (
            "function ( ) { } ; function ( $x ) { } ;",
            "lambda(){}lambda(x,){}lambda1@0;lambda2@6;",
        ),
        (
            "$f = function ( $x , $y ) { function ( ) { } ; } ;",
            "lambda(x,y,){lambda2@9;}lambda(){}($f = lambda1@2)@0;",
        ),
    ];
    check_trees(&rt, rt.alloc(), &table, b".");
}

#[test]
fn objects_have_these_trees(rt: HostRuntime) {
    let table = [
        ("( { } ) ;", "(group (object )@1)@0;"),
        ("( { a : 1 } ) ;", "(group (object a:1@4,)@1)@0;"),
        (
            "( { if : 1 , 'b : 2 , } ) ;",
            "(group (object if:1@4,b:2@8,)@1)@0;",
        ),
        (
            "$x = { a : { b : 1 } , c : 2 } . a ;",
            "($x = ((object a:(object b:1@8,)@5,c:2@13,)@2.a)@2)@0;",
        ),
    ];
    check_trees(&rt, rt.alloc(), &table, b".{,");
}

/// The number of the token that is dead. The end has line 8, each other token line 7.
#[test]
fn these_tokens_are_dead(rt: HostRuntime) {
    let table = [
        ("1", "dead 1 line 8"),
        ("( 1", "dead 2 line 8"),
        ("if ( 1 )", "dead 4 line 8"),
        ("{ ;", "dead 2 line 8"),
        ("$f = function ( $x ) { return $x", "dead 9 line 8"),
        ("1 2 ;", "dead 1 line 7"),
        ("1 + ;", "dead 2 line 7"),
        ("1 = 2 ;", "dead 1 line 7"),
        ("$a = = 1 ;", "dead 2 line 7"),
        ("$a ++ = 1 ;", "dead 2 line 7"),
        ("1 + $a = 2 ;", "dead 3 line 7"),
        ("$a [ ] ;", "dead 3 line 7"),
        ("$a [ ] += 1 ;", "dead 3 line 7"),
        ("1 + $a [ ] = 2 ;", "dead 4 line 7"),
        ("1 ? 2 ;", "dead 3 line 7"),
        ("[ , ] ;", "dead 1 line 7"),
        ("[ 1 , , ] ;", "dead 3 line 7"),
        ("f ( 1 , ) ;", "dead 4 line 7"),
        ("$f ( 1 , ) ;", "dead 4 line 7"),
        ("f ( , ) ;", "dead 2 line 7"),
        ("f [ 1 ] ;", "dead 1 line 7"),
        ("f ( ) ( ) ;", "dead 3 line 7"),
        ("( $f ) ( ) ;", "dead 3 line 7"),
        ("$a . f ( ) ;", "dead 3 line 7"),
        ("f ( ) = 1 ;", "dead 3 line 7"),
        ("f ( ) ++ ;", "dead 3 line 7"),
        ("++ f ( ) ;", "dead 1 line 7"),
        ("{ a : 1 }", "dead 2 line 7"),
        ("{ function g ( ) { } }", "dead 2 line 7"),
        ("function ( ) { } ( ) ;", "dead 5 line 7"),
        ("function f ;", "dead 2 line 7"),
        ("function f ( $x , ) { }", "dead 5 line 7"),
        ("function if ( ) { }", "dead 1 line 7"),
        ("function f ( ) ;", "dead 4 line 7"),
        ("1 + function f ( ) { } ;", "dead 3 line 7"),
        ("print ;", "dead 1 line 7"),
        ("print 1 , ;", "dead 3 line 7"),
        ("if 1 ;", "dead 1 line 7"),
        ("else ;", "dead 0 line 7"),
        ("if ( 1 ) ; else ; else ;", "dead 7 line 7"),
        ("if ( 1 ) ; else ; elseif ( 1 ) ;", "dead 7 line 7"),
        (
            "if ( 1 ) while ( 2 ) if ( 3 ) ; else ; else ; else ;",
            "dead 17 line 7",
        ),
        ("while ( ) ;", "dead 2 line 7"),
        ("for ( 1 , ; ; ) ;", "dead 4 line 7"),
        ("for ( ; 1 , 2 ; ) ;", "dead 4 line 7"),
        ("foreach ( $l as 1 ) ;", "dead 4 line 7"),
        ("foreach ( $l as $k , $v , $w ) ;", "dead 7 line 7"),
        ("break 1 ;", "dead 1 line 7"),
        ("switch ;", "dead 0 line 7"),
        ("++ 1 ;", "dead 1 line 7"),
        ("$a . 1 ;", "dead 2 line 7"),
        ("} ;", "dead 0 line 7"),
    ];
    let alloc = rt.alloc();
    for (words, fault) in table {
        let found = shown(&rt, alloc, words);
        assert_eq!(rt; found.as_slice(), fault.as_bytes(), "{words}");
    }
}

// ---- nesting

/// What stands before, a front, a middle, a back, and what stands behind, with `~` between them. Front and back stand so
/// many times.
fn nested(rt: &impl Abort, alloc: Global, nest: &str, count: u32) -> Vec<u8> {
    let mut words = Vec::new(alloc);
    let mut parts = nest.as_bytes().split(|byte| *byte == b'~');
    for is_repeated in [false, true, false, true, false] {
        let part = parts.next().unwrap_or(b"");
        let times = if is_repeated { count } else { 1 };
        for _ in 0..times {
            put(rt, &mut words, part);
        }
    }
    words
}

/// With so many fronts the text is a program of nesting 200. With one more the token of that number is dead.
fn check_nest(rt: &impl Abort, alloc: Global, nest: &str, most: u32, token: usize) {
    for (count, expected) in [(most, None), (most.saturating_add(1), Some(token))] {
        let words = nested(rt, alloc, nest, count);
        let tokens = tokens_in(rt, alloc, words.as_slice(), usize::MAX, usize::MAX);
        let dead = dead_in(rt, alloc, tokens.as_slice());
        assert_eq!(rt; dead, expected, "{nest}");
    }
}

/// Nesting 200 is a program. At 201 the token is dead that would begin one level too many.
#[test]
fn nesting_is_at_most_200(rt: HostRuntime) {
    let alloc = rt.alloc();
    let table = [
        ("~( ~1 ~) ~;", 199, 199),
        ("print ~( ~1 ~) ~;", 199, 200),
        ("return ~( ~1 ~) ~;", 199, 200),
        ("~( ~1 ~) + 1 ~;", 199, 199),
        ("~1 + ( ~1 ~) ~;", 199, 599),
        ("~( ~1 ~) ? 1 : 1 ~;", 199, 199),
        ("~- ~1 ~~;", 199, 199),
        ("~! ~1 ~~;", 199, 199),
        ("~[ ~~] ~;", 200, 200),
        ("~f ( ~~) ~;", 200, 400),
        ("~$f ( ~~) ~;", 200, 400),
        ("~$a [ ~1 ~] ~;", 199, 399),
        ("~++ $a [ ~1 ~] ~;", 199, 599),
        ("~f ( ) [ ~1 ~] ~;", 199, 799),
        ("~$a = ~1 ~~;", 199, 399),
        ("~$a += ~1 ~~;", 199, 399),
        ("~$a [ ] = ~1 ~~;", 199, 797),
        ("~1 ? ~1 ~: 1 ~;", 199, 399),
        ("~1 ? 1 : ~1 ~~;", 199, 797),
        ("( ~{ a : ~1 ~} ~) ;", 198, 596),
        ("~function ( ) { ~~} ; ~", 100, 400),
        ("~if ( 1 ) ~; ~~", 199, 796),
        ("~if ( 1 ) ; else ~; ~~", 199, 1194),
        ("~if ( 1 ) ; elseif ( 1 ) ~; ~~", 199, 1791),
        ("~while ( 1 ) ~; ~~", 199, 796),
        ("~for ( ; ; ) ~; ~~", 199, 995),
        ("~foreach ( 1 as $v ) ~; ~~", 199, 1194),
        ("~{ ~~} ~", 200, 200),
        ("function f ( ) ~{ ~~} ~", 199, 203),
    ];
    for (nest, most, token) in table {
        check_nest(&rt, alloc, nest, most, token);
    }
}
