//! Statements and blocks.
#![tactic(auto, using(crate::proofs::Rests::within_all))]

ghost use Rattle.std.specs.Prelude.{List as Items};
ghost use Rattle.std.specs.Prelude.{◌≡◌, ℕ, ◌<◌, ◌≤◌, [], map, length};
ghost use Rattle.rp_span.specs.declared.Span.{Span as SpanValue};
ghost use Rattle.rp_grammar.specs.Parts.{join as join_spans};
ghost use Rattle.rp_grammar.specs.Trees.{ident as ident_tree, ExprTree, BlockTree, StmtTree, StmtForm, BlockArmTree};
ghost use Rattle.rp_grammar.specs.Stmts.{block_span, stmt_span};
ghost use Rattle.rp_ast.specs.View.{ident_view, stmt_view, block_view, block_arm_view, else_view};
ghost use Rattle.rp_tokens.specs.MachineStates.{State, in_stmts, in_block_arms};
ghost use Rattle.rp_tokens.specs.MachineStmts.{want_block, want_else, in_if, in_match};
ghost use Rattle.rp_tokens.specs.Machine.{Bounded};
ghost use Rattle.rp_parser.specs.means.Reading.{Stands, Enters, left};
ghost use Rattle.rp_parser.specs.means.StmtStarts.{stmt_next, in_atomic, in_assert, in_else_if, want_else_block};
ghost use Rattle.rp_parser.specs.means.Blocks.{in_arm};

use crate::fault::Fault;
use crate::leaves::ident;
use crate::mark::{Marks, Rest};
use crate::next::{MAX_DEPTH, join};
use crate::patterns::read_variables;
use crate::rest::{made, no_name, nowhere, pushed, symbol};
use crate::sentences::{read_named, read_parens, read_return, read_sentence, read_var};
use crate::stmt_starts::{ElseStart, StmtStart, arm_sign, else_first, else_sign, stmt_sign};
use rp_ast::build::stmt;
use rp_ast::{Block, BlockArm, ElseNode, Ident, PatternNode, StmtNode};
use rp_grammar::Symbol;
use rp_span::Span;
use rp_value::List;
use std::alloc::Global;

#[tactic(auto, using(crate::proofs::Spans::block_span_of))]
pub(crate) fn span_of_block(block: &Block) -> Span
    ensures { result ≡ block_span (block_view block.now) }
{
    block.span
}

#[tactic(auto, using(crate::proofs::Spans::stmt_span_of))]
fn span_of_stmt(stmt: &StmtNode) -> Span
    ensures { result ≡ stmt_span (stmt_view stmt.now) }
{
    stmt.span
}

/// What stands in for a block behind a fault.
fn no_block(alloc: Global) -> Block {
    stmt::block(nowhere(), List::new(alloc))
}

/// What stands in for an arm behind a fault.
fn no_arm(alloc: Global) -> BlockArm {
    let con = no_name(alloc);
    let vars = List::new(alloc);
    let pattern = PatternNode { con, vars };
    stmt::arm(pattern, no_block(alloc))
}

/// What stands in for an `else` behind a fault.
fn no_else(alloc: Global) -> ElseNode {
    stmt::else_block(no_block(alloc))
}

#[cycle(stmts)]
pub(crate) fn read_block<'a>(alloc: Global, rest: Rest<'a>, depth: u32) -> (Block, Rest<'a>)
    requires { depth ≤ 64 }
    ensures no_longer { left result.1 ≤ left rest.entry }
    ensures reads { (o : Bounded) (d : ℕ) → d ≡ depth → (k : BlockTree → State)
        → Stands rest.entry (want_block d k) o
        → Stands result.1 (k (block_view result.0)) o }
{
    let (open, inside) = symbol(rest, Symbol::OpenBrace, depth);
    let (stmts, after) = read_stmts(alloc, inside, depth + 1);
    let (close, end) = symbol(after, Symbol::CloseBrace, depth);
    let span = join(open, close);
    (stmt::block(span, stmts), end)
}

/// All statements that are next.
#[cycle(stmts)]
fn read_stmts<'a>(alloc: Global, rest: Rest<'a>, depth: u32) -> (List<StmtNode>, Rest<'a>)
    requires { depth ≤ 65 }
    ensures no_longer { left result.1 ≤ left rest.entry }
    ensures reads { (o : Bounded) (d : ℕ) → d ≡ depth → (k : Items StmtTree → State)
        → Stands rest.entry (in_stmts d [] k) o
        → Stands result.1 (k (map stmt_view result.0)) o }
{
    let mut stmts = List::new(alloc);
    let Some((start, span, after)) = stmt_sign(rest) else {
        return (stmts, rest);
    };
    let (first, after) = read_next_stmt(alloc, start, span, after, depth);
    let mut behind = pushed(&mut stmts, first, after);
    'stmts: loop {
        let Some((start, span, after)) = stmt_sign(behind) else {
            return (stmts, behind);
        };
        let (stmt, end) = read_next_stmt(alloc, start, span, after, depth);
        behind = pushed(&mut stmts, stmt, end);
    }
}

/// A statement, behind its first token, which may be nested too deep.
#[cycle(stmts)]
fn read_next_stmt<'a>(
    alloc: Global,
    start: StmtStart,
    start_span: Span,
    marks: Marks<'a>,
    depth: u32,
) -> (StmtNode, Rest<'a>)
    requires { depth ≤ 65 }
    ensures no_longer { left result.1 ≤ length marks.now }
    ensures reads { (o : Bounded) (d : ℕ) → d ≡ depth → (k : StmtTree → State)
        → Enters d o (stmt_next d k start_span start.entry) marks.now
        → Stands result.1 (k (stmt_view result.0)) o }
{
    if depth > MAX_DEPTH {
        let fault = Fault::TooDeep(marks.len() + 1);
        return (stmt::return_(nowhere(), None), Rest::Failed(fault));
    }
    read_stmt(alloc, start, start_span, Rest::Left(marks), depth)
}

/// A statement, behind its first token.
#[cycle(stmts)]
fn read_stmt<'a>(
    alloc: Global,
    start: StmtStart,
    start_span: Span,
    rest: Rest<'a>,
    depth: u32,
) -> (StmtNode, Rest<'a>)
    requires { depth ≤ 64 }
    ensures no_longer { left result.1 ≤ left rest.entry }
    ensures reads { (o : Bounded) (d : ℕ) → d ≡ depth → (k : StmtTree → State)
        → Stands rest.entry (stmt_next d k start_span start.entry) o
        → Stands result.1 (k (stmt_view result.0)) o }
{
    match start {
        StmtStart::Name(bytes) => {
            let name = ident(alloc, start_span, bytes);
            let (name, after) = made(name, no_name(alloc), rest);
            read_named(alloc, name, after, depth)
        }
        StmtStart::Var => read_var(alloc, start_span, rest, depth),
        StmtStart::If => read_if(alloc, start_span, rest, depth),
        StmtStart::Match => read_match(alloc, start_span, rest, depth),
        StmtStart::Atomic => read_atomic(alloc, start_span, rest, depth),
        StmtStart::Assert => read_assert(alloc, start_span, rest, depth),
        StmtStart::Return => read_return(alloc, start_span, rest, depth),
    }
}

/// What follows the word `atomic` at `start`.
#[cycle(stmts)]
fn read_atomic<'a>(alloc: Global, start: Span, rest: Rest<'a>, depth: u32) -> (StmtNode, Rest<'a>)
    requires { depth ≤ 64 }
    ensures no_longer { left result.1 ≤ left rest.entry }
    ensures reads { (o : Bounded) (d : ℕ) → d ≡ depth → (k : StmtTree → State)
        → Stands rest.entry (in_atomic d start k) o
        → Stands result.1 (k (stmt_view result.0)) o }
{
    let (body, end) = read_block(alloc, rest, depth);
    let span = join(start, span_of_block(&body));
    (stmt::atomic(span, body), end)
}

/// What follows the word `assert` at `start`.
fn read_assert<'a>(alloc: Global, start: Span, rest: Rest<'a>, depth: u32) -> (StmtNode, Rest<'a>)
    requires { depth ≤ 64 }
    ensures no_longer { left result.1 ≤ left rest.entry }
    ensures reads { (o : Bounded) (d : ℕ) → d ≡ depth → (k : StmtTree → State)
        → Stands rest.entry (in_assert d start k) o
        → Stands result.1 (k (stmt_view result.0)) o }
{
    let (condition, close, end) = read_sentence(alloc, rest, depth);
    let span = join(start, close);
    (stmt::assert_(span, condition), end)
}

/// What follows the word `if` at `start`.
#[cycle(stmts)]
fn read_if<'a>(alloc: Global, start: Span, rest: Rest<'a>, depth: u32) -> (StmtNode, Rest<'a>)
    requires { depth ≤ 64 }
    ensures no_longer { left result.1 ≤ left rest.entry }
    ensures reads { (o : Bounded) (d : ℕ) → d ≡ depth → (k : StmtTree → State)
        → Stands rest.entry (in_if d start k) o
        → Stands result.1 (k (stmt_view result.0)) o }
{
    let (condition, _extent, _close, after) = read_parens(alloc, rest, depth);
    let (body, after) = read_block(alloc, after, depth);
    let Some(behind) = else_sign(after, depth) else {
        let span = join(start, span_of_block(&body));
        return (stmt::if_(span, condition, body, None), after);
    };
    let (otherwise, last, end) = read_else(alloc, Rest::Left(behind), depth);
    let span = join(start, last);
    (stmt::if_(span, condition, body, Some(otherwise)), end)
}

/// What follows the word `else`; with its span.
#[cycle(stmts)]
fn read_else<'a>(alloc: Global, rest: Rest<'a>, depth: u32) -> (ElseNode, Span, Rest<'a>)
    requires { depth ≤ 64 }
    ensures no_longer { left result.2 ≤ left rest.entry }
    ensures reads { (o : Bounded) (d : ℕ) → d ≡ depth →
        (v : SpanValue) (e : ExprTree) (b : BlockTree) (k : StmtTree → State)
        → Stands rest.entry (want_else d v e b k) o
        → Stands result.2 (k (StmtTree.node (join_spans v result.1)
        (StmtForm.if_ e b (else_view result.0)))) o }
{
    let Rest::Left(marks) = rest else {
        return (no_else(alloc), nowhere(), rest);
    };
    match else_first(marks, depth) {
        Ok((start, after)) => match start {
            ElseStart::If(span) => read_else_if(alloc, span, Rest::Left(after), depth),
            ElseStart::Block => read_else_block(alloc, Rest::Left(after), depth),
        },
        Err(fault) => (no_else(alloc), nowhere(), Rest::Failed(fault)),
    }
}

/// What follows the word `if` at `start`, behind an `else`; with the span of the statement.
#[cycle(stmts)]
fn read_else_if<'a>(
    alloc: Global,
    start: Span,
    rest: Rest<'a>,
    depth: u32,
) -> (ElseNode, Span, Rest<'a>)
    requires { depth < 64 }
    ensures no_longer { left result.2 ≤ left rest.entry }
    ensures reads { (o : Bounded) (d : ℕ) → d ≡ depth →
        (v : SpanValue) (e : ExprTree) (b : BlockTree) (k : StmtTree → State)
        → Stands rest.entry (in_else_if d v e b k start) o
        → Stands result.2 (k (StmtTree.node (join_spans v result.1)
        (StmtForm.if_ e b (else_view result.0)))) o }
{
    let (branch, end) = read_if(alloc, start, rest, depth + 1);
    let last = span_of_stmt(&branch);
    let node = stmt::else_if(alloc, branch);
    let (node, end) = made(node, no_else(alloc), end);
    (node, last, end)
}

/// The block behind an `else`; with its span.
#[cycle(stmts)]
fn read_else_block<'a>(alloc: Global, rest: Rest<'a>, depth: u32) -> (ElseNode, Span, Rest<'a>)
    requires { depth ≤ 64 }
    ensures no_longer { left result.2 ≤ left rest.entry }
    ensures reads { (o : Bounded) (d : ℕ) → d ≡ depth →
        (v : SpanValue) (e : ExprTree) (b : BlockTree) (k : StmtTree → State)
        → Stands rest.entry (want_else_block d v e b k) o
        → Stands result.2 (k (StmtTree.node (join_spans v result.1)
        (StmtForm.if_ e b (else_view result.0)))) o }
{
    let (body, end) = read_block(alloc, rest, depth);
    let last = span_of_block(&body);
    (stmt::else_block(body), last, end)
}

/// What follows the word `match` at `start`.
#[cycle(stmts)]
fn read_match<'a>(alloc: Global, start: Span, rest: Rest<'a>, depth: u32) -> (StmtNode, Rest<'a>)
    requires { depth ≤ 64 }
    ensures no_longer { left result.1 ≤ left rest.entry }
    ensures reads { (o : Bounded) (d : ℕ) → d ≡ depth → (k : StmtTree → State)
        → Stands rest.entry (in_match d start k) o
        → Stands result.1 (k (stmt_view result.0)) o }
{
    let (value, _extent, _close, after) = read_parens(alloc, rest, depth);
    let (_, inside) = symbol(after, Symbol::OpenBrace, depth);
    let (arms, after) = read_arms(alloc, inside, depth + 1);
    let (close, end) = symbol(after, Symbol::CloseBrace, depth);
    let span = join(start, close);
    (stmt::match_(span, value, arms), end)
}

/// All arms that are next.
#[cycle(stmts)]
fn read_arms<'a>(alloc: Global, rest: Rest<'a>, depth: u32) -> (List<BlockArm>, Rest<'a>)
    requires { depth ≤ 65 }
    ensures no_longer { left result.1 ≤ left rest.entry }
    ensures reads { (o : Bounded) (d : ℕ) → d ≡ depth → (k : Items BlockArmTree → State)
        → Stands rest.entry (in_block_arms d [] k) o
        → Stands result.1 (k (map block_arm_view result.0)) o }
{
    let mut arms = List::new(alloc);
    let Some((con, span, after)) = arm_sign(rest) else {
        return (arms, rest);
    };
    let (first, after) = read_next_arm(alloc, con, span, after, depth);
    let mut behind = pushed(&mut arms, first, after);
    'arms: loop {
        let Some((con, span, after)) = arm_sign(behind) else {
            return (arms, behind);
        };
        let (arm, end) = read_next_arm(alloc, con, span, after, depth);
        behind = pushed(&mut arms, arm, end);
    }
}

/// An arm, behind the constructor of its pattern, which may be nested too deep.
#[cycle(stmts)]
fn read_next_arm<'a>(
    alloc: Global,
    con: &[u8],
    con_span: Span,
    marks: Marks<'a>,
    depth: u32,
) -> (BlockArm, Rest<'a>)
    requires { depth ≤ 65 }
    ensures no_longer { left result.1 ≤ length marks.now }
    ensures reads { (o : Bounded) (d : ℕ) → d ≡ depth → (k : BlockArmTree → State)
        → Enters d o (in_arm d (ident_tree con.now con_span) k) marks.now
        → Stands result.1 (k (block_arm_view result.0)) o }
{
    if depth > MAX_DEPTH {
        let fault = Fault::TooDeep(marks.len() + 1);
        return (no_arm(alloc), Rest::Failed(fault));
    }
    let con = ident(alloc, con_span, con);
    let (con, rest) = made(con, no_name(alloc), Rest::Left(marks));
    read_arm(alloc, con, rest, depth)
}

/// An arm, behind the constructor of its pattern.
#[cycle(stmts)]
fn read_arm<'a>(alloc: Global, con: Ident, rest: Rest<'a>, depth: u32) -> (BlockArm, Rest<'a>)
    requires { depth ≤ 64 }
    ensures no_longer { left result.1 ≤ left rest.entry }
    ensures reads { (o : Bounded) (d : ℕ) → d ≡ depth → (k : BlockArmTree → State)
        → Stands rest.entry (in_arm d (ident_view con) k) o
        → Stands result.1 (k (block_arm_view result.0)) o }
{
    let (pattern, after) = read_variables(alloc, con, rest, depth);
    let (_, after) = symbol(after, Symbol::Arrow, depth);
    let (body, end) = read_block(alloc, after, depth);
    (stmt::arm(pattern, body), end)
}
