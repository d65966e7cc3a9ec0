//! What the first token of a statement or of an arm begins.

ghost use Rattle.std.specs.Prelude.{List as Items};
ghost use Rattle.std.specs.Prelude.{◌≡◌, ℕ, suc, ◌<◌, ◌≤◌, [], ◌∷◌, ◌++◌, IfOk, IfSome, MatchOption, Some, None, length};
ghost use Rattle.rp_span.specs.declared.Span.{Span as SpanValue};
ghost use Rattle.rp_grammar.specs.Trees.{ident, ExprTree, BlockTree, StmtTree, BlockArmTree};
ghost use Rattle.rp_tokens.specs.MachineStates.{State, to, in_stmts, in_block_arms, more_if};
ghost use Rattle.rp_tokens.specs.MachineStmts.{stmt_step, stmt_word as stmt_word_step, want_else, alone};
ghost use Rattle.rp_tokens.specs.Machine.{Bounded, bounded};
ghost use Rattle.rp_parser.specs.means.Marks.{terminal_of, toks};
ghost use Rattle.rp_parser.specs.means.Reading.{Gives, Moves, Enters, Stands, left};
ghost use Rattle.rp_parser.specs.means.Blocks.{in_arm};
ghost use Rattle.rp_parser.specs.means.StmtStarts.{stmt_next, else_next, IsWithin};

use crate::fault::Fault;
use crate::mark::{Kind, Marks, Rest};
use crate::next::{MAX_DEPTH, word_behind};
use crate::patterns::constructor;
use rp_grammar::Word;
use rp_span::Span;

/// What a statement begins with.
#[derive(Clone, Copy)]
pub(crate) enum StmtStart<'a> {
    Name(&'a [u8]),
    Var,
    If,
    Match,
    Atomic,
    Assert,
    Return,
}

fn stmt_word<'a>(word: Word) -> Option<StmtStart<'a>>
    ensures { MatchOption result
        ((d : ℕ) (k : StmtTree → State) (s : SpanValue) → stmt_word_step d k word s ≡ None)
        (λ t. (d : ℕ) (k : StmtTree → State) (s : SpanValue)
        → stmt_word_step d k word s ≡ Some (to d (stmt_next d k s t))) }
{
    match word {
        Word::Var => Some(StmtStart::Var),
        Word::If => Some(StmtStart::If),
        Word::Match => Some(StmtStart::Match),
        Word::Atomic => Some(StmtStart::Atomic),
        Word::Assert => Some(StmtStart::Assert),
        Word::Return => Some(StmtStart::Return),
        _ => None,
    }
}

fn stmt_start(kind: Kind) -> Option<StmtStart>
    ensures { MatchOption result
        ((d : ℕ) (k : StmtTree → State) (s : SpanValue)
        → stmt_step d k (terminal_of kind.entry) s ≡ None)
        (λ t. (d : ℕ) (k : StmtTree → State) (s : SpanValue)
        → stmt_step d k (terminal_of kind.entry) s ≡ Some (to d (stmt_next d k s t))) }
{
    match kind {
        Kind::Name(bytes) => Some(StmtStart::Name(bytes)),
        Kind::Word(word) => stmt_word(word),
        _ => None,
    }
}

/// The first token of a statement, if one is next.
pub(crate) fn stmt_sign(rest: Rest) -> Option<(StmtStart, Span, Marks)>
    ensures shorter { IfSome result (λ x. length x.2.now < left rest.entry) }
    ensures reads { (o : Bounded) (d : ℕ) (xs : Items StmtTree) (k : Items StmtTree → State)
        → Stands rest.entry (in_stmts d xs k) o → MatchOption result (Stands rest.entry (k xs) o)
        (λ x. Enters d o (stmt_next d (λ y. in_stmts d (xs ++ y ∷ []) k) x.1 x.0) x.2.now) }
{
    let Rest::Left(marks) = rest else {
        return None;
    };
    stmt_next_mark(marks)
}

fn stmt_next_mark(marks: Marks) -> Option<(StmtStart, Span, Marks)>
    ensures shorter { IfSome result (λ x. length marks.now ≡ suc (length x.2.now)) }
    ensures reads { (d : ℕ) (xs : Items StmtTree) (k : Items StmtTree → State)
        → MatchOption result
        (bounded 64 (in_stmts d xs k) (toks marks.now) ≡ bounded 64 (k xs) (toks marks.now))
        (λ x. Moves d (in_stmts d xs k) (toks marks.now) (stmt_next d
        (λ y. in_stmts d (xs ++ y ∷ []) k) x.1 x.0) (toks x.2.now)) }
{
    let Some((first, rest)) = marks.split_first() else {
        return None;
    };
    let Some(start) = stmt_start(first.kind) else {
        return None;
    };
    Some((start, first.span, rest))
}

/// The constructor of an arm's pattern, if one is next.
pub(crate) fn arm_sign(rest: Rest) -> Option<(&[u8], Span, Marks)>
    ensures shorter { IfSome result (λ x. length x.2.now < left rest.entry) }
    ensures reads { (o : Bounded) (d : ℕ) (as_ : Items BlockArmTree) (k : Items BlockArmTree → State)
        → Stands rest.entry (in_block_arms d as_ k) o
        → MatchOption result (Stands rest.entry (k as_) o)
        (λ x. Enters d o (in_arm d (ident x.0.now x.1)
        (λ a. in_block_arms d (as_ ++ a ∷ []) k)) x.2.now) }
{
    let Rest::Left(marks) = rest else {
        return None;
    };
    arm_next_mark(marks)
}

fn arm_next_mark(marks: Marks) -> Option<(&[u8], Span, Marks)>
    ensures shorter { IfSome result (λ x. length marks.now ≡ suc (length x.2.now)) }
    ensures reads { (d : ℕ) (as_ : Items BlockArmTree) (k : Items BlockArmTree → State)
        → MatchOption result
        (bounded 64 (in_block_arms d as_ k) (toks marks.now) ≡ bounded 64 (k as_) (toks marks.now))
        (λ x. Moves d (in_block_arms d as_ k) (toks marks.now) (in_arm d (ident x.0.now x.1)
        (λ a. in_block_arms d (as_ ++ a ∷ []) k)) (toks x.2.now)) }
{
    let Some((first, rest)) = marks.split_first() else {
        return None;
    };
    let Some(con) = constructor(first.kind) else {
        return None;
    };
    Some((con, first.span, rest))
}

/// What follows the word `else`, if that is next.
pub(crate) fn else_sign(rest: Rest, depth: u32) -> Option<Marks>
    requires { depth ≤ 64 }
    ensures shorter { IfSome result (λ after. length after.now < left rest.entry) }
    ensures reads { (o : Bounded) (d : ℕ) → d ≡ depth
        → (v : SpanValue) (e : ExprTree) (b : BlockTree) (k : StmtTree → State)
        → Stands rest.entry (more_if d v e b k) o
        → MatchOption result (Stands rest.entry (k (alone v e b)) o)
        (λ after. o ≡ bounded 64 (want_else d v e b k) (toks after.now)) }
{
    let Rest::Left(marks) = rest else {
        return None;
    };
    else_next_mark(marks)
}

fn else_next_mark(marks: Marks) -> Option<Marks>
    ensures shorter { IfSome result (λ rest. length rest.now < length marks.now) }
    ensures reads { (d : ℕ) → d ≤ 64
        → (v : SpanValue) (e : ExprTree) (b : BlockTree) (k : StmtTree → State)
        → MatchOption result
        (bounded 64 (more_if d v e b k) (toks marks.now)
        ≡ bounded 64 (k (alone v e b)) (toks marks.now))
        (λ rest. bounded 64 (more_if d v e b k) (toks marks.now)
        ≡ bounded 64 (want_else d v e b k) (toks rest.now)) }
{
    let Some((_, rest)) = word_behind(marks, Word::Else) else {
        return None;
    };
    Some(rest)
}

/// What stands behind an `else`.
#[derive(Clone, Copy)]
pub(crate) enum ElseStart {
    If(Span),
    Block,
}

/// The word `if` behind an `else`, if it is next.
pub(crate) fn else_first(marks: Marks, depth: u32) -> Result<(ElseStart, Marks), Fault>
    requires { depth ≤ 64 }
    ensures within { IfOk result (λ x. IsWithin depth x.0) }
    ensures no_longer { IfOk result (λ x. length x.1.now ≤ length marks.now) }
    ensures reads { (d : ℕ) → d ≡ depth
        → (v : SpanValue) (e : ExprTree) (b : BlockTree) (k : StmtTree → State)
        → Gives result (bounded 64 (want_else d v e b k) (toks marks.now))
        (λ x. bounded 64 (else_next d v e b k x.0) (toks x.1.now)) }
{
    let Some((span, rest)) = word_behind(marks, Word::If) else {
        return Ok((ElseStart::Block, marks));
    };
    if depth >= MAX_DEPTH {
        return Err(Fault::TooDeep(marks.len()));
    }
    Ok((ElseStart::If(span), rest))
}
