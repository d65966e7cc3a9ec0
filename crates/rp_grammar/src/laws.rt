//! Laws of the definitions, and worked rows. The functions do nothing; what they ensure is proved.

ghost use Rattle.std.specs.Prelude.{◌≡◌, ◌⊎◌, ◌↔◌, ℕ, List, length, IsTrue, Some};
ghost use Rattle.std.specs.List.{AllByRecursion};
ghost use Rattle.rp_grammar.specs.Bytes.{is_one_of, reserved, symbols};
ghost use Rattle.rp_grammar.specs.Spelling.{spelling, mark, word_of, symbol_of};
ghost use Rattle.rp_grammar.specs.Terminals.{Tok, Placed};
ghost use Rattle.rp_grammar.specs.Trees.{TypeTree, CrdtTree, ExprTree, AccessTree, BlockTree, StmtTree, DeclTree};
ghost use Rattle.rp_grammar.specs.Parts.{Part, tree_of, extent_of};
ghost use Rattle.rp_grammar.specs.Types.{TypePhrase, Crdt};
ghost use Rattle.rp_grammar.specs.Exprs.{Expr, Access};
ghost use Rattle.rp_grammar.specs.Stmts.{Block, Stmt, block_span, stmt_span};
ghost use Rattle.rp_grammar.specs.Decls.{Decl};
ghost use Rattle.rp_grammar.specs.Extents.{Covers, InParens, type_span, crdt_span, expr_span, decl_span};
ghost use Rattle.rp_grammar.specs.Begins.{EndsInEnd};
ghost use Rattle.rp_grammar.specs.Texts.{HasToks};
ghost use Rattle.rp_grammar.specs.rows.Rows as rows;
ghost use Rattle.rp_grammar.specs.Lexed.{Lexed, Faulty, EndsAt, Spelled};

use crate::{LexFault, Symbol, Token, Word};

/// Bytes have one list of tokens, or one first fault, and not both.
pub fn lexing_is_a_function()
    ensures one_list { (p : ℕ) (bytes : List ℕ) (ts us : List Token)
        → Lexed p bytes ts → Lexed p bytes us → ts ≡ us }
    ensures one_fault { (p i j : ℕ) (bytes : List ℕ) (f g : LexFault)
        → Faulty p bytes i f → Faulty p bytes j g → (i ≡ j) × (f ≡ g) }
    ensures not_both { (p i : ℕ) (bytes : List ℕ) (ts : List Token) (f : LexFault)
        → Lexed p bytes ts → Faulty p bytes i f → ⊥ }
    ensures some { (bytes : List ℕ)
        → ((ts : List Token) × Lexed 0 bytes ts) ⊎ ((at : ℕ) × (f : LexFault) × Faulty 0 bytes at f) }
{}

/// The tokens of a text stand in it in their forms, and the last is its end.
pub fn tokens_stand_in_the_text()
    ensures ends { (bytes : List ℕ) (ts : List Token)
        → Lexed 0 bytes ts → EndsAt (length bytes) ts }
    ensures spelled { (bytes : List ℕ) (ts : List Token)
        → Lexed 0 bytes ts → AllByRecursion (Spelled bytes) ts }
{}

/// The reserved texts are the spellings of the words, and the texts of symbols are their marks.
pub fn texts_of_words_and_symbols()
    ensures words { (bytes : List ℕ)
        → IsTrue (is_one_of reserved bytes) ↔ ((w : Word) × (bytes ≡ spelling w)) }
    ensures symbols { (bytes : List ℕ)
        → IsTrue (is_one_of symbols bytes) ↔ ((m : Symbol) × (bytes ≡ mark m)) }
    ensures found_word { (w : Word) → word_of (spelling w) ≡ Some w }
    ensures found_symbol { (m : Symbol) → symbol_of (mark m) ≡ Some m }
{}

/// Bytes that have tokens have one list of terminals, and its last is the end.
pub fn bytes_have_one_list_of_terminals()
    ensures one { (bytes : List ℕ) (us vs : List Tok)
        → HasToks bytes us → HasToks bytes vs → us ≡ vs }
    ensures some { (bytes : List ℕ) (ts : List Token)
        → Lexed 0 bytes ts → (us : List Tok) × HasToks bytes us }
    ensures ends { (bytes : List ℕ) (us : List Tok) → HasToks bytes us → EndsInEnd us }
{}

/// The span of a node goes from the first token of its phrase to the end of its last. Only parentheses
/// around an expression lie outside the expression's own span.
pub fn spans_cover_phrases()
    ensures types { (d : ℕ) (ts r : List Placed) (t : TypeTree)
        → TypePhrase d ts t r → Covers ts r (type_span t) }
    ensures crdts { (d : ℕ) (ts r : List Placed) (t : CrdtTree)
        → Crdt d ts t r → Covers ts r (crdt_span t) }
    ensures exprs { (d : ℕ) (ts r : List Placed) (e : Part ExprTree)
        → Expr d ts e r → Covers ts r (extent_of e) }
    ensures parentheses { (d : ℕ) (ts r : List Placed) (e : Part ExprTree)
        → Expr d ts e r → (expr_span (tree_of e) ≡ extent_of e) ⊎ InParens d ts r e }
    ensures accesses { (d : ℕ) (ts r : List Placed) (a : Part AccessTree)
        → Access d ts a r → Covers ts r (extent_of a) }
    ensures blocks { (d : ℕ) (ts r : List Placed) (b : BlockTree)
        → Block d ts b r → Covers ts r (block_span b) }
    ensures stmts { (d : ℕ) (ts r : List Placed) (x : StmtTree)
        → Stmt d ts x r → Covers ts r (stmt_span x) }
    ensures decls { (ts r : List Placed) (x : DeclTree) → Decl ts x r → Covers ts r (decl_span x) }
{}

/// What some texts are, with spans and nestings.
pub fn worked_rows()
    ensures tautology { rows.Tautology }
    ensures tautology_tokens { rows.TautologyTokens }
    ensures tautology_within_two { rows.TautologyWithinTwo }
    ensures tautology_past_none { rows.TautologyPastNone }
    ensures no_program { rows.NoProgram }
    ensures parentheses_of_an_operand { rows.ParenthesesOfAnOperand }
    ensures parentheses_of_a_node { rows.ParenthesesOfANode }
    ensures nestings_of_a_sum { rows.NestingsOfASum }
    ensures two_variables { rows.TwoVariables }
    ensures quantifier_in_a_chain { rows.QuantifierInAChain }
    ensures else_if { rows.ElseIf }
    ensures replicated_types { rows.ReplicatedTypes }
    ensures datatypes { rows.Datatypes }
    ensures matches_and_accesses { rows.MatchesAndAccesses }
    ensures words_with_arguments { rows.WordsWithArguments }
    ensures statements { rows.Statements }
    ensures replicated_types_by_name { rows.ReplicatedTypesByName }
    ensures comparisons { rows.Comparisons }
    ensures words_alone { rows.WordsAlone }
    ensures short_statements { rows.ShortStatements }
    ensures declared_types { rows.DeclaredTypes }
    ensures strings { rows.Strings }
{}
