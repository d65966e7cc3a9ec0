use rp_lang::Stmt;

/// What is left behind some statements: those behind the choices around them, the innermost first.
#[derive(Drop)]
pub enum Left<'a> {
    Nothing,
    Then(&'a [Stmt], &'a Left<'a>),
}
