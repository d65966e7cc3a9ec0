ghost use Rattle.std.specs.Prelude.{◌≡◌, slice_get};
ghost use Rattle.rp_logic.specs.Scopes.{scope_view};

/// The sorts of the open quantifiers, the innermost first.
#[derive(Drop)]
pub enum Scope<'a> {
    Closed,
    Under(u32, &'a Scope<'a>),
}

impl<'a> Scope<'a> {
    /// The sort of the n-th enclosing quantifier.
    pub fn sort_of(&self, n: u32) -> Option<u32>
        ensures { result ≡ slice_get (scope_view self.now) n }
    {
        match self {
            Scope::Closed => None,
            Scope::Under(sort, outer) => if n == 0 {
                Some(*sort)
            } else {
                outer.sort_of(n - 1)
            },
        }
    }
}
