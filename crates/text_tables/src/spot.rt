//! Where a walk over replicated types stands.

ghost use Rattle.std.specs.Prelude.{◌≡◌, ◌++◌, ◌∷◌, [], IfOk, List, Some};
ghost use Rattle.type_rules.specs.declared.kind.Kind.{Kind as TheKind};
ghost use Rattle.desugaring.specs.Objects.{KindStep, field, key};
ghost use Rattle.desugaring.specs.Tables.{Tables as SpecTables, ty_of};
ghost use Rattle.text_tables.specs.means.Rooted.{IsAt};

use rp_lang::PathStep;
use rp_value::{List, Memory, Ty, copy_list};
use std::alloc::Global;

/// A path from a root.
#[derive(Drop)]
pub(crate) struct Spot {
    /// The number of the root.
    pub(crate) root: u32,
    pub(crate) path: List<PathStep>,
    /// The types of the keys on the path.
    pub(crate) keys: List<Ty>,
}

impl Spot {
    /// At the root of this number. It takes no memory.
    pub(crate) fn at_root(alloc: Global, root: u32) -> Spot
        ensures root { result.root ≡ root }
        ensures at { (t : SpecTables) → IsAt t [] result }
    {
        Spot {
            root,
            path: List::new(alloc),
            keys: List::new(alloc),
        }
    }

    /// One field further.
    pub(crate) fn at_field(&self, alloc: Global, number: u32) -> Result<Spot, Memory>
        ensures root { IfOk result (λ spot. spot.root ≡ self.now.root) }
        ensures at { (t : SpecTables) (path : List KindStep) → IsAt t path self.now
            → IfOk result (IsAt t (path ++ field number ∷ [])) }
    {
        let mut path = copy_list(alloc, self.path.as_slice())?;
        path.push(PathStep::Field(number))?;
        let keys = copy_list(alloc, self.keys.as_slice())?;
        Ok(Spot {
            root: self.root,
            path,
            keys,
        })
    }

    /// Behind a key of this type.
    pub(crate) fn at_key(&self, alloc: Global, ty: Ty) -> Result<Spot, Memory>
        ensures root { IfOk result (λ spot. spot.root ≡ self.now.root) }
        ensures at { (t : SpecTables) (path : List KindStep) (kind : TheKind) → IsAt t path self.now
            → ty_of t kind ≡ Some ty → IfOk result (IsAt t (path ++ key kind ∷ [])) }
    {
        let mut path = copy_list(alloc, self.path.as_slice())?;
        path.push(PathStep::Key(ty))?;
        let mut keys = copy_list(alloc, self.keys.as_slice())?;
        keys.push(ty)?;
        Ok(Spot {
            root: self.root,
            path,
            keys,
        })
    }
}
