//! The types of a text in the program's numbers.

ghost use Rattle.std.specs.Prelude.{◌≡◌, ◌<◌, IfOk, OnErr, None, Some, length};
ghost use Rattle.rp_value.specs.declared.tables.Ty.TheVariants as ty;
ghost use Rattle.rp_ast.specs.View.{params_view, type_view};
ghost use Rattle.type_rules.specs.Kinds.{kind_of, param_kinds, plain_kind};
ghost use Rattle.type_rules.specs.declared.kind.Base.TheVariants as base;
ghost use Rattle.desugaring.specs.Parts.{each};
ghost use Rattle.desugaring.specs.Tables as spec;
ghost use Rattle.text_tables.specs.Seen.{tables_view};

use crate::tables::Tables;
use rp_ast::{Param, TypeNode};
use rp_value::{List, Memory, Ty};
use std::alloc::Global;
use text_names::TypeSort;
use type_rules::{Base, Kind};
use type_tables::{BOOL_KIND, plain_kind};

impl<'n, 'a> Tables<'n, 'a> {
    fn datatype_ty(&self, kind: Kind) -> Option<Ty>
        ensures { result ≡ spec.datatype_ty (tables_view self.now) kind }
    {
        match self.kinds.number(kind) {
            Some(number) => Some(Ty::Datatype(number)),
            None => None,
        }
    }

    /// An id type or an opaque type.
    fn atom_ty(&self, number: u32) -> Option<Ty>
        requires { number < length (tables_view self.now).names.types }
        ensures { result ≡ Some (ty.Atom (spec.atom_number (tables_view self.now).names number)) }
    {
        Some(Ty::Atom(*self.atoms.get(number as usize)))
    }

    /// What a declared type is.
    fn declared_ty(&self, number: u32) -> Option<Ty>
        ensures { result ≡ spec.base_ty (tables_view self.now) (base.Declared number) }
    {
        match self.names().type_at(number) {
            Some(item) => match &item.sort {
                TypeSort::Id => self.atom_ty(number),
                TypeSort::Opaque => self.atom_ty(number),
                TypeSort::Datatype(_) => self.datatype_ty(plain_kind(Base::Declared(number))),
            },
            None => None,
        }
    }

    fn base_ty(&self, base: Base) -> Option<Ty>
        ensures { result ≡ spec.base_ty (tables_view self.now) base }
    {
        match base {
            Base::Bool => self.datatype_ty(BOOL_KIND),
            Base::Int => Some(Ty::Int),
            Base::Text => Some(Ty::Str),
            Base::Declared(number) => self.declared_ty(number),
            Base::Call => Some(Ty::Call),
            Base::Invocation => Some(Ty::Inv),
            Base::Operation => Some(Ty::Operation),
            Base::Info => Some(Ty::Info),
            Base::Outcome => Some(Ty::Outcome),
            Base::Unknown => None,
            Base::Open => None,
        }
    }

    /// The type in the program's numbers.
    pub fn find_ty(&self, kind: Kind) -> Option<Ty>
        ensures { result ≡ spec.ty_of (tables_view self.now) kind }
    {
        if kind.maybes == 0 {
            self.base_ty(kind.base)
        } else {
            self.datatype_ty(kind)
        }
    }

    /// The type in the program's numbers. `Err` is that it has none.
    pub fn ty_of(&self, kind: Kind) -> Result<Ty, Memory>
        ensures found { IfOk result (λ ty. spec.ty_of (tables_view self.now) kind ≡ Some ty) }
        ensures none { OnErr result (spec.ty_of (tables_view self.now) kind ≡ None) }
    {
        match self.find_ty(kind) {
            Some(ty) => Ok(ty),
            None => Err(Memory),
        }
    }

    /// A type that the text writes, in the program's numbers. `Err` is also that it has none.
    pub fn written(&self, ty: &TypeNode) -> Result<Ty, Memory>
        ensures { IfOk result (λ made. spec.ty_of (tables_view self.now)
            (kind_of (tables_view self.now).names (type_view ty.now)) ≡ Some made) }
    {
        let kind = self.names().kind_of(ty)?;
        self.ty_of(kind)
    }

    /// The types of these parameters. `Err` is also that one has none.
    pub fn params(&self, alloc: Global, params: &[Param]) -> Result<List<Ty>, Memory>
        ensures { IfOk result (λ tys. each (spec.ty_of (tables_view self.now))
            (param_kinds (tables_view self.now).names (params_view params.now)) ≡ Some tys) }
    {
        let mut tys = List::new(alloc);
        for param in params {
            let ty = self.written(&param.ty)?;
            tys.push(ty)?;
        }
        Ok(tys)
    }
}
