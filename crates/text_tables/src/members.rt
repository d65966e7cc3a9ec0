//! The tables of operations and queries of a text's program.

ghost use Rattle.std.specs.Prelude.{◌≡◌, ◌++◌, ◌∷◌, [], IfOk, List, OnOk, Some, length, map};
ghost use Rattle.rp_ast.specs.View.{crdt_form_view, crdt_view, decl_view, decls_view, fields_view, type_view};
ghost use Rattle.type_rules.specs.Kinds.{kind_of};
ghost use Rattle.type_rules.specs.Paths as rules;
ghost use Rattle.type_rules.specs.Queries.{names_of};
ghost use Rattle.type_terms.specs.Members.{does_view, member_over, member_view, written_kind};
ghost use Rattle.desugaring.specs.Objects as objects;
ghost use Rattle.desugaring.specs.Objects.{KindStep, key};
ghost use Rattle.desugaring.specs.Tables as spec;
ghost use Rattle.text_tables.specs.Seen.{tables_view};
ghost use Rattle.text_tables.specs.means.Rooted.{DeclaresFields, DeclaresInside, DeclaresOn, DeclaresOwn, DeclaresRoots, HasArgs, IsAt, roots_in};

use crate::objects::sum;
use crate::spot::Spot;
use crate::tables::Tables;
use rp_ast::{CrdtForm, CrdtNode, Decl, DeclForm, FieldNode, TypeNode};
use rp_lang::{OpDecl, OpKind, QueryDecl, QueryKind, only_tx};
use rp_value::{List, Memory, Ty, copy_list};
use std::alloc::Global;
use type_terms::{Does, Member, data_of, kind_over, member_kind};

/// The operations and the queries of a program.
#[derive(Drop)]
pub struct Members {
    pub ops: List<OpDecl>,
    pub queries: List<QueryDecl>,
}

fn op_kind(does: Does) -> Option<OpKind>
    ensures { result ≡ objects.op_kind (does_view does) }
{
    match does {
        Does::Adds => Some(OpKind::Add),
        Does::Removes => Some(OpKind::Remove),
        Does::Assigns => Some(OpKind::Assign),
        Does::Increments => Some(OpKind::Increment),
        Does::Deletes => Some(OpKind::Delete),
        Does::Contains => None,
        Does::HasKey => None,
        Does::GetsValue => None,
        Does::GetsSum => None,
    }
}

fn query_kind(does: Does) -> Option<QueryKind>
    ensures { result ≡ objects.query_kind (does_view does) }
{
    match does {
        Does::Contains => Some(QueryKind::Contains),
        Does::HasKey => Some(QueryKind::HasKey),
        Does::GetsValue => Some(QueryKind::GetReg),
        Does::GetsSum => Some(QueryKind::GetSum),
        Does::Adds => None,
        Does::Removes => None,
        Does::Assigns => None,
        Does::Increments => None,
        Does::Deletes => None,
    }
}

/// With the type that the member is over.
fn with_arg(tables: &Tables, args: List<Ty>, member: Member) -> Result<List<Ty>, Memory>
    ensures { IfOk result (HasArgs (tables_view tables.now) args
        (written_kind (tables_view tables.now).names member.entry.over ∷ [])) }
{
    let mut args = args;
    let kind = kind_over(tables.names(), member)?;
    let ty = tables.ty_of(kind)?;
    args.push(ty)?;
    Ok(args)
}

/// With the types of the member's arguments.
fn with_args(tables: &Tables, args: List<Ty>, member: Member) -> Result<List<Ty>, Memory>
    ensures { IfOk result (HasArgs (tables_view tables.now) args
        (member_view (tables_view tables.now).names member.entry).args) }
{
    match member.does {
        Does::Adds => with_arg(tables, args, member),
        Does::Removes => with_arg(tables, args, member),
        Does::Assigns => with_arg(tables, args, member),
        Does::Increments => with_arg(tables, args, member),
        Does::Deletes => with_arg(tables, args, member),
        Does::Contains => with_arg(tables, args, member),
        Does::HasKey => with_arg(tables, args, member),
        Does::GetsValue => Ok(args),
        Does::GetsSum => Ok(args),
    }
}

/// Behind a key of this type.
fn behind_key(alloc: Global, tables: &Tables, spot: &Spot, keys: &TypeNode) -> Result<Spot, Memory>
    ensures root { IfOk result (λ inner. inner.root ≡ spot.now.root) }
    ensures at { (path : List KindStep) → IsAt (tables_view tables.now) path spot.now
        → IfOk result (IsAt (tables_view tables.now) (path ++ key (kind_of (tables_view tables.now).names
        (type_view keys.now)) ∷ [])) }
{
    let ty = tables.written(keys)?;
    spot.at_key(alloc, ty)
}

impl Members {
    /// Adds an operation at the end of the path.
    fn add_op(
        &mut self,
        alloc: Global,
        tables: &Tables,
        spot: &Spot,
        kind: OpKind,
        member: Member,
    ) -> Result<(), Memory>
        ensures { (path : List KindStep) → IsAt (tables_view tables.now) path spot.now
            → objects.op_kind (does_view member.entry.does) ≡ Some kind
            → OnOk result (DeclaresOwn (tables_view tables.now) spot.now.root path
            (member_view (tables_view tables.now).names member.entry ∷ []) self.old self.new) }
    {
        let path = copy_list(alloc, spot.path.as_slice())?;
        let keys = copy_list(alloc, spot.keys.as_slice())?;
        let args = with_args(tables, keys, member)?;
        self.ops.push(OpDecl {
            root: spot.root,
            path,
            kind,
            args,
        })
    }

    /// Adds a query at the end of the path.
    fn add_query(
        &mut self,
        alloc: Global,
        tables: &Tables,
        spot: &Spot,
        kind: QueryKind,
        member: Member,
    ) -> Result<(), Memory>
        ensures { (path : List KindStep) → IsAt (tables_view tables.now) path spot.now
            → objects.query_kind (does_view member.entry.does) ≡ Some kind
            → OnOk result (DeclaresOwn (tables_view tables.now) spot.now.root path
            (member_view (tables_view tables.now).names member.entry ∷ []) self.old self.new) }
    {
        let path = copy_list(alloc, spot.path.as_slice())?;
        let keys = copy_list(alloc, spot.keys.as_slice())?;
        let args = with_args(tables, keys, member)?;
        let gives = member_kind(tables.names(), member)?;
        let result = tables.ty_of(gives)?;
        self.queries.push(QueryDecl {
            root: spot.root,
            path,
            kind,
            args,
            result,
        })
    }

    /// Adds what does this, over this type, at the end of the path.
    fn add_member(
        &mut self,
        alloc: Global,
        tables: &Tables,
        spot: &Spot,
        does: &Does,
        over: Option<&TypeNode>,
    ) -> Result<(), Memory>
        ensures { (path : List KindStep) → IsAt (tables_view tables.now) path spot.now
            → OnOk result (DeclaresOwn (tables_view tables.now) spot.now.root path
            (member_over (written_kind (tables_view tables.now).names over.entry) does.now ∷ []) self.old self.new) }
    {
        let member = Member { does: *does, over };
        match op_kind(*does) {
            Some(kind) => self.add_op(alloc, tables, spot, kind, member),
            None => match query_kind(*does) {
                Some(kind) => self.add_query(alloc, tables, spot, kind, member),
                None => Ok(()),
            },
        }
    }

    /// Adds what does each of these, over this type.
    fn add_members(
        &mut self,
        alloc: Global,
        tables: &Tables,
        spot: &Spot,
        all: &[Does],
        over: Option<&TypeNode>,
    ) -> Result<(), Memory>
        ensures { (path : List KindStep) → IsAt (tables_view tables.now) path spot.now
            → OnOk result (DeclaresOwn (tables_view tables.now) spot.now.root path
            (map (member_over (written_kind (tables_view tables.now).names over.entry)) all.now) self.old self.new) }
    {
        for does in all {
            self.add_member(alloc, tables, spot, does, over)?;
        }
        Ok(())
    }

    /// Adds what a type has itself.
    fn add_own(
        &mut self,
        alloc: Global,
        tables: &Tables,
        spot: &Spot,
        crdt: &CrdtNode,
    ) -> Result<(), Memory>
        ensures { (path : List KindStep) → IsAt (tables_view tables.now) path spot.now
            → OnOk result (DeclaresOwn (tables_view tables.now) spot.now.root path
            (rules.members_of (tables_view tables.now).names (rules.form_of (crdt_view crdt.now))) self.old self.new) }
    {
        let all = type_terms::members_of(crdt);
        self.add_members(alloc, tables, spot, all, data_of(crdt))
    }

    #[cycle(members)]
    fn add_fields(
        &mut self,
        alloc: Global,
        tables: &Tables,
        spot: &Spot,
        fields: &[FieldNode],
    ) -> Result<(), Memory>
        ensures { (path : List KindStep) → IsAt (tables_view tables.now) path spot.now
            → OnOk result (DeclaresFields (tables_view tables.now) spot.now.root path 0 (fields_view fields.now) self.old self.new) }
    {
        let mut number: u32 = 0;
        for field in fields {
            let inner = spot.at_field(alloc, number)?;
            self.add_crdt(alloc, tables, &inner, &field.crdt)?;
            number = sum(number, 1)?;
        }
        Ok(())
    }

    #[cycle(members)]
    fn add_inside(
        &mut self,
        alloc: Global,
        tables: &Tables,
        spot: &Spot,
        form: &CrdtForm,
    ) -> Result<(), Memory>
        ensures { (path : List KindStep) → IsAt (tables_view tables.now) path spot.now
            → OnOk result (DeclaresInside (tables_view tables.now) spot.now.root path (crdt_form_view form.now) self.old self.new) }
    {
        match form {
            CrdtForm::MapUw(keys, held) => {
                let inner = behind_key(alloc, tables, spot, keys)?;
                self.add_crdt(alloc, tables, &inner, held.get())
            }
            CrdtForm::MapDw(keys, held) => {
                let inner = behind_key(alloc, tables, spot, keys)?;
                self.add_crdt(alloc, tables, &inner, held.get())
            }
            CrdtForm::Struct(fields) => self.add_fields(alloc, tables, spot, fields.as_slice()),
            CrdtForm::SetAw(_) => Ok(()),
            CrdtForm::SetRw(_) => Ok(()),
            CrdtForm::Reg(_) => Ok(()),
            CrdtForm::MvReg(_) => Ok(()),
            CrdtForm::Counter => Ok(()),
        }
    }

    /// Adds what stands on a type and on its parts.
    #[cycle(members)]
    fn add_crdt(
        &mut self,
        alloc: Global,
        tables: &Tables,
        spot: &Spot,
        crdt: &CrdtNode,
    ) -> Result<(), Memory>
        ensures { (path : List KindStep) → IsAt (tables_view tables.now) path spot.now
            → OnOk result (DeclaresOn (tables_view tables.now) spot.now.root path (crdt_view crdt.now) self.old self.new) }
    {
        self.add_own(alloc, tables, spot, crdt)?;
        self.add_inside(alloc, tables, spot, &crdt.what)
    }

    /// Adds what stands on the root that a declaration declares, if it declares one, which has this number.
    fn add_decl(
        &mut self,
        alloc: Global,
        tables: &Tables,
        root: u32,
        decl: &Decl,
    ) -> Result<(), Memory>
        ensures { OnOk result (DeclaresRoots (tables_view tables.now) root (roots_in (decl_view decl.now ∷ [])) self.old self.new) }
    {
        match &decl.what {
            DeclForm::Crdt(_, crdt) => {
                let spot = Spot::at_root(alloc, root);
                self.add_crdt(alloc, tables, &spot, crdt)
            }
            DeclForm::IdType(_) => Ok(()),
            DeclForm::Opaque(_) => Ok(()),
            DeclForm::Datatype(_, _) => Ok(()),
            DeclForm::Query(_) => Ok(()),
            DeclForm::Invariant(_, _) => Ok(()),
            DeclForm::Proc(_) => Ok(()),
        }
    }
}

/// How many roots a declaration declares.
fn root_count(decl: &Decl) -> u32
    ensures { result ≡ length (roots_in (decl_view decl.now ∷ [])) }
{
    match &decl.what {
        DeclForm::Crdt(_, _) => 1,
        DeclForm::IdType(_) => 0,
        DeclForm::Opaque(_) => 0,
        DeclForm::Datatype(_, _) => 0,
        DeclForm::Query(_) => 0,
        DeclForm::Invariant(_, _) => 0,
        DeclForm::Proc(_) => 0,
    }
}

/// The tables of operations and queries. `Err` is also that a type has no number.
pub fn members_of(alloc: Global, tables: &Tables, decls: &[Decl]) -> Result<Members, Memory>
    requires { (tables_view tables.now).names ≡ names_of (decls_view decls.now) }
    ensures ops { IfOk result (λ members. spec.op_table (tables_view tables.now) ≡ Some members.ops) }
    ensures queries { IfOk result (λ members. spec.query_table (tables_view tables.now) ≡ Some members.queries) }
{
    let ops = only_tx(alloc)?;
    let mut members = Members {
        ops,
        queries: List::new(alloc),
    };
    let mut root: u32 = 0;
    for decl in decls {
        members.add_decl(alloc, tables, root, decl)?;
        root = sum(root, root_count(decl))?;
    }
    Ok(members)
}
