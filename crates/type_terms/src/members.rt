//! The operations and the queries that replicated types have themselves.

ghost use Rattle.std.specs.Prelude.{◌≡◌, IfOk, drop, find, length, map};
ghost use Rattle.std.specs.Option.{option_map};
ghost use Rattle.rp_ast.specs.View.{crdt_view};
ghost use Rattle.type_rules.specs.declared.kind.Kind.{Kind as TheKind};
ghost use Rattle.type_rules.specs.Names.{Names, same_name};
ghost use Rattle.type_rules.specs.Matches.{first_kind};
ghost use Rattle.type_rules.specs.Paths as spec;
ghost use Rattle.type_terms.specs.Members.{data_kind, does_view, member_over, member_view, written_kind};
ghost use Rattle.text_names.specs.Declarations.{names_view};

use rp_ast::{CrdtForm, CrdtNode, TypeNode};
use rp_value::Memory;
use text_names::TextNames;
use type_rules::{Base, Kind};
use type_tables::{BOOL_KIND, INT_KIND, UNKNOWN_KIND, maybe_of, plain_kind};

/// What the operations and the queries of replicated types do.
#[derive(Clone, Copy, PartialEq, Eq)]
pub enum Does {
    Adds,
    Removes,
    Assigns,
    Increments,
    Deletes,
    /// Whether a set or a register holds a value.
    Contains,
    /// Whether a map has a key.
    HasKey,
    /// The value of a register, if it has one.
    GetsValue,
    /// The sum of a counter.
    GetsSum,
}

/// An operation or a query of the store. What it takes and gives is over the type that is written here.
#[derive(Clone, Copy)]
pub struct Member<'a> {
    pub does: Does,
    /// The type of the elements, of the value or of the keys. A counter writes none, and is over
    /// whole numbers.
    pub over: Option<&'a TypeNode>,
}

/// Whether it changes the store.
pub fn is_operation(does: Does) -> bool
    ensures { result ≡ spec.is_operation (does_view does) }
{
    match does {
        Does::Adds | Does::Removes | Does::Assigns | Does::Increments | Does::Deletes => true,
        Does::Contains | Does::HasKey | Does::GetsValue | Does::GetsSum => false,
    }
}

/// Whether it is a query that holds or not.
pub(crate) fn is_question(does: Does) -> bool
    ensures { result ≡ spec.is_question (does_view does) }
{
    match does {
        Does::Contains | Does::HasKey => true,
        Does::Adds
        | Does::Removes
        | Does::Assigns
        | Does::Increments
        | Does::Deletes
        | Does::GetsValue
        | Does::GetsSum => false,
    }
}

fn name_of(does: Does) -> &'static [u8]
    ensures { (k : TheKind) → result.now ≡ (member_over k does).name }
{
    match does {
        Does::Adds => b"add",
        Does::Removes => b"remove",
        Does::Assigns => b"assign",
        Does::Increments => b"increment",
        Does::Deletes => b"delete",
        Does::Contains => b"contains",
        Does::HasKey => b"contains",
        Does::GetsValue => b"get",
        Does::GetsSum => b"get",
    }
}

/// What a replicated type has itself.
pub fn members_of(crdt: &CrdtNode) -> &'static [Does]
    ensures { (n : Names) → map (member_over (data_kind n (crdt_view crdt.now))) result.now
        ≡ spec.members_of n (spec.form_of (crdt_view crdt.now)) }
{
    match &crdt.what {
        CrdtForm::SetAw(_) => &[Does::Adds, Does::Removes, Does::Contains],
        CrdtForm::SetRw(_) => &[Does::Adds, Does::Removes, Does::Contains],
        CrdtForm::Reg(_) => &[Does::Assigns, Does::GetsValue],
        CrdtForm::MvReg(_) => &[Does::Assigns, Does::Contains],
        CrdtForm::Counter => &[Does::Increments, Does::GetsSum],
        CrdtForm::MapUw(_, _) => &[Does::Deletes, Does::HasKey],
        CrdtForm::MapDw(_, _) => &[Does::Deletes, Does::HasKey],
        CrdtForm::Struct(_) => &[],
    }
}

/// The type that the members of a replicated type are over, where it writes one.
pub fn data_of(crdt: &CrdtNode) -> Option<&TypeNode>
    ensures { (n : Names) → written_kind n result ≡ data_kind n (crdt_view crdt.now) }
{
    match &crdt.what {
        CrdtForm::SetAw(ty) => Some(ty),
        CrdtForm::SetRw(ty) => Some(ty),
        CrdtForm::Reg(ty) => Some(ty),
        CrdtForm::MvReg(ty) => Some(ty),
        CrdtForm::MapUw(ty, _) => Some(ty),
        CrdtForm::MapDw(ty, _) => Some(ty),
        CrdtForm::Counter => None,
        CrdtForm::Struct(_) => None,
    }
}

/// The first of this name.
fn named(all: &[Does], name: &[u8]) -> Option<Does>
    ensures { (k : TheKind) → option_map (member_over k) result
        ≡ find (λ m. same_name m.name name.now) (map (member_over k) all.now) }
{
    for does in all {
        if name_of(*does) == name {
            return Some(*does);
        }
    }
    None
}

/// The operation or query of this name that a replicated type has itself.
pub(crate) fn member_of<'a>(crdt: &'a CrdtNode, name: &[u8]) -> Option<Member<'a>>
    ensures { (n : Names) → option_map (member_view n) result
        ≡ spec.member_of n (crdt_view crdt.now) name.now }
{
    match named(members_of(crdt), name) {
        Some(does) => Some(Member {
            does,
            over: data_of(crdt),
        }),
        None => None,
    }
}

/// The type that it is over.
pub fn kind_over(names: &TextNames, member: Member) -> Result<Kind, Memory>
    ensures { IfOk result (λ kind. kind ≡ written_kind (names_view names.now) member.entry.over) }
{
    match member.over {
        Some(ty) => names.kind_of(ty),
        None => Ok(INT_KIND),
    }
}

/// The type of an operation, or of what a query answers.
pub fn member_kind(names: &TextNames, member: Member) -> Result<Kind, Memory>
    ensures { IfOk result (λ kind. kind ≡ (member_view (names_view names.now) member.entry).result) }
{
    match member.does {
        Does::Adds | Does::Removes | Does::Assigns | Does::Increments | Does::Deletes => {
            Ok(plain_kind(Base::Operation))
        }
        Does::Contains | Does::HasKey => Ok(BOOL_KIND),
        Does::GetsValue => maybe_of(kind_over(names, member)?),
        Does::GetsSum => kind_over(names, member),
    }
}

/// How many arguments it takes.
pub fn member_takes(member: Member) -> usize
    ensures { (n : Names) → result ≡ length (member_view n member.entry).args }
{
    match member.does {
        Does::GetsValue | Does::GetsSum => 0,
        Does::Adds
        | Does::Removes
        | Does::Assigns
        | Does::Increments
        | Does::Deletes
        | Does::Contains
        | Does::HasKey => 1,
    }
}

/// The type of an argument, by its place. One too many has no known type.
pub(crate) fn member_arg(names: &TextNames, member: Member, place: usize) -> Result<Kind, Memory>
    ensures { IfOk result (λ kind. kind
        ≡ first_kind (drop place (member_view (names_view names.now) member.entry).args)) }
{
    if place < member_takes(member) {
        kind_over(names, member)
    } else {
        Ok(UNKNOWN_KIND)
    }
}
