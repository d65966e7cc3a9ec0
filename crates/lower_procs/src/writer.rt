//! The slots of a procedure, and the variables that stand for them.

ghost use Rattle.std.specs.Prelude.{◌≡◌, ◌∷◌, [], IfOk, OnOk, Some, length};
ghost use Rattle.rp_lang.specs.Exprs.{Ex};
ghost use Rattle.rp_ast.specs.View as tree;
ghost use Rattle.type_rules.specs.Kinds.{param_kinds};
ghost use Rattle.type_rules.specs.Matches.{bound_var, pattern_kinds, pattern_name, pattern_vars};
ghost use Rattle.type_rules.specs.Names.{param_name, text_of};
ghost use Rattle.reading.specs.declared.reader.Known.TheVariants as known;
ghost use Rattle.reading.specs.Reads.{with_var};
ghost use Rattle.desugaring.specs.Callees.{Stand, stand_named};
ghost use Rattle.desugaring.specs.Statements as spec;
ghost use Rattle.desugaring.specs.Tables.{up_from};
ghost use Rattle.std.specs.Prelude.{map};
ghost use Rattle.lower_exprs.specs.Making.{AreMeasuredIn, IsReady};
ghost use Rattle.lower_procs.specs.Writing.{HaveSlots, sight_in, vars_of, with_slots};

use lower_exprs::{Maker, Passed, Work};
use reading::Known;
use rp_ast::{Ident, Param, PatternNode};
use rp_value::{List, Memory, Ty};
use type_rules::Kind;

/// The procedure and the block in which a statement stands.
#[derive(Clone, Copy)]
pub(crate) struct Frame {
    pub(crate) result: Option<Kind>,
    pub(crate) inside_atomic: bool,
}

/// Makes the statements of a procedure.
#[derive(Drop)]
pub(crate) struct Writer<'t, 'n, 'a> {
    pub(crate) maker: Maker<'t, 'n, 'a>,
    /// The types of the slots so far. The next slot has the next number.
    pub(crate) slots: List<Ty>,
}

impl<'t, 'n, 'a> Writer<'t, 'n, 'a> {
    pub(crate) fn new(work: Work<'t, 'n, 'a>, passed: Passed) -> Writer<'t, 'n, 'a>
        ensures work { result.maker.work ≡ work.entry }
        ensures passed { result.maker.passed ≡ passed }
        ensures vars { result.maker.reader.vars ≡ [] }
        ensures ready { AreMeasuredIn work.entry → IsReady result.maker }
        ensures slots { result.slots ≡ [] }
    {
        Writer {
            maker: Maker::new(work, passed),
            slots: List::new(work.alloc),
        }
    }

    /// A further slot of this type.
    pub(crate) fn slot(&mut self, kind: Kind) -> Result<u32, Memory>
        ensures number { IfOk result (λ slot. slot ≡ length self.old.slots) }
        ensures slots { OnOk result (HaveSlots self.old (kind ∷ []) self.new) }
        ensures maker { OnOk result (self.new.maker ≡ self.old.maker) }
    {
        let slot = self.slots.count();
        let ty = self.maker.reader.tables.ty_of(kind)?;
        self.slots.push(ty)?;
        Ok(slot)
    }

    /// A variable comes in sight, in a slot of its own.
    pub(crate) fn declare(&mut self, name: &'a Ident, kind: Kind) -> Result<u32, Memory>
        ensures number { IfOk result (λ slot. slot ≡ length self.old.slots) }
        ensures slots { OnOk result (HaveSlots self.old (kind ∷ []) self.new) }
        ensures maker { OnOk result (self.new.maker ≡ record self.old.maker {
          reader = with_var self.old.maker.reader (bound_var (tree.ident_view name.now) kind)
              (known.Slot (length self.old.slots));
        }) }
    {
        let slot = self.slot(kind)?;
        self.maker.reader.bind(name, kind, Known::Slot(slot))?;
        Ok(slot)
    }

    /// The variables of a pattern come in sight, each in a slot of its own.
    pub(crate) fn declare_all(
        &mut self,
        kind: Kind,
        pattern: &'a PatternNode,
    ) -> Result<List<u32>, Memory>
        ensures numbers { IfOk result (λ slots. slots ≡ up_from (length self.old.slots)
            (length (pattern_vars (tree.pattern_view pattern.now)))) }
        ensures slots { OnOk result (HaveSlots self.old
            (spec.pattern_slots (sight_in self.old).tables.names kind (tree.pattern_view pattern.now)) self.new) }
        ensures maker { OnOk result (self.new.maker ≡ record self.old.maker {
          reader = with_slots self.old.maker.reader (length self.old.slots)
              (pattern_vars (tree.pattern_view pattern.now))
              (pattern_kinds (sight_in self.old).tables.names kind (pattern_name (tree.pattern_view pattern.now)));
        }) }
    {
        let mut slots = List::new(self.maker.work.alloc);
        let vars = pattern.vars.as_slice();
        for (place, var) in vars.iter().enumerate() {
            let field = self
                .maker
                .reader
                .field(kind, pattern.con.text.as_slice(), place)?;
            let slot = self.declare(var, field)?;
            slots.push(slot)?;
        }
        Ok(slots)
    }

    /// The parameters of a procedure come in sight, each in a slot of its own.
    pub(crate) fn declare_params(&mut self, params: &'a [Param]) -> Result<(), Memory>
        ensures slots { OnOk result (HaveSlots self.old
            (param_kinds (sight_in self.old).tables.names (tree.params_view params.now)) self.new) }
        ensures maker { OnOk result (self.new.maker ≡ record self.old.maker {
          reader = with_slots self.old.maker.reader (length self.old.slots)
              (map param_name (tree.params_view params.now))
              (param_kinds (sight_in self.old).tables.names (tree.params_view params.now));
        }) }
    {
        for param in params {
            let kind = self.maker.reader.names().kind_of(&param.ty)?;
            let _slot = self.declare(&param.name, kind)?;
        }
        Ok(())
    }

    /// The slot of a variable.
    pub(crate) fn slot_of(&self, name: &Ident) -> Result<u32, Memory>
        ensures { IfOk result (λ slot. (s : Stand Ex)
            → stand_named (vars_of self.now) (text_of (tree.ident_view name.now)) ≡ Some s → spec.slot_for s ≡ Some slot) }
    {
        let known = self.maker.reader.known(name.text.as_slice())?;
        match known {
            Known::Slot(slot) => Ok(slot),
            Known::Param(_) => Err(Memory),
            Known::Level(_) => Err(Memory),
        }
    }

    /// The type of a variable.
    pub(crate) fn kind_of(&self, name: &Ident) -> Result<Kind, Memory>
        ensures { IfOk result (λ kind. IsReady self.now.maker → (s : Stand Ex)
            → stand_named (vars_of self.now) (text_of (tree.ident_view name.now)) ≡ Some s → s.kind ≡ kind) }
    {
        match self.maker.reader.vars.find(name.text.as_slice()) {
            Some(var) => Ok(var.kind),
            None => Err(Memory),
        }
    }
}
