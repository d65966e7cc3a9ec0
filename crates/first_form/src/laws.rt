// Laws of the first form. The functions do nothing; what they ensure is proved.
ghost use Rattle.std.specs.Prelude.{◌⊎◌};
ghost use Rattle.rp_lang.specs.FirstForm.{IsFirstForm};
ghost use Rattle.rp_lang.specs.Programs.{Prog};

/// Each program is of the first form, or it isn't: which it is can be tested.
pub fn first_form_is_decided()
    ensures { (p : Prog) → IsFirstForm p ⊎ (IsFirstForm p → ⊥) }
{}
