//! A test of the bodies of a text's queries.

ghost use Rattle.std.specs.Prelude.{◌≡◌, ◌↔◌, IsTrue, List};
ghost use Rattle.rp_grammar.specs.Trees.{DeclTree};
ghost use Rattle.query_bodies.specs.Seen.{known_in, saids_in};
ghost use Rattle.query_laws.specs.Told.{AreAdded, AreMeasured};
ghost use Rattle.lower_exprs.specs.Sound.{AreSound, is_sound_at};

use crate::sound::is_sound;
use query_bodies::Bodies;
use query_laws::bodies_are_measured;
use rp_value::ConTable;

/// Whether the body of the query of this declaration, if it is one, is sound over its parameters.
fn body_is_sound(cons: &ConTable, bodies: &Bodies, decl: u32) -> bool
    ensures { result ≡ is_sound_at cons.now bodies.now decl }
{
    match bodies.body(decl) {
        Some(body) => is_sound(cons, bodies, bodies.params_of(decl), body),
        None => true,
    }
}

/// Whether the bodies of all queries are sound over their parameters. Those of a text are measured then.
pub fn are_sound(cons: &ConTable, bodies: &Bodies) -> bool
    ensures sound { IsTrue result ↔ AreSound cons.now bodies.now }
    ensures measured { (tree : List DeclTree) → IsTrue result
        → AreAdded tree (saids_in bodies.now) (known_in bodies.now)
        → AreMeasured cons.now (saids_in bodies.now) (known_in bodies.now) }
{
    bodies_are_measured();
    for decl in 0..bodies.count() {
        if !body_is_sound(cons, bodies, decl) {
            return false;
        }
    }
    true
}
