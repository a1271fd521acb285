//! The names in the turn town.
ghost use Rattle.std.specs.Prelude.{◌≡◌, ◌<◌, ◌∷◌, ◌++◌, codes, true, IfOk};
ghost use Rattle.std.specs.String.{string_bytes};
ghost use Rattle.wrp_town.specs.Names.{is_name};
ghost use Rattle.wrp_turn.specs.TurnTowns.{arc_text as text_of_arc, turn_text, arc_limit};

use std::alloc::{AllocError, Global};
use wrp_town::Name;

/// An arc as a proof writes its step.
fn arc_text(alloc: Global, arc: u32) -> Result<String, AllocError>
    ensures { IfOk result (λ text. string_bytes text ≡ text_of_arc arc) }
{
    let street = arc / 2;
    if arc % 2 == 1 {
        format!(in alloc; "{street}-")
    } else {
        format!(in alloc; "{street}+")
    }
}

/// A text that is a name.
fn name_of(alloc: Global, text: &str) -> Result<Name, AllocError>
    requires { is_name text.now ≡ true }
    ensures { IfOk result (λ name. name ≡ text.now) }
{
    Ok(Name::new(alloc, text.as_bytes())?.unwrap())
}

/// The name of the junction before an arc.
#[tactic(auto, using(crate::proofs::TurnNames::before_named))]
pub(crate) fn before_name(alloc: Global, arc: u32) -> Result<Name, AllocError>
    requires { arc < arc_limit }
    ensures { IfOk result (λ name. name ≡ text_of_arc arc ++ codes "i") }
{
    let step = arc_text(alloc, arc)?;
    name_of(alloc, format!(in alloc; "{step}i")?.as_str())
}

/// The name of the junction behind an arc.
#[tactic(auto, using(crate::proofs::TurnNames::behind_named))]
pub(crate) fn behind_name(alloc: Global, arc: u32) -> Result<Name, AllocError>
    requires { arc < arc_limit }
    ensures { IfOk result (λ name. name ≡ text_of_arc arc ++ codes "o") }
{
    let step = arc_text(alloc, arc)?;
    name_of(alloc, format!(in alloc; "{step}o")?.as_str())
}

/// The name of a turn.
#[tactic(auto, using(crate::proofs::TurnNames::turn_named))]
pub(crate) fn turn_name(alloc: Global, first: u32, second: u32) -> Result<Name, AllocError>
    requires first { first < arc_limit }
    requires second { second < arc_limit }
    ensures { IfOk result (λ name. name ≡ turn_text (first, second)) }
{
    let before = arc_text(alloc, first)?;
    let behind = arc_text(alloc, second)?;
    name_of(alloc, format!(in alloc; "{before} {behind}")?.as_str())
}
