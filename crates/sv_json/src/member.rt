//! Members of objects, by their names.
ghost use Rattle.std.specs.Prelude.{◌≡◌};
ghost use Rattle.serde_json.specs.View.{view};
ghost use Rattle.sv_json.specs.Form.{both_or_neither, has, maybe, member, or_else};

use crate::found::{Flaw, Found};
use crate::part::Part;
use serde_json::Value;

/// Whether there is a member of this name.
#[tactic(auto, unfolding(crate::specs::Form::has))]
pub fn has_member(value: &Value, name: &str) -> bool
    ensures { result ≡ has name.now (view value.now) }
{
    value.get(name).is_some()
}

/// The member of this name, in the form of P.
#[tactic(auto, unfolding(crate::specs::Form::member))]
pub fn part_at<P: Part>(value: &Value, name: &str) -> Found<P::Made>
    ensures { result ≡ member name.now P.form (view value.now) }
{
    match value.get(name) {
        Some(found) => P::read(found),
        None => P::read(&Value::Null),
    }
}

/// The member of this name, in the form of P, or None where it is missing.
#[tactic(auto, unfolding(crate::specs::Form::maybe))]
pub fn maybe_at<P: Part>(value: &Value, name: &str) -> Found<Option<P::Made>>
    ensures { result ≡ maybe name.now P.form (view value.now) }
{
    match value.get(name) {
        Some(found) => {
            let Found { flaw, value } = P::read(found);
            Found {
                flaw,
                value: Some(value),
            }
        }
        None => Found {
            flaw: Flaw::Fine,
            value: None,
        },
    }
}

/// The member of this name, in the form of P, which says `default` where it is missing.
#[tactic(auto, unfolding(crate::specs::Form::or_else))]
pub fn or_at<P: Part>(value: &Value, name: &str, default: P::Made) -> Found<P::Made>
    ensures { result ≡ or_else name.now P.form default (view value.now) }
{
    match value.get(name) {
        Some(found) => P::read(found),
        None => Found {
            flaw: Flaw::Fine,
            value: default,
        },
    }
}

/// The members of these two names, which are both there or neither.
#[tactic(auto, unfolding(crate::specs::Form::both_or_neither))]
pub fn pair_at<A: Part, B: Part>(
    value: &Value,
    name: &str,
    other_name: &str,
) -> Found<Option<(A::Made, B::Made)>>
    ensures { result ≡ both_or_neither name.now A.form other_name.now B.form (view value.now) }
{
    if has_member(value, name) || has_member(value, other_name) {
        let one = part_at::<A>(value, name);
        let other = part_at::<B>(value, other_name);
        Found {
            flaw: one.flaw.least(other.flaw),
            value: Some((one.value, other.value)),
        }
    } else {
        Found {
            flaw: Flaw::Fine,
            value: None,
        }
    }
}
