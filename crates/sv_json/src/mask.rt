//! Masks: names that are joined.
ghost use Rattle.std.specs.Prelude.{◌≡◌};
ghost use Rattle.serde_json.specs.View.{view, items_view};
ghost use Rattle.sv_json.specs.Form.{found, items_flaw, items_say, joined, mask, member};

use crate::found::{Flaw, Found};
use crate::part::Joined;
use serde_json::Value;

fn join_items<J: Joined>(items: &[Value]) -> Found<J::Made>
    ensures { result ≡ found (items_flaw J.form (items_view items.now))
        (joined J.join J.none (items_say J.form (items_view items.now))) }
{
    let mut flaw = Flaw::Fine;
    let mut whole = J::none();
    for item in items {
        let part = J::read(item);
        flaw = flaw.least(part.flaw);
        whole = J::join(whole, part.value);
    }
    Found { flaw, value: whole }
}

#[tactic(auto, unfolding(crate::specs::Form::mask))]
fn read_mask<J: Joined>(value: &Value) -> Found<J::Made>
    ensures { result ≡ mask J.join J.none J.form (view value.now) }
{
    match value.as_array() {
        Some(items) => join_items::<J>(items),
        None => Found {
            flaw: Flaw::Shape,
            value: J::none(),
        },
    }
}

/// The member of this name, a list of names that are joined.
#[tactic(auto, unfolding(crate::specs::Form::member))]
pub fn mask_at<J: Joined>(value: &Value, name: &str) -> Found<J::Made>
    ensures { result ≡ member name.now (mask J.join J.none J.form) (view value.now) }
{
    match value.get(name) {
        Some(found) => read_mask::<J>(found),
        None => read_mask::<J>(&Value::Null),
    }
}
