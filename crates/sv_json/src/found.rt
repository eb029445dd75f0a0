//! What is found of a part of a line: a flaw, or none and a value.
ghost use Rattle.std.specs.Prelude.{◌≡◌, ℕ};
ghost use Rattle.sv_json.specs.Flaw.{least, number_of};
ghost use Rattle.sv_json.specs.Form as spec;

/// What is wrong with a part of a line, in the order of the refusals.
#[derive(Clone, Copy)]
pub enum Flaw {
    Shape,
    Name,
    Range,
    Fine,
}

/// What a part of a line says, and what is wrong with it: where its flaw is not `Fine`, `value` is
/// of no account.
#[derive(Clone, Copy, Drop)]
pub struct Found<T> {
    pub flaw: Flaw,
    pub value: T,
}

impl Flaw {
    /// The flaw of a whole with two parts.
    #[tactic(auto, unfolding(crate::specs::Flaw::least))]
    pub fn least(self, other: Flaw) -> Flaw
        ensures { result ≡ least self other }
    {
        if self.number() <= other.number() {
            self
        } else {
            other
        }
    }

    fn number(self) -> u8
        ensures { result ≡ number_of self }
    {
        match self {
            Flaw::Shape => 2,
            Flaw::Name => 3,
            Flaw::Range => 4,
            Flaw::Fine => 5,
        }
    }
}

/// No flaw where the test holds, else this one.
#[tactic(auto, unfolding(crate::specs::Form::unless))]
pub fn unless(test: bool, flaw: Flaw) -> Flaw
    ensures { result ≡ spec.unless test flaw }
{
    if test { Flaw::Fine } else { flaw }
}
