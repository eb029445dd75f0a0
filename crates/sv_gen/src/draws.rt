//! Draws of a linear congruential generator.
ghost use Rattle.std.specs.Prelude.{◌≡◌, ◌<◌};
ghost use Rattle.sv_gen.specs.Draws.{next_state, state_after, drawn};

// What the draws of one work give.
#[derive(Clone, Copy)]
pub(crate) struct Work {
    pub(crate) place: u64,
    pub(crate) b: u64,
    pub(crate) c: u64,
}

#[derive(Drop)]
pub(crate) struct Draws {
    pub(crate) state: u64,
}

impl Draws {
    pub(crate) fn new(seed: u64) -> Draws
        ensures { result.state ≡ seed }
    {
        Draws { state: seed }
    }

    // A number below `n`.
    #[tactic(auto, using(crate::proofs::States::next_state_steps, std::proofs::lemmas::Nat::mod_below), unfolding(crate::specs::Draws::drawn))]
    pub(crate) fn draw(&mut self, n: u64) -> u64
        requires { 0 < n }
        ensures state { self.new.state ≡ next_state self.old.state }
        ensures value { result ≡ drawn self.new.state n }
        ensures below { result < n }
    {
        self.state = self
            .state
            .wrapping_mul(6364136223846793005)
            .wrapping_add(1442695040888963407);
        (self.state >> 33) % n
    }

    // A work's place, whether it reads or writes, and whether a barrier follows, in this order.
    #[tactic(auto, unfolding(crate::specs::Draws::state_after))]
    pub(crate) fn draw_work(&mut self) -> Work
        ensures place { result.place ≡ drawn (state_after self.old.state 1) 4096 }
        ensures b { result.b ≡ drawn (state_after self.old.state 2) 2 }
        ensures c { result.c ≡ drawn (state_after self.old.state 3) 4 }
        ensures state { self.new.state ≡ state_after self.old.state 3 }
        ensures fits { result.place < 4096 }
    {
        let place = self.draw(4096);
        let b = self.draw(2);
        let c = self.draw(4);
        Work { place, b, c }
    }
}
