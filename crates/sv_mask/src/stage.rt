//! Pipeline stages, and sets of them.
ghost use Rattle.std.specs.Prelude.{⊤, ◌≡◌, ◌<◌, ◌^◌, [], ◌∷◌, codes, ◌↔◌, ◌||◌, IsTrue};
ghost use Rattle.std.specs.Int.RustNames.{bit_or};
ghost use Rattle.sv_mask.specs.Sets.{Has, Includes, Meets};
ghost use Rattle.sv_mask.specs.Names.{stage_word};
ghost use Rattle.sv_mask.specs.Scopes.{with_signal};
ghost use Rattle.sv_mask.specs.Usages.{stage_number};

use bitflags::{Flag, Flags, bitflag_items};

/// The 17 plain pipeline stages, in the order of their bits (Vulkan, "Pipeline Stages").
#[derive(Clone, Copy, PartialEq)]
pub enum Stage {
    DrawIndirect,
    IndexInput,
    VertexAttributeInput,
    VertexShader,
    TessellationControlShader,
    TessellationEvaluationShader,
    GeometryShader,
    EarlyFragmentTests,
    FragmentShader,
    LateFragmentTests,
    ColorAttachmentOutput,
    ComputeShader,
    Copy,
    Resolve,
    Blit,
    Clear,
    Host,
}

impl Stage {
    /// The place of the stage in the order of the stages, from 0 to 16.
    pub fn number(self) -> u32
        ensures place { result ≡ stage_number self }
        ensures small { result < 17 }
    {
        match self {
            Stage::DrawIndirect => 0,
            Stage::IndexInput => 1,
            Stage::VertexAttributeInput => 2,
            Stage::VertexShader => 3,
            Stage::TessellationControlShader => 4,
            Stage::TessellationEvaluationShader => 5,
            Stage::GeometryShader => 6,
            Stage::EarlyFragmentTests => 7,
            Stage::FragmentShader => 8,
            Stage::LateFragmentTests => 9,
            Stage::ColorAttachmentOutput => 10,
            Stage::ComputeShader => 11,
            Stage::Copy => 12,
            Stage::Resolve => 13,
            Stage::Blit => 14,
            Stage::Clear => 15,
            Stage::Host => 16,
        }
    }
}

/// A set of stages as 18 bits: the plain stages in order, and the pseudo stage `signal`.
#[derive(Clone, Copy, PartialEq)]
pub struct Stages(pub u32);

bitflag_items! {
    impl Stages: u32 {
        const DRAW_INDIRECT = 1 << 0;
        const INDEX_INPUT = 1 << 1;
        const VERTEX_ATTRIBUTE_INPUT = 1 << 2;
        const VERTEX_SHADER = 1 << 3;
        const TESSELLATION_CONTROL_SHADER = 1 << 4;
        const TESSELLATION_EVALUATION_SHADER = 1 << 5;
        const GEOMETRY_SHADER = 1 << 6;
        const EARLY_FRAGMENT_TESTS = 1 << 7;
        const FRAGMENT_SHADER = 1 << 8;
        const LATE_FRAGMENT_TESTS = 1 << 9;
        const COLOR_ATTACHMENT_OUTPUT = 1 << 10;
        const COMPUTE_SHADER = 1 << 11;
        const COPY = 1 << 12;
        const RESOLVE = 1 << 13;
        const BLIT = 1 << 14;
        const CLEAR = 1 << 15;
        const HOST = 1 << 16;
        const SIGNAL = 1 << 17;
    }
}

impl Flags for Stages {
    type Bits = u32;

    ghost exact = { ⊤ };

    ghost table = { (codes "DRAW_INDIRECT", 1)
        ∷ (codes "INDEX_INPUT", 2)
        ∷ (codes "VERTEX_ATTRIBUTE_INPUT", 4)
        ∷ (codes "VERTEX_SHADER", 8)
        ∷ (codes "TESSELLATION_CONTROL_SHADER", 16)
        ∷ (codes "TESSELLATION_EVALUATION_SHADER", 32)
        ∷ (codes "GEOMETRY_SHADER", 64)
        ∷ (codes "EARLY_FRAGMENT_TESTS", 128)
        ∷ (codes "FRAGMENT_SHADER", 256)
        ∷ (codes "LATE_FRAGMENT_TESTS", 512)
        ∷ (codes "COLOR_ATTACHMENT_OUTPUT", 1024)
        ∷ (codes "COMPUTE_SHADER", 2048)
        ∷ (codes "COPY", 4096)
        ∷ (codes "RESOLVE", 8192)
        ∷ (codes "BLIT", 16384)
        ∷ (codes "CLEAR", 32768)
        ∷ (codes "HOST", 65536)
        ∷ (codes "SIGNAL", 131072)
        ∷ [] };

    ghost set_of = { λ s. s.0 };

    fn flags<'a>() -> &'a [Flag<Stages>] {
        Stages::FLAGS
    }

    fn bits(&self) -> u32 {
        self.0
    }

    fn from_bits_retain(bits: u32) -> Stages {
        Stages(bits)
    }
}

impl Stages {
    /// The set of one stage.
    pub fn of(stage: Stage) -> Stages
        ensures { result.0 ≡ 2 ^ stage_number stage }
    {
        Stages(1 << stage.number())
    }

    /// The stages of both sets.
    pub fn union(self, other: Stages) -> Stages
        ensures { result.0 ≡ bit_or self.0 other.0 }
    {
        Flags::union(self, other)
    }

    /// Whether some stage is in both sets.
    pub fn meets(self, other: Stages) -> bool
        ensures { IsTrue result ↔ Meets self.0 other.0 }
    {
        self.intersects(other)
    }

    /// Whether each stage of the other set is in this one.
    pub fn contains(self, other: Stages) -> bool
        ensures { IsTrue result ↔ Includes self.0 other.0 }
    {
        Flags::contains(&self, other)
    }

    /// Whether the set has no stage.
    pub fn is_empty(self) -> bool
        ensures { IsTrue result ↔ (self.0 ≡ 0) }
    {
        self.0 == 0
    }

    /// Whether the stage with this number is in the set; 17 is the pseudo stage `signal`.
    pub fn has(self, stage: u32) -> bool
        requires { stage < 32 }
        ensures { IsTrue result ↔ Has self.0 stage }
    {
        (self.0 >> stage) & 1 == 1
    }

    /// The set with the pseudo stage `signal`.
    pub fn with_signal(self) -> Stages
        ensures { result ≡ with_signal self }
    {
        Flags::union(self, Stages::SIGNAL)
    }
}

/// The stages that a mask names, as they are written.
#[derive(Clone, Copy, PartialEq)]
pub struct StageWord {
    pub plain: Stages,
    pub top: bool,
    pub bottom: bool,
}

impl StageWord {
    /// What a mask names that names one plain stage.
    pub fn of(stage: Stage) -> StageWord
        ensures { result ≡ stage_word (stage_number stage ∷ []) }
    {
        StageWord {
            plain: Stages::of(stage),
            top: false,
            bottom: false,
        }
    }

    /// What a mask names that has the names of both.
    pub fn union(self, other: StageWord) -> StageWord
        ensures { result ≡ record {
          plain = record { 0 = bit_or self.plain.0 other.plain.0 };
          top = self.top || other.top;
          bottom = self.bottom || other.bottom;
        } }
    {
        StageWord {
            plain: self.plain.union(other.plain),
            top: self.top || other.top,
            bottom: self.bottom || other.bottom,
        }
    }
}
