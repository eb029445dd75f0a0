//! Usages, and sets of them.
ghost use Rattle.std.specs.Prelude.{◌≡◌, ◌<◌, ◌↔◌, IsTrue, IfSome};
ghost use Rattle.std.specs.Option.{option_map};
ghost use Rattle.std.specs.Int.RustNames.{bit_or};
ghost use Rattle.sv_mask.specs.Sets.{Has, Includes, Meets};
ghost use Rattle.sv_mask.specs.Usages.{stage_number, access_number, usage_of};
ghost use Rattle.sv_mask.specs.Usages as spec;

use crate::access::Access16;
use crate::stage::Stage;

/// How many usages there are.
const COUNT: u8 = 43;

/// The stage of each usage, in order.
static STAGES: [Stage; 43] = [
    Stage::DrawIndirect,
    Stage::IndexInput,
    Stage::VertexAttributeInput,
    Stage::VertexShader,
    Stage::VertexShader,
    Stage::VertexShader,
    Stage::VertexShader,
    Stage::TessellationControlShader,
    Stage::TessellationControlShader,
    Stage::TessellationControlShader,
    Stage::TessellationControlShader,
    Stage::TessellationEvaluationShader,
    Stage::TessellationEvaluationShader,
    Stage::TessellationEvaluationShader,
    Stage::TessellationEvaluationShader,
    Stage::GeometryShader,
    Stage::GeometryShader,
    Stage::GeometryShader,
    Stage::GeometryShader,
    Stage::FragmentShader,
    Stage::FragmentShader,
    Stage::FragmentShader,
    Stage::FragmentShader,
    Stage::ComputeShader,
    Stage::ComputeShader,
    Stage::ComputeShader,
    Stage::ComputeShader,
    Stage::FragmentShader,
    Stage::ColorAttachmentOutput,
    Stage::ColorAttachmentOutput,
    Stage::EarlyFragmentTests,
    Stage::EarlyFragmentTests,
    Stage::LateFragmentTests,
    Stage::LateFragmentTests,
    Stage::Copy,
    Stage::Resolve,
    Stage::Blit,
    Stage::Copy,
    Stage::Resolve,
    Stage::Blit,
    Stage::Clear,
    Stage::Host,
    Stage::Host,
];

/// The access of each usage, in order.
static ACCESSES: [Access16; 43] = [
    Access16::IndirectCommandRead,
    Access16::IndexRead,
    Access16::VertexAttributeRead,
    Access16::UniformRead,
    Access16::ShaderSampledRead,
    Access16::ShaderStorageRead,
    Access16::ShaderStorageWrite,
    Access16::UniformRead,
    Access16::ShaderSampledRead,
    Access16::ShaderStorageRead,
    Access16::ShaderStorageWrite,
    Access16::UniformRead,
    Access16::ShaderSampledRead,
    Access16::ShaderStorageRead,
    Access16::ShaderStorageWrite,
    Access16::UniformRead,
    Access16::ShaderSampledRead,
    Access16::ShaderStorageRead,
    Access16::ShaderStorageWrite,
    Access16::UniformRead,
    Access16::ShaderSampledRead,
    Access16::ShaderStorageRead,
    Access16::ShaderStorageWrite,
    Access16::UniformRead,
    Access16::ShaderSampledRead,
    Access16::ShaderStorageRead,
    Access16::ShaderStorageWrite,
    Access16::InputAttachmentRead,
    Access16::ColorAttachmentRead,
    Access16::ColorAttachmentWrite,
    Access16::DepthStencilAttachmentRead,
    Access16::DepthStencilAttachmentWrite,
    Access16::DepthStencilAttachmentRead,
    Access16::DepthStencilAttachmentWrite,
    Access16::TransferRead,
    Access16::TransferRead,
    Access16::TransferRead,
    Access16::TransferWrite,
    Access16::TransferWrite,
    Access16::TransferWrite,
    Access16::TransferWrite,
    Access16::HostRead,
    Access16::HostWrite,
];

/// A usage: a pair of plain stage and plain access, as its number 0 to 42.
#[derive(Clone, Copy, PartialEq)]
pub struct Usage(pub u8);

impl Usage {
    /// The usage that is this access at this stage; None where there is none, as the stage
    /// does not have the access (Vulkan, "Supported access types").
    pub fn of(stage: Stage, access: Access16) -> Option<Usage>
        ensures exact { option_map (λ u. u.0) result ≡ usage_of (stage_number stage) (access_number access) }
        ensures small { IfSome result (λ u. u.0 < 43) }
    {
        for number in 0..COUNT {
            if is_pair(Usage(number), stage, access) {
                return Some(Usage(number));
            }
        }
        None
    }
}

/// Whether a usage is this access at this stage.
fn is_pair(usage: Usage, stage: Stage, access: Access16) -> bool
    requires { usage.0 < 43 }
    ensures { result ≡ spec.is_pair (stage_number stage) (access_number access) usage.0 }
{
    stage_of(usage).number() == stage.number() && access_of(usage).number() == access.number()
}

/// The stage of a usage.
pub fn stage_of(usage: Usage) -> Stage
    requires { usage.0 < 43 }
    ensures { stage_number result ≡ spec.stage_of usage.0 }
{
    STAGES[usage.0 as usize]
}

/// The access of a usage.
pub fn access_of(usage: Usage) -> Access16
    requires { usage.0 < 43 }
    ensures { access_number result ≡ spec.access_of usage.0 }
{
    ACCESSES[usage.0 as usize]
}

/// Whether a usage writes.
pub fn is_write(usage: Usage) -> bool
    ensures { result ≡ spec.is_write usage.0 }
{
    matches!(
        usage.0,
        6 | 10 | 14 | 18 | 22 | 26 | 29 | 31 | 33 | 37 | 38 | 39 | 40 | 42
    )
}

/// A set of usages as 43 bits.
#[derive(Clone, Copy, PartialEq)]
pub struct Usages(pub u64);

impl Usages {
    /// The set with no usage.
    pub const NONE: Usages = Usages(0);

    /// The usages of both sets.
    pub fn union(self, other: Usages) -> Usages
        ensures { result.0 ≡ bit_or self.0 other.0 }
    {
        Usages(self.0 | other.0)
    }

    /// Whether some usage is in both sets.
    pub fn meets(self, other: Usages) -> bool
        ensures { IsTrue result ↔ Meets self.0 other.0 }
    {
        self.0 & other.0 != 0
    }

    /// Whether each usage of the other set is in this one.
    pub fn contains(self, other: Usages) -> bool
        ensures { IsTrue result ↔ Includes self.0 other.0 }
    {
        self.0 & other.0 == other.0
    }

    /// Whether the set has no usage.
    pub fn is_empty(self) -> bool
        ensures { IsTrue result ↔ (self.0 ≡ 0) }
    {
        self.0 == 0
    }

    /// Whether the usage is in the set.
    pub fn has(self, usage: Usage) -> bool
        requires { usage.0 < 43 }
        ensures { IsTrue result ↔ Has self.0 usage.0 }
    {
        (self.0 >> usage.0) & 1 == 1
    }
}
