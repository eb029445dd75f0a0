//! The names of pipeline stages.
ghost use Rattle.std.specs.Prelude.{◌≡◌};
ghost use Rattle.sv_mask.specs.Names.{plain_stage_named, stage_named};

use crate::table::look_up;
use sv_mask::{Stage, StageWord, Stages};

/// The plain stages, in order.
pub(crate) static PLAIN_STAGES: [(&str, Stage); 17] = [
    ("draw_indirect", Stage::DrawIndirect),
    ("index_input", Stage::IndexInput),
    ("vertex_attribute_input", Stage::VertexAttributeInput),
    ("vertex_shader", Stage::VertexShader),
    (
        "tessellation_control_shader",
        Stage::TessellationControlShader,
    ),
    (
        "tessellation_evaluation_shader",
        Stage::TessellationEvaluationShader,
    ),
    ("geometry_shader", Stage::GeometryShader),
    ("early_fragment_tests", Stage::EarlyFragmentTests),
    ("fragment_shader", Stage::FragmentShader),
    ("late_fragment_tests", Stage::LateFragmentTests),
    ("color_attachment_output", Stage::ColorAttachmentOutput),
    ("compute_shader", Stage::ComputeShader),
    ("copy", Stage::Copy),
    ("resolve", Stage::Resolve),
    ("blit", Stage::Blit),
    ("clear", Stage::Clear),
    ("host", Stage::Host),
];

/// The further names in a mask of stages.
static FURTHER_STAGES: [(&str, StageWord); 8] = [
    ("none", NO_STAGES),
    (
        "vertex_input",
        StageWord {
            plain: Stages(0x6),
            ..NO_STAGES
        },
    ),
    (
        "pre_rasterization_shaders",
        StageWord {
            plain: Stages(0x78),
            ..NO_STAGES
        },
    ),
    (
        "all_transfer",
        StageWord {
            plain: Stages(0xf000),
            ..NO_STAGES
        },
    ),
    (
        "all_graphics",
        StageWord {
            plain: Stages(0x7ff),
            ..NO_STAGES
        },
    ),
    (
        "all_commands",
        StageWord {
            plain: Stages(0xffff),
            ..NO_STAGES
        },
    ),
    (
        "top_of_pipe",
        StageWord {
            top: true,
            ..NO_STAGES
        },
    ),
    (
        "bottom_of_pipe",
        StageWord {
            bottom: true,
            ..NO_STAGES
        },
    ),
];

const NO_STAGES: StageWord = StageWord {
    plain: Stages(0),
    top: false,
    bottom: false,
};

/// The plain stage with this name (Vulkan, "Pipeline Stages"); None for any other text.
pub fn plain_stage(text: &str) -> Option<Stage>
    ensures { result ≡ plain_stage_named text.now }
{
    look_up(&PLAIN_STAGES, text)
}

/// What a mask of stages names by this name: a plain stage or one of the further names (Vulkan,
/// "Pipeline Stages"); None for any other text.
pub fn stage_bits(text: &str) -> Option<StageWord>
    ensures { result ≡ stage_named text.now }
{
    match plain_stage(text) {
        Some(stage) => Some(StageWord::of(stage)),
        None => look_up(&FURTHER_STAGES, text),
    }
}
