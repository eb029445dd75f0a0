//! The names of accesses.
ghost use Rattle.std.specs.Prelude.{◌≡◌};
ghost use Rattle.sv_mask.specs.Names.{plain_access_named, access_named};

use crate::table::look_up;
use sv_mask::{Access16, AccessWord, Accesses};

/// The plain accesses, in order.
pub(crate) static PLAIN_ACCESSES: [(&str, Access16); 16] = [
    ("indirect_command_read", Access16::IndirectCommandRead),
    ("index_read", Access16::IndexRead),
    ("vertex_attribute_read", Access16::VertexAttributeRead),
    ("uniform_read", Access16::UniformRead),
    ("shader_sampled_read", Access16::ShaderSampledRead),
    ("shader_storage_read", Access16::ShaderStorageRead),
    ("shader_storage_write", Access16::ShaderStorageWrite),
    ("input_attachment_read", Access16::InputAttachmentRead),
    ("color_attachment_read", Access16::ColorAttachmentRead),
    ("color_attachment_write", Access16::ColorAttachmentWrite),
    (
        "depth_stencil_attachment_read",
        Access16::DepthStencilAttachmentRead,
    ),
    (
        "depth_stencil_attachment_write",
        Access16::DepthStencilAttachmentWrite,
    ),
    ("transfer_read", Access16::TransferRead),
    ("transfer_write", Access16::TransferWrite),
    ("host_read", Access16::HostRead),
    ("host_write", Access16::HostWrite),
];

/// The further names in a mask of accesses.
static FURTHER_ACCESSES: [(&str, AccessWord); 5] = [
    ("none", NO_ACCESSES),
    (
        "shader_read",
        AccessWord {
            plain: Accesses(0x30),
            ..NO_ACCESSES
        },
    ),
    (
        "shader_write",
        AccessWord {
            plain: Accesses(0x40),
            ..NO_ACCESSES
        },
    ),
    (
        "memory_read",
        AccessWord {
            memory_read: true,
            ..NO_ACCESSES
        },
    ),
    (
        "memory_write",
        AccessWord {
            memory_write: true,
            ..NO_ACCESSES
        },
    ),
];

const NO_ACCESSES: AccessWord = AccessWord {
    plain: Accesses(0),
    memory_read: false,
    memory_write: false,
};

/// The plain access with this name (Vulkan, "Access Types"); None for any other text.
pub fn plain_access(text: &str) -> Option<Access16>
    ensures { result ≡ plain_access_named text.now }
{
    look_up(&PLAIN_ACCESSES, text)
}

/// What a mask of accesses names by this name: a plain access or one of the further names
/// (Vulkan, "Access Types"); None for any other text.
pub fn access_bits(text: &str) -> Option<AccessWord>
    ensures { result ≡ access_named text.now }
{
    match plain_access(text) {
        Some(access) => Some(AccessWord::of(access)),
        None => look_up(&FURTHER_ACCESSES, text),
    }
}
