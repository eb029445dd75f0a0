//! The names of image layouts.
ghost use Rattle.std.specs.Prelude.{◌≡◌};
ghost use Rattle.sv_mask.specs.Names.{layout_named};
ghost use Rattle.sv_mask.specs.Names as spec;

use crate::table::{look_up, text_at};
use sv_mask::Layout;

static LAYOUTS: [(&str, Layout); 12] = [
    ("undefined", Layout::Undefined),
    ("preinitialized", Layout::Preinitialized),
    ("general", Layout::General),
    ("color_attachment_optimal", Layout::ColorAttachmentOptimal),
    (
        "depth_stencil_attachment_optimal",
        Layout::DepthStencilAttachmentOptimal,
    ),
    (
        "depth_stencil_read_only_optimal",
        Layout::DepthStencilReadOnlyOptimal,
    ),
    ("shader_read_only_optimal", Layout::ShaderReadOnlyOptimal),
    ("transfer_src_optimal", Layout::TransferSrcOptimal),
    ("transfer_dst_optimal", Layout::TransferDstOptimal),
    ("read_only_optimal", Layout::ReadOnlyOptimal),
    ("attachment_optimal", Layout::AttachmentOptimal),
    ("present_src", Layout::PresentSrc),
];

/// The layout with this name (Vulkan, "Image Layouts"); None for a text that is no layout's name.
pub fn layout(text: &str) -> Option<Layout>
    ensures { result ≡ layout_named text.now }
{
    look_up(&LAYOUTS, text)
}

/// The name of a layout.
pub fn layout_text(layout: Layout) -> &'static str
    ensures { result.now ≡ spec.layout_text layout }
{
    text_at(&LAYOUTS, layout.number() as usize)
}
