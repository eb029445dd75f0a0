//! Image layouts.
ghost use Rattle.std.specs.Prelude.{◌≡◌, ◌<◌};
ghost use Rattle.sv_mask.specs.Usages.{layout_number, same_layout};

/// The layouts of an image (Vulkan, "Image Layouts").
#[derive(Clone, Copy, PartialEq)]
pub enum Layout {
    Undefined,
    Preinitialized,
    General,
    ColorAttachmentOptimal,
    DepthStencilAttachmentOptimal,
    DepthStencilReadOnlyOptimal,
    ShaderReadOnlyOptimal,
    TransferSrcOptimal,
    TransferDstOptimal,
    ReadOnlyOptimal,
    AttachmentOptimal,
    PresentSrc,
}

impl Layout {
    /// The place of the layout in the order of the layouts, from 0 to 11.
    pub fn number(self) -> u32
        ensures place { result ≡ layout_number self }
        ensures small { result < 12 }
    {
        match self {
            Layout::Undefined => 0,
            Layout::Preinitialized => 1,
            Layout::General => 2,
            Layout::ColorAttachmentOptimal => 3,
            Layout::DepthStencilAttachmentOptimal => 4,
            Layout::DepthStencilReadOnlyOptimal => 5,
            Layout::ShaderReadOnlyOptimal => 6,
            Layout::TransferSrcOptimal => 7,
            Layout::TransferDstOptimal => 8,
            Layout::ReadOnlyOptimal => 9,
            Layout::AttachmentOptimal => 10,
            Layout::PresentSrc => 11,
        }
    }

    /// Whether two layouts are the same.
    pub fn is_same(self, other: Layout) -> bool
        ensures { result ≡ same_layout self other }
    {
        self.number() == other.number()
    }
}
