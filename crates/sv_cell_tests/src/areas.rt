//! Areas of buffer 0 and of image 1, as tables write them.
use sv_model::work::Area;
use sv_range::{Cells, Span};

/// The bytes of the buffer from one to another, which is not included; or of the image the first mip, the
/// number of mips, the first layer and the number of layers.
#[derive(Clone, Copy, PartialEq)]
pub enum At {
    Bytes(u64, u64),
    Image(u32, u32, u32, u32),
}

impl At {
    pub fn area(self) -> Area {
        match self {
            At::Bytes(start, end) => Area::Bytes {
                res: 0,
                span: Span { start, end },
            },
            At::Image(mip, mips, layer, layers) => Area::Image {
                res: 1,
                cells: Cells {
                    mip,
                    mips,
                    layer,
                    layers,
                },
            },
        }
    }
}
