//! Plain accesses, and sets of them.
ghost use Rattle.std.specs.Prelude.{⊤, ◌≡◌, ◌<◌, ◌^◌, [], ◌∷◌, codes, ◌↔◌, ◌||◌, IsTrue};
ghost use Rattle.std.specs.Int.RustNames.{bit_or};
ghost use Rattle.sv_mask.specs.Names.{access_word};
ghost use Rattle.sv_mask.specs.Sets.{Has};
ghost use Rattle.sv_mask.specs.Usages.{access_number};

use bitflags::{Flag, Flags, bitflag_items};

/// The 16 plain accesses, in the order in which the list of usages first has them
/// (Vulkan, "Access Types").
#[derive(Clone, Copy, PartialEq)]
pub enum Access16 {
    IndirectCommandRead,
    IndexRead,
    VertexAttributeRead,
    UniformRead,
    ShaderSampledRead,
    ShaderStorageRead,
    ShaderStorageWrite,
    InputAttachmentRead,
    ColorAttachmentRead,
    ColorAttachmentWrite,
    DepthStencilAttachmentRead,
    DepthStencilAttachmentWrite,
    TransferRead,
    TransferWrite,
    HostRead,
    HostWrite,
}

impl Access16 {
    /// The place of the access in the order of the accesses, from 0 to 15.
    pub fn number(self) -> u32
        ensures place { result ≡ access_number self }
        ensures small { result < 16 }
    {
        match self {
            Access16::IndirectCommandRead => 0,
            Access16::IndexRead => 1,
            Access16::VertexAttributeRead => 2,
            Access16::UniformRead => 3,
            Access16::ShaderSampledRead => 4,
            Access16::ShaderStorageRead => 5,
            Access16::ShaderStorageWrite => 6,
            Access16::InputAttachmentRead => 7,
            Access16::ColorAttachmentRead => 8,
            Access16::ColorAttachmentWrite => 9,
            Access16::DepthStencilAttachmentRead => 10,
            Access16::DepthStencilAttachmentWrite => 11,
            Access16::TransferRead => 12,
            Access16::TransferWrite => 13,
            Access16::HostRead => 14,
            Access16::HostWrite => 15,
        }
    }
}

/// A set of plain accesses as 16 bits, in the order of `Access16`.
#[derive(Clone, Copy, PartialEq)]
pub struct Accesses(pub u32);

bitflag_items! {
    impl Accesses: u32 {
        const INDIRECT_COMMAND_READ = 1 << 0;
        const INDEX_READ = 1 << 1;
        const VERTEX_ATTRIBUTE_READ = 1 << 2;
        const UNIFORM_READ = 1 << 3;
        const SHADER_SAMPLED_READ = 1 << 4;
        const SHADER_STORAGE_READ = 1 << 5;
        const SHADER_STORAGE_WRITE = 1 << 6;
        const INPUT_ATTACHMENT_READ = 1 << 7;
        const COLOR_ATTACHMENT_READ = 1 << 8;
        const COLOR_ATTACHMENT_WRITE = 1 << 9;
        const DEPTH_STENCIL_ATTACHMENT_READ = 1 << 10;
        const DEPTH_STENCIL_ATTACHMENT_WRITE = 1 << 11;
        const TRANSFER_READ = 1 << 12;
        const TRANSFER_WRITE = 1 << 13;
        const HOST_READ = 1 << 14;
        const HOST_WRITE = 1 << 15;
    }
}

impl Flags for Accesses {
    type Bits = u32;

    ghost exact = { ⊤ };

    ghost table = { (codes "INDIRECT_COMMAND_READ", 1)
        ∷ (codes "INDEX_READ", 2)
        ∷ (codes "VERTEX_ATTRIBUTE_READ", 4)
        ∷ (codes "UNIFORM_READ", 8)
        ∷ (codes "SHADER_SAMPLED_READ", 16)
        ∷ (codes "SHADER_STORAGE_READ", 32)
        ∷ (codes "SHADER_STORAGE_WRITE", 64)
        ∷ (codes "INPUT_ATTACHMENT_READ", 128)
        ∷ (codes "COLOR_ATTACHMENT_READ", 256)
        ∷ (codes "COLOR_ATTACHMENT_WRITE", 512)
        ∷ (codes "DEPTH_STENCIL_ATTACHMENT_READ", 1024)
        ∷ (codes "DEPTH_STENCIL_ATTACHMENT_WRITE", 2048)
        ∷ (codes "TRANSFER_READ", 4096)
        ∷ (codes "TRANSFER_WRITE", 8192)
        ∷ (codes "HOST_READ", 16384)
        ∷ (codes "HOST_WRITE", 32768)
        ∷ [] };

    ghost set_of = { λ s. s.0 };

    fn flags<'a>() -> &'a [Flag<Accesses>] {
        Accesses::FLAGS
    }

    fn bits(&self) -> u32 {
        self.0
    }

    fn from_bits_retain(bits: u32) -> Accesses {
        Accesses(bits)
    }
}

impl Accesses {
    /// The set of one access.
    pub fn of(access: Access16) -> Accesses
        ensures { result.0 ≡ 2 ^ access_number access }
    {
        Accesses(1 << access.number())
    }

    /// The accesses of both sets.
    pub fn union(self, other: Accesses) -> Accesses
        ensures { result.0 ≡ bit_or self.0 other.0 }
    {
        Flags::union(self, other)
    }

    /// Whether the access with this number is in the set.
    pub fn has(self, access: u32) -> bool
        requires { access < 32 }
        ensures { IsTrue result ↔ Has self.0 access }
    {
        (self.0 >> access) & 1 == 1
    }
}

/// The accesses that a mask names, as they are written.
#[derive(Clone, Copy, PartialEq)]
pub struct AccessWord {
    pub plain: Accesses,
    pub memory_read: bool,
    pub memory_write: bool,
}

impl AccessWord {
    /// What a mask names that names one plain access.
    pub fn of(access: Access16) -> AccessWord
        ensures { result ≡ access_word (access_number access ∷ []) }
    {
        AccessWord {
            plain: Accesses::of(access),
            memory_read: false,
            memory_write: false,
        }
    }

    /// What a mask names that has the names of both.
    pub fn union(self, other: AccessWord) -> AccessWord
        ensures { result ≡ record {
          plain = record { 0 = bit_or self.plain.0 other.plain.0 };
          memory_read = self.memory_read || other.memory_read;
          memory_write = self.memory_write || other.memory_write;
        } }
    {
        AccessWord {
            plain: self.plain.union(other.plain),
            memory_read: self.memory_read || other.memory_read,
            memory_write: self.memory_write || other.memory_write,
        }
    }
}
