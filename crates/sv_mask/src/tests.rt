//! Worked examples.
use crate::{
    Access16, AccessWord, Accesses, Layout, Stage, StageWord, Stages, Usage, Usages, access_of,
    is_write, stage_of,
};

#[test]
fn numbers_usages(rt: HostRuntime) {
    let usages = [
        (Stage::DrawIndirect, Access16::IndirectCommandRead, 0, false),
        (Stage::VertexShader, Access16::UniformRead, 3, false),
        (
            Stage::FragmentShader,
            Access16::ShaderStorageWrite,
            22,
            true,
        ),
        (Stage::ComputeShader, Access16::ShaderSampledRead, 24, false),
        (
            Stage::FragmentShader,
            Access16::InputAttachmentRead,
            27,
            false,
        ),
        (
            Stage::LateFragmentTests,
            Access16::DepthStencilAttachmentWrite,
            33,
            true,
        ),
        (Stage::Copy, Access16::TransferRead, 34, false),
        (Stage::Clear, Access16::TransferWrite, 40, true),
        (Stage::Host, Access16::HostWrite, 42, true),
    ];
    for (stage, access, number, writes) in usages {
        let usage = Usage(number);
        assert!(rt; Usage::of(stage, access) == Some(usage));
        assert!(rt; is_write(usage) == writes);
    }
    assert!(rt; stage_of(Usage(36)) == Stage::Blit);
    assert!(rt; access_of(Usage(36)) == Access16::TransferRead);
    assert!(rt; Usage::of(Stage::Clear, Access16::TransferRead).is_none());
    assert!(rt; Usage::of(Stage::Host, Access16::TransferRead).is_none());
}

#[test]
fn joins_and_compares_sets(rt: HostRuntime) {
    let copy = Stages::of(Stage::Copy);
    let both = copy.union(Stages::HOST);
    assert!(rt; both == Stages(0x11000));
    assert!(rt; both.contains(copy) && !copy.contains(both));
    assert!(rt; both.meets(copy) && !copy.meets(Stages::HOST));
    assert!(rt; both.has(16) && !both.has(17) && both.with_signal().has(17));
    assert!(rt; Stages(0).is_empty() && !copy.is_empty());

    let usages = Usages(0x5).union(Usages(0x2));
    assert!(rt; usages == Usages(0x7));
    assert!(rt; usages.contains(Usages(0x5)) && usages.meets(Usages(0xc)));
    assert!(rt; usages.has(Usage(2)) && !usages.has(Usage(3)));
    assert!(rt; Usages::NONE.is_empty() && !usages.is_empty());

    let accesses = Accesses::of(Access16::HostRead).union(Accesses::HOST_WRITE);
    assert!(rt; accesses == Accesses(0xc000) && accesses.has(15) && !accesses.has(0));

    let word = StageWord::of(Stage::Copy).union(StageWord::of(Stage::Host));
    assert!(rt; word.plain == both && !word.top && !word.bottom);
    let word = AccessWord::of(Access16::HostRead).union(AccessWord::of(Access16::HostWrite));
    assert!(rt; word.plain == accesses && !word.memory_read && !word.memory_write);
    assert!(rt; Layout::General.is_same(Layout::General));
    assert!(rt; !Layout::General.is_same(Layout::PresentSrc));
}
