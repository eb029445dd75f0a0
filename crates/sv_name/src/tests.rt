//! Worked examples.
use crate::{access_bits, layout, layout_text, plain_access, plain_stage, stage_bits, usage_text};
use sv_mask::{Access16, AccessWord, Accesses, Layout, Stage, StageWord, Stages, Usage};

#[test]
fn reads_names_of_stages(rt: HostRuntime) {
    let names = [
        ("none", 0, false, false),
        ("draw_indirect", 0x1, false, false),
        ("host", 0x10000, false, false),
        ("vertex_input", 0x6, false, false),
        ("pre_rasterization_shaders", 0x78, false, false),
        ("all_transfer", 0xf000, false, false),
        ("all_graphics", 0x7ff, false, false),
        ("all_commands", 0xffff, false, false),
        ("top_of_pipe", 0, true, false),
        ("bottom_of_pipe", 0, false, true),
    ];
    for (name, plain, top, bottom) in names {
        let word = StageWord {
            plain: Stages(plain),
            top,
            bottom,
        };
        assert!(rt; stage_bits(name) == Some(word));
    }
    for name in ["pixel_shader", "signal", "", "Copy", "copy ", "external"] {
        assert!(rt; stage_bits(name).is_none());
    }
    assert!(rt; plain_stage("compute_shader") == Some(Stage::ComputeShader));
    assert!(rt; plain_stage("all_commands").is_none());
}

#[test]
fn reads_and_writes_other_names(rt: HostRuntime) {
    let names = [
        ("none", 0, false, false),
        ("index_read", 0x2, false, false),
        ("shader_read", 0x30, false, false),
        ("shader_write", 0x40, false, false),
        ("memory_read", 0, true, false),
        ("memory_write", 0, false, true),
    ];
    for (name, plain, memory_read, memory_write) in names {
        let word = AccessWord {
            plain: Accesses(plain),
            memory_read,
            memory_write,
        };
        assert!(rt; access_bits(name) == Some(word));
    }
    assert!(rt; access_bits("copy").is_none());
    assert!(rt; plain_access("transfer_write") == Some(Access16::TransferWrite));
    assert!(rt; plain_access("memory_read").is_none());
    assert!(rt; layout("present_src") == Some(Layout::PresentSrc));
    assert!(rt; layout("optimal").is_none());
    assert!(rt; layout_text(Layout::ReadOnlyOptimal) == "read_only_optimal");
    let (access, stage) = usage_text(Usage(37));
    assert!(rt; access == "transfer_write");
    assert!(rt; stage == "copy");
}
