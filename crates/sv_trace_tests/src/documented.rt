//! The lines that the document of the trace gives as examples.
use crate::refusals::refusal_of;
use std::test::Fail;

// Lines of docs/TRACE.md, and the number of the refusal of each that it says: 0 where it is taken.
static EXAMPLES: [(&str, u64); 59] = [
    ("{\"op\":\"end\",\"rec\":", 1),
    ("{\"op\":\"end\",\"rec\":\"0\"}", 2),
    ("{\"op\":\"semaphore\",\"sem\":0,\"kind\":\"fence\"}", 3),
    ("{\"op\":\"end\",\"rec\":65536}", 4),
    ("{\"op\":\"queue\",\"queue\":0,\"family\":0,\"lane\":0}", 0),
    ("{\"op\":\"buffer\",\"res\":0,\"size\":64}", 0),
    (
        "{\"op\":\"begin\",\"rec\":0,\"recorder\":0,\"family\":0}",
        0,
    ),
    (
        "{\"op\":\"work\",\"rec\":0,\"accesses\":[{\"res\":0,\"stage\":\"copy\",\"access\":\"transfer_write\",\"start\":0,\"end\":16}]}",
        0,
    ),
    (
        "{\"op\":\"work\",\"rec\":0,\"accesses\":[{\"res\":0,\"stage\":\"copy\",\"access\":\"transfer_read\",\"start\":0,\"end\":16}]}",
        0,
    ),
    ("{\"op\":\"end\",\"rec\":0}", 0),
    (
        "{\"op\":\"submit\",\"lane\":0,\"queue\":0,\"batches\":[{\"recs\":[0]}]}",
        0,
    ),
    (
        "{\"op\":\"barrier\",\"rec\":0,\"deps\":[{\"src\":[\"copy\"],\"src_access\":[\"transfer_write\"],\"dst\":[\"copy\"],\"dst_access\":[\"transfer_read\"]}]}",
        0,
    ),
    ("{\"op\":\"version\",\"number\":1}", 0),
    (
        "{\"op\":\"buffer\",\"res\":0,\"size\":65536,\"sharing\":\"concurrent\"}",
        0,
    ),
    (
        "{\"op\":\"image\",\"res\":1,\"mips\":1,\"layers\":1,\"initial\":\"preinitialized\"}",
        0,
    ),
    (
        "{\"op\":\"semaphore\",\"sem\":0,\"kind\":\"timeline\",\"initial\":0}",
        0,
    ),
    ("{\"op\":\"event\",\"event\":0}", 0),
    ("{\"op\":\"fence\",\"fence\":0,\"signaled\":true}", 0),
    (
        "{\"op\":\"render_pass\",\"pass\":0,\"attachments\":[{\"class\":\"color\",\"load\":\"clear\",\"store\":\"store\",\"initial\":\"undefined\",\"final\":\"present_src\"}],\"subpasses\":[{\"uses\":[{\"att\":0,\"layout\":\"color_attachment_optimal\"}]}],\"deps\":[{\"from\":\"external\",\"to\":0,\"src\":[\"color_attachment_output\"],\"src_access\":[],\"dst\":[\"color_attachment_output\"],\"dst_access\":[\"color_attachment_write\"]}]}",
        0,
    ),
    (
        "{\"op\":\"work\",\"rec\":0,\"accesses\":[{\"res\":0,\"stage\":\"copy\",\"access\":\"transfer_read\",\"start\":0,\"end\":16},{\"res\":1,\"stage\":\"copy\",\"access\":\"transfer_write\",\"mip\":0,\"mips\":1,\"layer\":0,\"layers\":1,\"layout\":\"transfer_dst_optimal\"}]}",
        0,
    ),
    (
        "{\"op\":\"barrier\",\"rec\":0,\"deps\":[{\"src\":[\"copy\"],\"src_access\":[\"transfer_write\"],\"dst\":[\"fragment_shader\"],\"dst_access\":[\"shader_read\"],\"res\":1,\"mip\":0,\"mips\":1,\"layer\":0,\"layers\":1,\"old\":\"transfer_dst_optimal\",\"new\":\"shader_read_only_optimal\"}]}",
        0,
    ),
    (
        "{\"op\":\"set_event\",\"rec\":0,\"event\":0,\"deps\":[{\"src\":[\"copy\"],\"src_access\":[\"transfer_write\"],\"dst\":[\"copy\"],\"dst_access\":[\"transfer_read\"],\"res\":0,\"start\":0,\"end\":16}]}",
        0,
    ),
    ("{\"op\":\"wait_event\",\"rec\":0,\"event\":0}", 0),
    ("{\"op\":\"reset_event\",\"rec\":0,\"event\":0}", 0),
    (
        "{\"op\":\"begin_rendering\",\"rec\":0,\"attachments\":[{\"res\":1,\"class\":\"color\",\"mip\":0,\"layer\":0,\"layers\":1,\"layout\":\"color_attachment_optimal\",\"load\":\"load\",\"store\":\"store\"}]}",
        0,
    ),
    ("{\"op\":\"end_rendering\",\"rec\":0}", 0),
    (
        "{\"op\":\"begin_pass\",\"rec\":0,\"pass\":0,\"views\":[{\"res\":1,\"mip\":0,\"layer\":0,\"layers\":1}]}",
        0,
    ),
    ("{\"op\":\"next_subpass\",\"rec\":0}", 0),
    ("{\"op\":\"end_pass\",\"rec\":0}", 0),
    (
        "{\"op\":\"submit\",\"lane\":0,\"queue\":0,\"batches\":[{\"waits\":[{\"sem\":0,\"value\":0,\"stages\":[\"all_commands\"]}],\"recs\":[0],\"signals\":[{\"sem\":0,\"value\":1,\"stages\":[\"all_commands\"]}]}],\"fence\":0}",
        0,
    ),
    ("{\"op\":\"wait_fence\",\"lane\":0,\"fence\":0}", 0),
    ("{\"op\":\"reset_fence\",\"lane\":0,\"fence\":0}", 0),
    ("{\"op\":\"wait_queue\",\"lane\":0,\"queue\":0}", 0),
    ("{\"op\":\"wait_device\",\"lane\":0}", 0),
    ("{\"op\":\"version\",\"number\":2}", 4),
    ("{\"op\":\"queue\",\"queue\":0,\"family\":0}", 2),
    (
        "{\"op\":\"buffer\",\"res\":0,\"size\":0,\"sharing\":\"shared\"}",
        3,
    ),
    (
        "{\"op\":\"image\",\"res\":0,\"mips\":1,\"layers\":1,\"initial\":\"general\"}",
        3,
    ),
    (
        "{\"op\":\"semaphore\",\"sem\":0,\"kind\":\"binary\",\"initial\":null}",
        2,
    ),
    ("{\"op\":\"event\",\"event\":1.0}", 2),
    ("{\"op\":\"fence\",\"fence\":65536}", 4),
    (
        "{\"op\":\"render_pass\",\"pass\":0,\"attachments\":[],\"subpasses\":[],\"deps\":[]}",
        2,
    ),
    (
        "{\"op\":\"begin\",\"rec\":0,\"recorder\":16,\"family\":0}",
        4,
    ),
    ("{\"op\":\"end\"}", 2),
    (
        "{\"op\":\"work\",\"rec\":0,\"accesses\":[{\"res\":0,\"stage\":\"all_commands\",\"access\":\"transfer_read\",\"start\":0,\"end\":1}]}",
        3,
    ),
    (
        "{\"op\":\"barrier\",\"rec\":0,\"deps\":[{\"src\":[],\"src_access\":[],\"dst\":[],\"dst_access\":[],\"res\":1,\"mip\":0,\"mips\":1,\"layer\":0,\"layers\":1,\"old\":\"general\"}]}",
        2,
    ),
    (
        "{\"op\":\"set_event\",\"rec\":0,\"event\":65536,\"deps\":[]}",
        4,
    ),
    ("{\"op\":\"wait_event\",\"rec\":0}", 2),
    ("{\"op\":\"reset_event\",\"rec\":65536,\"event\":0}", 4),
    (
        "{\"op\":\"begin_rendering\",\"rec\":0,\"attachments\":[{\"res\":0}]}",
        2,
    ),
    ("{\"op\":\"end_rendering\",\"rec\":-1}", 2),
    (
        "{\"op\":\"begin_pass\",\"rec\":0,\"pass\":65536,\"views\":[]}",
        4,
    ),
    ("{\"op\":\"next_subpass\",\"rec\":65536}", 4),
    ("{\"op\":\"end_pass\",\"rec\":true}", 2),
    (
        "{\"op\":\"submit\",\"lane\":0,\"queue\":0,\"batches\":[3]}",
        2,
    ),
    ("{\"op\":\"wait_fence\",\"lane\":0,\"fence\":65536}", 4),
    ("{\"op\":\"reset_fence\",\"lane\":16,\"fence\":0}", 4),
    ("{\"op\":\"wait_queue\",\"lane\":0,\"queue\":16}", 4),
    ("{\"op\":\"wait_device\",\"lane\":16}", 4),
];

#[test]
fn answers_as_documented(rt: HostRuntime) -> Result<(), Fail> {
    for (line, number) in &EXAMPLES {
        assert_eq!(rt; refusal_of(&rt, line.as_bytes()), *number, "at {line}");
    }
    Ok(())
}
