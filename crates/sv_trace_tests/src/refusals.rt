//! Lines with the number of their refusal.
use std::test::Fail;
use sv_model::refusal::{Cause, Fault};
use sv_trace::read_line;

// Lines, and the number of the refusal of each: 0 where it is taken.
static LINES: [(&str, u64); 122] = [
    ("", 0),
    (" \t\r", 0),
    ("{\"op\":\"end\",\"rec\":1,\"rec\":0}", 0),
    (
        "{\"op\":\"end\",\"rec\":65535,\"rec \":-1,\"x\":1.5,\"y\":null}",
        0,
    ),
    ("{\"op\":\"version\",\"number\":1}", 0),
    (
        "{\"op\":\"barrier\",\"rec\":0,\"deps\":[{\"src\":[\"copy\"],\"src_access\":[\"transfer_write\"],\"dst\":[],\"dst_access\":[],\"start\":\"x\",\"mip\":null,\"old\":1,\"src_family\":-1}]}",
        0,
    ),
    (
        "{\"op\":\"barrier\",\"rec\":0,\"deps\":[{\"src\":[\"copy\"],\"src_access\":[\"transfer_write\"],\"dst\":[],\"dst_access\":[],\"res\":0,\"start\":0,\"end\":1,\"old\":\"x\",\"new\":7}]}",
        0,
    ),
    (
        "{\"op\":\"work\",\"rec\":0,\"accesses\":[{\"res\":0,\"stage\":\"copy\",\"access\":\"transfer_read\",\"start\":0,\"end\":1},{\"res\":1,\"stage\":\"blit\",\"access\":\"transfer_write\",\"mip\":0,\"mips\":1,\"layer\":0,\"layers\":1,\"layout\":\"general\"}]}",
        0,
    ),
    (
        "{\"op\":\"work\",\"rec\":0,\"accesses\":[{\"res\":0,\"stage\":\"copy\",\"access\":\"transfer_read\",\"start\":0,\"end\":1,\"mips\":[],\"layout\":4}]}",
        0,
    ),
    (
        "{\"op\":\"submit\",\"lane\":0,\"queue\":15,\"batches\":[{}]}",
        0,
    ),
    (
        "{\"op\":\"semaphore\",\"sem\":0,\"kind\":\"timeline\",\"initial\":18446744073709551615}",
        0,
    ),
    (
        "{\"op\":\"render_pass\",\"pass\":0,\"attachments\":[{\"class\":\"color\",\"load\":\"clear\",\"store\":\"none\",\"initial\":\"undefined\",\"final\":\"general\"}],\"subpasses\":[{\"uses\":[{\"att\":0,\"layout\":\"general\"}]}],\"deps\":[{\"from\":\"external\",\"to\":0,\"src\":[],\"src_access\":[],\"dst\":[],\"dst_access\":[]},{\"from\":0,\"to\":0,\"src\":[],\"src_access\":[],\"dst\":[],\"dst_access\":[]},{\"from\":0,\"to\":\"external\",\"src\":[],\"src_access\":[],\"dst\":[],\"dst_access\":[]}]}",
        0,
    ),
    ("{", 1),
    ("{\"op\":\"end\",\"rec\":1e400}", 1),
    ("{\"op\":\"end\",\"rec\":00}", 1),
    ("[]", 2),
    ("3", 2),
    ("{}", 2),
    ("{\"op\":3}", 2),
    ("{\"op\":\"end\"}", 2),
    ("{\"op\":\"end\",\"rec\":\"0\"}", 2),
    ("{\"op\":\"end\",\"rec\":null}", 2),
    ("{\"op\":\"end\",\"rec\":true}", 2),
    ("{\"op\":\"end\",\"rec\":[]}", 2),
    ("{\"op\":\"end\",\"rec\":1.0}", 2),
    ("{\"op\":\"end\",\"rec\":1e3}", 2),
    ("{\"op\":\"end\",\"rec\":-0}", 2),
    ("{\"op\":\"end\",\"rec\":-1}", 2),
    ("{\"op\":\"end\",\"rec\":18446744073709551616}", 2),
    ("{\"op\":\"host_set\"}", 3),
    ("{\"op\":\"host_set\",\"rec\":-1}", 3),
    ("{\"op\":\"\"}", 3),
    ("{\"op\":\"End\",\"rec\":0}", 3),
    ("{\"op\":\"version\",\"number\":\"1\"}", 2),
    ("{\"op\":\"version\",\"number\":2}", 4),
    ("{\"op\":\"version\",\"number\":0}", 4),
    ("{\"op\":\"queue\",\"queue\":0,\"family\":0}", 2),
    ("{\"op\":\"queue\",\"queue\":16,\"family\":0,\"lane\":0}", 4),
    (
        "{\"op\":\"queue\",\"queue\":0,\"family\":65536,\"lane\":0}",
        4,
    ),
    (
        "{\"op\":\"queue\",\"queue\":0,\"family\":0,\"lane\":4294967296}",
        4,
    ),
    (
        "{\"op\":\"buffer\",\"res\":0,\"size\":1,\"sharing\":null}",
        2,
    ),
    (
        "{\"op\":\"buffer\",\"res\":0,\"size\":0,\"sharing\":\"shared\"}",
        3,
    ),
    ("{\"op\":\"buffer\",\"res\":0,\"size\":0}", 4),
    ("{\"op\":\"buffer\",\"res\":0,\"size\":1099511627777}", 4),
    ("{\"op\":\"buffer\",\"res\":65536,\"size\":1}", 4),
    ("{\"op\":\"image\",\"res\":0,\"mips\":1}", 2),
    (
        "{\"op\":\"image\",\"res\":0,\"mips\":1,\"layers\":1,\"initial\":\"general\"}",
        3,
    ),
    ("{\"op\":\"image\",\"res\":0,\"mips\":17,\"layers\":1}", 4),
    ("{\"op\":\"image\",\"res\":0,\"mips\":0,\"layers\":1}", 4),
    ("{\"op\":\"image\",\"res\":0,\"mips\":1,\"layers\":2049}", 4),
    ("{\"op\":\"image\",\"res\":0,\"mips\":1,\"layers\":0}", 4),
    (
        "{\"op\":\"semaphore\",\"sem\":0,\"kind\":\"binary\",\"initial\":null}",
        2,
    ),
    ("{\"op\":\"semaphore\",\"sem\":0}", 2),
    ("{\"op\":\"semaphore\",\"sem\":0,\"kind\":\"fence\"}", 3),
    (
        "{\"op\":\"semaphore\",\"sem\":65536,\"kind\":\"binary\"}",
        4,
    ),
    ("{\"op\":\"event\"}", 2),
    ("{\"op\":\"event\",\"event\":65536}", 4),
    ("{\"op\":\"fence\",\"fence\":0,\"signaled\":0}", 2),
    ("{\"op\":\"fence\",\"fence\":0,\"signaled\":null}", 2),
    ("{\"op\":\"fence\",\"fence\":65536}", 4),
    (
        "{\"op\":\"render_pass\",\"pass\":0,\"attachments\":[{\"class\":\"color\",\"load\":\"clear\",\"store\":\"none\",\"initial\":\"undefined\",\"final\":\"general\"}],\"subpasses\":[],\"deps\":[]}",
        2,
    ),
    (
        "{\"op\":\"render_pass\",\"pass\":0,\"attachments\":[{\"class\":\"color\",\"load\":\"clear\",\"store\":\"none\",\"initial\":\"undefined\",\"final\":\"general\"}],\"subpasses\":[{\"uses\":[{\"att\":0,\"layout\":\"general\"}]}],\"deps\":[{\"from\":\"external\",\"to\":\"external\",\"src\":[],\"src_access\":[],\"dst\":[],\"dst_access\":[]}]}",
        2,
    ),
    (
        "{\"op\":\"render_pass\",\"pass\":0,\"attachments\":[{\"class\":\"color\",\"load\":\"clear\",\"store\":\"none\",\"initial\":\"undefined\",\"final\":\"general\"}],\"subpasses\":[{\"uses\":[{\"att\":0,\"layout\":\"general\"}]}],\"deps\":[{\"from\":\"inside\",\"to\":0,\"src\":[],\"src_access\":[],\"dst\":[],\"dst_access\":[]}]}",
        2,
    ),
    (
        "{\"op\":\"render_pass\",\"pass\":0,\"attachments\":[{\"class\":\"color\",\"load\":\"clear\",\"store\":\"none\",\"initial\":\"undefined\",\"final\":\"x\"}],\"subpasses\":[{}],\"deps\":[]}",
        2,
    ),
    (
        "{\"op\":\"render_pass\",\"pass\":0,\"attachments\":[{\"class\":\"color\",\"load\":\"clear\",\"store\":\"none\",\"initial\":\"undefined\",\"final\":\"general\"}],\"subpasses\":[{\"uses\":[3]}],\"deps\":[]}",
        2,
    ),
    (
        "{\"op\":\"render_pass\",\"pass\":0,\"attachments\":[{\"class\":\"color\",\"load\":\"clear\",\"store\":\"none\",\"initial\":\"undefined\",\"final\":\"undefined\"}],\"subpasses\":[{\"uses\":[{\"att\":0,\"layout\":\"general\"}]}],\"deps\":[]}",
        3,
    ),
    (
        "{\"op\":\"render_pass\",\"pass\":0,\"attachments\":[{\"class\":\"color\",\"load\":\"clear\",\"store\":\"none\",\"initial\":\"undefined\",\"final\":\"preinitialized\"}],\"subpasses\":[{\"uses\":[{\"att\":0,\"layout\":\"general\"}]}],\"deps\":[]}",
        3,
    ),
    (
        "{\"op\":\"render_pass\",\"pass\":0,\"attachments\":[{\"class\":\"color\",\"load\":\"clear\",\"store\":\"none\",\"initial\":\"undefined\",\"final\":\"general\"}],\"subpasses\":[{\"uses\":[{\"att\":1,\"layout\":\"general\"}]}],\"deps\":[]}",
        4,
    ),
    (
        "{\"op\":\"render_pass\",\"pass\":0,\"attachments\":[{\"class\":\"color\",\"load\":\"clear\",\"store\":\"none\",\"initial\":\"undefined\",\"final\":\"general\"}],\"subpasses\":[{\"uses\":[{\"att\":0,\"layout\":\"general\"}]}],\"deps\":[{\"from\":0,\"to\":1,\"src\":[],\"src_access\":[],\"dst\":[],\"dst_access\":[]}]}",
        4,
    ),
    (
        "{\"op\":\"render_pass\",\"pass\":0,\"attachments\":[{\"class\":\"color\",\"load\":\"clear\",\"store\":\"none\",\"initial\":\"undefined\",\"final\":\"general\"}],\"subpasses\":[{\"uses\":[]},{\"uses\":[]}],\"deps\":[{\"from\":1,\"to\":0,\"src\":[],\"src_access\":[],\"dst\":[],\"dst_access\":[]}]}",
        4,
    ),
    ("{\"op\":\"begin\",\"rec\":0,\"recorder\":0}", 2),
    (
        "{\"op\":\"begin\",\"rec\":0,\"recorder\":16,\"family\":0}",
        4,
    ),
    ("{\"op\":\"end\",\"rec\":65536}", 4),
    (
        "{\"op\":\"work\",\"rec\":0,\"accesses\":[{\"res\":0,\"stage\":\"copy\",\"access\":\"transfer_read\",\"start\":0}]}",
        2,
    ),
    (
        "{\"op\":\"work\",\"rec\":0,\"accesses\":[{\"res\":1,\"stage\":\"blit\",\"access\":\"transfer_write\",\"mip\":0,\"mips\":1,\"layer\":0,\"layers\":1}]}",
        2,
    ),
    (
        "{\"op\":\"work\",\"rec\":65536,\"accesses\":[{\"res\":0,\"stage\":\"x\",\"access\":\"transfer_read\",\"start\":0,\"end\":1},3]}",
        2,
    ),
    ("{\"op\":\"work\",\"rec\":0,\"accesses\":{}}", 2),
    (
        "{\"op\":\"work\",\"rec\":65536,\"accesses\":[{\"res\":0,\"stage\":\"all_commands\",\"access\":\"transfer_read\",\"start\":0,\"end\":1}]}",
        3,
    ),
    (
        "{\"op\":\"work\",\"rec\":0,\"accesses\":[{\"res\":0,\"stage\":\"copy\",\"access\":\"memory_read\",\"start\":0,\"end\":1}]}",
        3,
    ),
    (
        "{\"op\":\"work\",\"rec\":0,\"accesses\":[{\"res\":1,\"stage\":\"blit\",\"access\":\"transfer_write\",\"mip\":0,\"mips\":1,\"layer\":0,\"layers\":1,\"layout\":\"x\"}]}",
        3,
    ),
    (
        "{\"op\":\"work\",\"rec\":0,\"accesses\":[{\"res\":65536,\"stage\":\"copy\",\"access\":\"transfer_read\",\"start\":0,\"end\":1}]}",
        4,
    ),
    (
        "{\"op\":\"barrier\",\"rec\":0,\"deps\":[{\"src\":[\"copy\"],\"src_access\":[\"transfer_write\"],\"dst\":[],\"dst_access\":[],\"res\":1,\"mip\":0,\"mips\":1,\"layer\":0,\"layers\":1,\"old\":\"general\"}]}",
        2,
    ),
    (
        "{\"op\":\"barrier\",\"rec\":0,\"deps\":[{\"src\":[\"copy\"],\"src_access\":[\"transfer_write\"],\"dst\":[],\"dst_access\":[],\"res\":0,\"start\":0,\"end\":1,\"dst_family\":0}]}",
        2,
    ),
    (
        "{\"op\":\"barrier\",\"rec\":0,\"deps\":[{\"src\":[\"copy\"],\"src_access\":[\"transfer_write\"],\"dst\":[],\"dst_access\":[],\"res\":null}]}",
        2,
    ),
    (
        "{\"op\":\"barrier\",\"rec\":0,\"deps\":[{\"src\":[\"copy\"],\"src_access\":[\"transfer_write\"],\"dst\":\"copy\",\"dst_access\":[]}]}",
        2,
    ),
    (
        "{\"op\":\"barrier\",\"rec\":0,\"deps\":[{\"src\":[\"copy\"],\"src_access\":[\"transfer_write\"],\"dst\":[],\"dst_access\":[],\"res\":1,\"mip\":0,\"mips\":1,\"layer\":0,\"layers\":1,\"old\":\"undefined\",\"new\":\"undefined\"}]}",
        3,
    ),
    (
        "{\"op\":\"barrier\",\"rec\":0,\"deps\":[{\"src\":[\"copy\"],\"src_access\":[\"transfer_write\"],\"dst\":[\"none\",\"copies\"],\"dst_access\":[]}]}",
        3,
    ),
    (
        "{\"op\":\"barrier\",\"rec\":0,\"deps\":[{\"src\":[\"copy\"],\"src_access\":[\"transfer_write\"],\"dst\":[],\"dst_access\":[],\"res\":0,\"start\":0,\"end\":1,\"src_family\":0,\"dst_family\":65536}]}",
        4,
    ),
    ("{\"op\":\"set_event\",\"rec\":0,\"event\":0}", 2),
    (
        "{\"op\":\"set_event\",\"rec\":0,\"event\":0,\"deps\":[{\"src\":[\"copy\"],\"src_access\":[\"copy\"],\"dst\":[],\"dst_access\":[]}]}",
        3,
    ),
    (
        "{\"op\":\"set_event\",\"rec\":0,\"event\":65536,\"deps\":[]}",
        4,
    ),
    ("{\"op\":\"wait_event\",\"rec\":0}", 2),
    ("{\"op\":\"wait_event\",\"rec\":0,\"event\":65536}", 4),
    ("{\"op\":\"reset_event\",\"event\":0}", 2),
    ("{\"op\":\"reset_event\",\"rec\":65536,\"event\":0}", 4),
    (
        "{\"op\":\"begin_rendering\",\"rec\":0,\"attachments\":[{\"res\":0}]}",
        2,
    ),
    (
        "{\"op\":\"begin_rendering\",\"rec\":0,\"attachments\":[{\"res\":0,\"class\":\"stencil\",\"mip\":0,\"layer\":0,\"layers\":1,\"layout\":\"general\",\"load\":\"load\",\"store\":\"store\"}]}",
        3,
    ),
    (
        "{\"op\":\"begin_rendering\",\"rec\":0,\"attachments\":[{\"res\":65536,\"class\":\"depth\",\"mip\":0,\"layer\":0,\"layers\":1,\"layout\":\"general\",\"load\":\"load\",\"store\":\"store\"}]}",
        4,
    ),
    ("{\"op\":\"end_rendering\"}", 2),
    ("{\"op\":\"end_rendering\",\"rec\":65536}", 4),
    ("{\"op\":\"begin_pass\",\"rec\":0,\"pass\":0}", 2),
    (
        "{\"op\":\"begin_pass\",\"rec\":0,\"pass\":65536,\"views\":[]}",
        4,
    ),
    ("{\"op\":\"next_subpass\"}", 2),
    ("{\"op\":\"next_subpass\",\"rec\":65536}", 4),
    ("{\"op\":\"end_pass\"}", 2),
    ("{\"op\":\"end_pass\",\"rec\":65536}", 4),
    (
        "{\"op\":\"submit\",\"lane\":0,\"queue\":0,\"batches\":[3]}",
        2,
    ),
    (
        "{\"op\":\"submit\",\"lane\":0,\"queue\":0,\"batches\":[[]]}",
        2,
    ),
    (
        "{\"op\":\"submit\",\"lane\":0,\"queue\":0,\"batches\":[],\"fence\":null}",
        2,
    ),
    (
        "{\"op\":\"submit\",\"lane\":0,\"queue\":0,\"batches\":[{\"waits\":[{\"sem\":0,\"value\":null,\"stages\":[]}]}]}",
        2,
    ),
    (
        "{\"op\":\"submit\",\"lane\":0,\"queue\":0,\"batches\":[{\"signals\":[{\"sem\":0,\"stages\":[\"copies\"]}]}]}",
        3,
    ),
    (
        "{\"op\":\"submit\",\"lane\":16,\"queue\":0,\"batches\":[]}",
        4,
    ),
    (
        "{\"op\":\"submit\",\"lane\":0,\"queue\":0,\"batches\":[{\"recs\":[65536]}]}",
        4,
    ),
    (
        "{\"op\":\"submit\",\"lane\":0,\"queue\":0,\"batches\":[],\"fence\":65536}",
        4,
    ),
    ("{\"op\":\"wait_fence\",\"lane\":0}", 2),
    ("{\"op\":\"wait_fence\",\"lane\":0,\"fence\":65536}", 4),
    ("{\"op\":\"reset_fence\",\"fence\":0}", 2),
    ("{\"op\":\"reset_fence\",\"lane\":16,\"fence\":0}", 4),
    ("{\"op\":\"wait_queue\",\"lane\":0}", 2),
    ("{\"op\":\"wait_queue\",\"lane\":0,\"queue\":16}", 4),
    ("{\"op\":\"wait_device\"}", 2),
    ("{\"op\":\"wait_device\",\"lane\":16}", 4),
];

// The number of the refusal of line 7: 0 where it is taken.
pub fn refusal_of(rt: &HostRuntime, line: &[u8]) -> u64 {
    match read_line(rt.alloc(), line, 7) {
        Ok(_) => 0,
        Err(Fault::Memory) => 99,
        Err(Fault::Refused(refusal)) => {
            if refusal.line != 7 {
                return 98;
            }
            match refusal.cause {
                Cause::BadJson => 1,
                Cause::BadShape => 2,
                Cause::UnknownName => 3,
                Cause::Range => 4,
                _ => 97,
            }
        }
    }
}

#[test]
fn refuses(rt: HostRuntime) -> Result<(), Fail> {
    for (line, number) in &LINES {
        assert_eq!(rt; refusal_of(&rt, line.as_bytes()), *number, "at {line}");
    }
    assert_eq!(rt; refusal_of(&rt, b"\xff"), 1);
    let brackets = vec![in rt.alloc(); 91u8; 1000]?;
    assert_eq!(rt; refusal_of(&rt, &brackets), 1);
    Ok(())
}
