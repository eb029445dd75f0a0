//! Worked examples.
use super::*;
use std::alloc::{AllocError, Global};
use std::test::Fail;

// The expected lines were worked out outside the program, from the rule for draws.
const FIRST: [&str; 9] = [
    "{\"op\":\"queue\",\"queue\":0,\"family\":0,\"lane\":0}",
    "{\"op\":\"queue\",\"queue\":1,\"family\":0,\"lane\":1}",
    "{\"op\":\"buffer\",\"res\":0,\"size\":65536}",
    "{\"op\":\"semaphore\",\"sem\":0,\"kind\":\"timeline\",\"initial\":0}",
    "{\"op\":\"begin\",\"rec\":0,\"recorder\":0,\"family\":0}",
    "{\"op\":\"work\",\"rec\":0,\"accesses\":[{\"res\":0,\"stage\":\"copy\",\"access\":\"transfer_read\",\"start\":56304,\"end\":56320}]}",
    "{\"op\":\"barrier\",\"rec\":0,\"deps\":[{\"src\":[\"copy\"],\"src_access\":[\"transfer_write\"],\"dst\":[\"copy\"],\"dst_access\":[\"transfer_read\",\"transfer_write\"]}]}",
    "{\"op\":\"end\",\"rec\":0}",
    "{\"op\":\"submit\",\"lane\":0,\"queue\":0,\"batches\":[{\"waits\":[{\"sem\":0,\"value\":0,\"stages\":[\"all_commands\"]}],\"recs\":[0],\"signals\":[{\"sem\":0,\"value\":1,\"stages\":[\"all_commands\"]}]}]}",
];

// The draws are 2006, 1, 0 and 2790, 0, 3.
const SECOND: [&str; 10] = [
    "{\"op\":\"queue\",\"queue\":0,\"family\":0,\"lane\":0}",
    "{\"op\":\"queue\",\"queue\":1,\"family\":0,\"lane\":1}",
    "{\"op\":\"buffer\",\"res\":0,\"size\":65536}",
    "{\"op\":\"semaphore\",\"sem\":0,\"kind\":\"timeline\",\"initial\":0}",
    "{\"op\":\"begin\",\"rec\":0,\"recorder\":0,\"family\":0}",
    "{\"op\":\"work\",\"rec\":0,\"accesses\":[{\"res\":0,\"stage\":\"copy\",\"access\":\"transfer_write\",\"start\":32096,\"end\":32112}]}",
    "{\"op\":\"work\",\"rec\":0,\"accesses\":[{\"res\":0,\"stage\":\"copy\",\"access\":\"transfer_read\",\"start\":44640,\"end\":44656}]}",
    "{\"op\":\"barrier\",\"rec\":0,\"deps\":[{\"src\":[\"copy\"],\"src_access\":[\"transfer_write\"],\"dst\":[\"copy\"],\"dst_access\":[\"transfer_read\",\"transfer_write\"]}]}",
    "{\"op\":\"end\",\"rec\":0}",
    "{\"op\":\"submit\",\"lane\":0,\"queue\":0,\"batches\":[{\"waits\":[{\"sem\":0,\"value\":0,\"stages\":[\"all_commands\"]}],\"recs\":[0],\"signals\":[{\"sem\":0,\"value\":1,\"stages\":[\"all_commands\"]}]}]}",
];

// The last work of 101 has a recording of its own. Its draws are 170, 1, 3.
const LAST: [&str; 5] = [
    "{\"op\":\"begin\",\"rec\":1,\"recorder\":1,\"family\":0}",
    "{\"op\":\"work\",\"rec\":1,\"accesses\":[{\"res\":0,\"stage\":\"copy\",\"access\":\"transfer_write\",\"start\":2720,\"end\":2736}]}",
    "{\"op\":\"barrier\",\"rec\":1,\"deps\":[{\"src\":[\"copy\"],\"src_access\":[\"transfer_write\"],\"dst\":[\"copy\"],\"dst_access\":[\"transfer_read\",\"transfer_write\"]}]}",
    "{\"op\":\"end\",\"rec\":1}",
    "{\"op\":\"submit\",\"lane\":1,\"queue\":1,\"batches\":[{\"waits\":[{\"sem\":0,\"value\":1,\"stages\":[\"all_commands\"]}],\"recs\":[1],\"signals\":[{\"sem\":0,\"value\":2,\"stages\":[\"all_commands\"]}]}]}",
];

fn text_of(alloc: Global, lines: &[&str]) -> Result<String, AllocError> {
    let mut text = String::new(alloc);
    for line in lines {
        text.push_str(line)?;
        text.push_str("\n")?;
    }
    Ok(text)
}

#[test]
fn generates_the_worked_lines(rt: HostRuntime) -> Result<(), Fail> {
    let text = generate(rt.alloc(), 0, 1)?;
    let wanted = text_of(rt.alloc(), &FIRST)?;
    assert_eq!(rt; text.as_slice(), wanted.as_bytes());

    let text = generate(rt.alloc(), 1, 2)?;
    let wanted = text_of(rt.alloc(), &SECOND)?;
    assert_eq!(rt; text.as_slice(), wanted.as_bytes());

    let text = generate(rt.alloc(), 7, 101)?;
    let wanted = text_of(rt.alloc(), &LAST)?;
    assert!(rt;
        text.as_slice().ends_with(wanted.as_bytes()),
        "the second recording"
    );
    Ok(())
}
