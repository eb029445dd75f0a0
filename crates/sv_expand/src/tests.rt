//! Worked examples.
use crate::{access, first_sync, is_within, names_all, second_sync, supported, usages_at};
use sv_mask::{AccessWord, Accesses, StageWord, Stages, Usages};

const fn stages(plain: u32, top: bool, bottom: bool) -> StageWord {
    StageWord {
        plain: Stages(plain),
        top,
        bottom,
    }
}

const fn accesses(plain: u32, memory_read: bool, memory_write: bool) -> AccessWord {
    AccessWord {
        plain: Accesses(plain),
        memory_read,
        memory_write,
    }
}

#[test]
fn follows_the_logical_order(rt: HostRuntime) {
    // (named stages, top, bottom, first scope, second scope)
    let scopes = [
        (0x1, false, false, 0x1, 0xfff),
        (0x800, false, false, 0x801, 0x800),
        (0x100, false, false, 0x1ff, 0x700),
        (0x1000, false, false, 0x1000, 0x1000),
        (0x10000, false, false, 0x10000, 0x10000),
        (0, false, true, 0xffff, 0),
        (0, true, false, 0, 0xffff),
        (0x20000, false, false, 0, 0),
    ];
    for (plain, top, bottom, first, second) in scopes {
        let word = stages(plain, top, bottom);
        assert!(rt; first_sync(word) == Stages(first));
        assert!(rt; second_sync(word) == Stages(second));
    }
    assert!(rt; names_all(stages(0xffff, false, false)));
    assert!(rt; !names_all(stages(0xfffe, true, true)));
}

#[test]
fn takes_named_accesses_at_named_stages(rt: HostRuntime) {
    let copy = stages(0x1000, false, false);
    let clear = stages(0x8000, false, false);
    let transfer_read = accesses(0x1000, false, false);
    let transfer_write = accesses(0x2000, false, false);
    assert!(rt; access(copy, transfer_write) == Usages(1 << 37));
    assert!(rt; access(copy, accesses(0, true, false)) == Usages(1 << 34));
    assert!(rt; access(copy, accesses(0, false, true)) == Usages(1 << 37));
    assert!(rt; access(stages(0, true, true), transfer_write) == Usages(0));
    assert!(rt; usages_at(copy) == Usages((1 << 34) | (1 << 37)));
    assert!(rt; supported(copy, transfer_read) && !supported(clear, transfer_read));
    assert!(rt; supported(clear, accesses(0, true, false)));
    let both = stages(0x9000, false, false);
    assert!(rt; is_within(clear, transfer_write, both, transfer_write));
    assert!(rt; !is_within(both, transfer_write, clear, transfer_write));
    assert!(rt; !is_within(clear, transfer_write, both, transfer_read));
}
