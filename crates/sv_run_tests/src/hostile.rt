//! Faults, hostile texts and last values.
use crate::cuts::differing_cut;
use crate::faults::differing_fault;
use crate::texts::differing_text;
use std::test::Fail;

#[test]
fn what_is_owed_is_answered(rt: HostRuntime) -> Result<(), Fail> {
    assert_eq!(rt; differing_text(rt.alloc())?, None);
    assert_eq!(rt; differing_cut(rt.alloc())?, None);
    assert_eq!(rt; differing_fault(rt.alloc())?, None);
    Ok(())
}
