//! Worked examples.
use super::*;
use std::test::Fail;

#[test]
fn reads_to_the_end_or_to_the_first_fault(rt: HostRuntime) -> Result<(), Fail> {
    let bytes = b"0123456789".to_vec(rt.alloc())?;
    let pieces = vec![in rt.alloc(); 1usize, 3]?;
    let mut source = MemSource::new(bytes, pieces, Vec::new(rt.alloc()));
    match read_all(rt.alloc(), &mut source) {
        Ok(text) => assert_eq!(rt; text.as_slice(), b"0123456789".as_slice()),
        Err(_) => assert!(rt; false, "a source without faults"),
    }

    let bytes = b"0123456789".to_vec(rt.alloc())?;
    let pieces = vec![in rt.alloc(); 8usize]?;
    let fails = vec![in rt.alloc(); 1u64]?;
    let mut source = MemSource::new(bytes, pieces, fails);
    let stopped = read_all(rt.alloc(), &mut source);
    assert!(rt;
        matches!(stopped, Err(ReadStop::Failed)),
        "eight bytes, then a fault"
    );
    Ok(())
}

#[test]
fn writes_all_or_a_prefix(rt: HostRuntime) -> Result<(), Fail> {
    let table = [
        (10usize, 9u64, "0123456789"),
        (10, 0, ""),
        (10, 1, "01234567"),
        (9, 9, "01234567"),
    ];
    for (room, failing, written) in table {
        let pieces = vec![in rt.alloc(); 8usize]?;
        let fails = vec![in rt.alloc(); failing]?;
        let mut sink = MemSink::new(rt.alloc(), room, pieces, fails)?;
        let answer = write_all(&mut sink, b"0123456789");
        assert_eq!(rt;
            answer.is_ok(),
            written.len() == 10,
            "room {room}, call {failing} fails"
        );
        assert_eq!(rt;
            sink.bytes(),
            written.as_bytes(),
            "room {room}, call {failing} fails"
        );
    }
    Ok(())
}

#[test]
fn reads_standard_input(rt: HostRuntime) {
    let mut source = StdSource::new(rt.stdin());
    assert!(rt; read_all(rt.alloc(), &mut source).is_ok());
}

#[test]
fn writes_to_standard_output(rt: HostRuntime) {
    let mut sink = StdSink::new(rt.stdout());
    assert!(rt; write_all(&mut sink, b"a line\n").is_ok());
}
