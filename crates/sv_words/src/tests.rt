//! Worked examples.
use super::*;
use std::alloc::{AllocError, Global};
use std::test::Fail;

fn words_of(alloc: Global, words: &[&str]) -> Result<Vec<String>, AllocError> {
    let mut all = Vec::new(alloc);
    for word in words {
        all.push(word.to_string(alloc)?)?;
    }
    Ok(all)
}

fn read_of(alloc: Global, words: &[&str]) -> Result<Option<Ask>, AllocError> {
    let words = words_of(alloc, words)?;
    read(alloc, words.as_slice())
}

#[test]
fn words_that_keep_the_rules_are_read(rt: HostRuntime) -> Result<(), Fail> {
    let table: [(&[&str], Ask); 6] = [
        (&["check"], Ask::Check),
        (&["replay"], Ask::Replay),
        (&["gen", "007", "1"], Ask::Generate { seed: 7, count: 1 }),
        (
            &["gen", "18446744073709551615", "100000"],
            Ask::Generate {
                seed: 18446744073709551615,
                count: 100000,
            },
        ),
        (
            &["bench", "00000000000000000000", "00000000000000000042"],
            Ask::Bench { seed: 0, count: 42 },
        ),
        (
            &["bench", "12", "3456"],
            Ask::Bench {
                seed: 12,
                count: 3456,
            },
        ),
    ];
    for (words, ask) in table {
        assert!(rt;
            read_of(rt.alloc(), words)? == Some(ask),
            "the words keep the rules"
        );
        let words = words_of(rt.alloc(), words)?;
        assert_eq!(rt; is_replay(words.as_slice()), ask == Ask::Replay);
    }
    Ok(())
}

#[test]
fn other_words_are_not(rt: HostRuntime) -> Result<(), Fail> {
    let table: [&[&str]; 16] = [
        &[],
        &[""],
        &["Check"],
        &["check", "now"],
        &["check", "0", "1"],
        &["--help"],
        &["-h"],
        &["gen"],
        &["gen", "0"],
        &["gen", "0", "0"],
        &["gen", "0", "100001"],
        &["gen", "-1", "1"],
        &["gen", "+1", "1"],
        &["gen", "18446744073709551616", "1"],
        &["gen", "000000000000000000001", "1"],
        &["bench", "0", "1", "1"],
    ];
    for words in table {
        assert!(rt;
            read_of(rt.alloc(), words)?.is_none(),
            "the words break the rules"
        );
    }
    Ok(())
}
