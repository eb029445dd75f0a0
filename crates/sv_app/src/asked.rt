//! The answer to what is asked for.
ghost use Rattle.std.specs.Prelude.{◌≡◌, ◌≢◌, ◌<◌, ◌≤◌, ◌↔◌, ◌+◌, [], Some, Err, IfOk, IsErrOf};
ghost use Rattle.sv_io.specs.Causes.{Rose};
ghost use Rattle.sv_gen.specs.Generated.{generated};
ghost use Rattle.sv_words.specs.Words.{IsInBounds};
ghost use Rattle.sv_app.specs.Asked.{IsAnswerToAsk};
ghost use Rattle.sv_app.specs.Run.{IsInput};

use crate::Status;
use crate::answer::{Answer, text_answer};
use crate::bench::bench;
use std::alloc::{AllocError, Global};
use sv_gen::generate;
use sv_io::{MAX_TEXT, ReadStop, Source, read_all};
use sv_range::List;
use sv_words::Ask;

/// The bytes that are asked about: all of the source for `check` and `replay`. Nothing else reads.
pub fn input<S: Source>(alloc: Global, ask: Ask, source: &mut S) -> Result<Vec<u8>, ReadStop>
    ensures input { IfOk result (λ v. IsInput S.left S.given S.ended
        (Some ask) v.items source.old source.new) }
    ensures unread { ask ≢ Ask.Check → ask ≢ Ask.Replay → source.new ≡ source.old }
    ensures failed { IsErrOf result ReadStop.Failed → Rose (S.faults source.old) (S.faults source.new) }
    ensures no_fault { result ≢ Err ReadStop.Failed → S.faults source.new ≡ S.faults source.old }
    ensures too_long { IsErrOf result ReadStop.TooLong
        ↔ (S.given source.old + 67108864 < S.given source.new) }
    ensures limit { result ≢ Err ReadStop.TooLong → S.given source.new ≤ S.given source.old + 67108864 }
{
    match ask {
        Ask::Check | Ask::Replay => read_all(alloc, source),
        Ask::Generate { .. } | Ask::Bench { .. } => Ok(Vec::new(alloc)),
    }
}

// The generated trace of so many works, 1 to 100,000.
fn generated(alloc: Global, seed: u64, count: u32) -> Result<Answer, AllocError>
    requires { (1 ≤ count) × (count ≤ 100000) }
    ensures { IfOk result (λ it. (it.status ≡ Status.Clean) × (it.text ≡ generated seed count)
        × (it.reports ≡ [])) }
{
    let text = generate(alloc, seed, count)?;
    Ok(Answer {
        status: Status::Clean,
        text: List::from_vec(text),
        reports: List::new(alloc),
    })
}

/// The answer to what is asked for, which is no replay, about these bytes.
pub fn answer_to(alloc: Global, ask: Ask, bytes: &[u8]) -> Result<Answer, AllocError>
    requires no_replay { ask ≢ Ask.Replay }
    requires bounds { IsInBounds ask }
    ensures { IfOk result (λ it. IsAnswerToAsk (Some ask) bytes.now it.status it.text it.reports) }
{
    match ask {
        Ask::Check => text_answer(alloc, bytes),
        Ask::Generate { seed, count } => generated(alloc, seed, count),
        Ask::Bench { seed, count } => bench(alloc, seed, count),
        Ask::Replay => unreachable!(),
    }
}
