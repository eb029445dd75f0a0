//! A run that waits for nobody: from a source to a sink.
ghost use Rattle.std.specs.Prelude.{◌≡◌, ◌≢◌, ℕ, ◌+◌, ◌<◌, ◌↔◌, ◌≤◌, List, [], Some, None};
ghost use Rattle.std.specs.Io.KnownBytes.{Appends};
ghost use Rattle.sv_hub.specs.Attachments.{HasHeard};
ghost use Rattle.sv_io.specs.Causes.{Rose};
ghost use Rattle.sv_model.specs.declared.work.Report.{Report};
ghost use Rattle.sv_words.specs.Words.{asked};
ghost use Rattle.sv_app.specs.Asked.{IsAnswerToAsk};
ghost use Rattle.sv_app.specs.Run.{IsAnswered, IsAnsweredOrMemory, IsSilent, IsInput, AppendsPart};

use crate::Status;
use crate::asked::{answer_to, input};
use crate::delivery::{WriteStop, deliver};
use std::alloc::Global;
use sv_hub::{Audience, Hub};
use sv_io::{MAX_TEXT, ReadStop, Sink, Source};
use sv_words::{Ask, is_usage, read};

/// Does what the words ask for, which are the program's arguments and not `replay`: `check` reads the
/// source to its end and writes the answer to what it gave; `gen` writes a generated trace, and `bench`
/// one line on it.
///
/// `Clean`, `Found` and `Refused` say that the whole answer was written. The other statuses: `Usage` where
/// the words break the rules of words, `ReadFault` and `WriteFault` at the first fault, `TooLong` where
/// the text has more than [`MAX_TEXT`] bytes, and `Memory` for want of memory. At a write fault a first
/// part of the answer is written, and at the others nothing.
///
/// The listeners of the hub hear the reports that `check` prints, in the order of the text and before the
/// first write. They hear nothing of a trace that is refused, of `gen` and `bench`, and with a status that
/// writes nothing.
pub fn check_run<S: Source, K: Sink>(
    alloc: Global,
    words: &[String],
    source: &mut S,
    sink: &mut K,
    hub: &mut Hub,
) -> Status
    requires { asked words.now ≢ Some Ask.Replay }
    ensures answered { IsAnswered result → (bytes : List ℕ) × (text : List ℕ) × (reports : List Report)
        × IsInput S.left S.given S.ended (asked words.now) bytes source.old source.new
        × IsAnswerToAsk (asked words.now) bytes result text reports
        × Appends (K.written sink.old) (K.written sink.new) text
        × HasHeard reports
        (⟦<Hub as Audience>⟧.attachments hub.old)
        (⟦<Hub as Audience>⟧.attachments hub.new) }
    ensures write_fault { result ≡ Status.WriteFault
        → (bytes : List ℕ) × (status : Status) × (text : List ℕ) × (reports : List Report)
        × IsInput S.left S.given S.ended (asked words.now) bytes source.old source.new
        × IsAnswerToAsk (asked words.now) bytes status text reports
        × AppendsPart (K.written sink.old) (K.written sink.new) text
        × Rose (K.faults sink.old) (K.faults sink.new)
        × HasHeard reports
        (⟦<Hub as Audience>⟧.attachments hub.old)
        (⟦<Hub as Audience>⟧.attachments hub.new) }
    ensures no_write_fault { result ≢ Status.WriteFault → K.faults sink.new ≡ K.faults sink.old }
    ensures read_fault { result ≡ Status.ReadFault → Rose (S.faults source.old) (S.faults source.new) }
    ensures no_read_fault { result ≢ Status.ReadFault → S.faults source.new ≡ S.faults source.old }
    ensures too_long { (result ≡ Status.TooLong) ↔ (S.given source.old + 67108864 < S.given source.new) }
    ensures usage { (result ≡ Status.Usage) ↔ (asked words.now ≡ None) }
    ensures unread { asked words.now ≢ Some Ask.Check → asked words.now ≢ Some Ask.Replay
        → source.new ≡ source.old }
    ensures silent { IsSilent result → sink.new ≡ sink.old }
    ensures unheard { IsSilent result
        → HasHeard []
        (⟦<Hub as Audience>⟧.attachments hub.old)
        (⟦<Hub as Audience>⟧.attachments hub.new) }
    ensures complete { asked words.now ≢ None → S.given source.new ≤ S.given source.old + 67108864
        → ¬ Rose (S.faults source.old) (S.faults source.new) → ¬ Rose (K.faults sink.old) (K.faults sink.new)
        → IsAnsweredOrMemory result }
{
    if is_usage(words) {
        return Status::Usage;
    }
    let Ok(Some(ask)) = read(alloc, words) else {
        return Status::Memory;
    };
    let bytes = match input(alloc, ask, source) {
        Ok(bytes) => bytes,
        Err(ReadStop::Failed) => return Status::ReadFault,
        Err(ReadStop::TooLong) => return Status::TooLong,
        Err(ReadStop::Memory) => return Status::Memory,
    };
    let Ok(answer) = answer_to(alloc, ask, bytes.as_slice()) else {
        return Status::Memory;
    };
    match deliver(sink, hub, &answer) {
        Ok(()) => answer.status,
        Err(WriteStop::Memory) => Status::Memory,
        Err(WriteStop::Failed) => Status::WriteFault,
    }
}
