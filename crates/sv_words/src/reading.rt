//! Words that are read.
ghost use Rattle.std.specs.Prelude.{◌≡◌, ◌↔◌, IfOk, IfSome, IsTrue, is_none, option_map};
ghost use Rattle.clap.specs.Words.{app_of};
ghost use Rattle.sv_words.specs.Words.{IsInBounds, asked, asked_alone, asked_of_text, asked_read};
ghost use Rattle.sv_words.specs.Words.{asked_with, count_of, seed_of};
ghost use Rattle.sv_words.specs.Reading.{command as command_read};

use crate::Ask;
use crate::numbers::number_within;
use clap::{Arg, Command};
use std::alloc::{AllocError, Global};

const MOST_WORKS: u64 = 100000;

// What one word alone asks for.
fn asked_alone(word: &str) -> Option<Ask>
    ensures { result ≡ asked_alone word.now }
{
    if word == "check" {
        Some(Ask::Check)
    } else if word == "replay" {
        Some(Ask::Replay)
    } else {
        None
    }
}

// What a word with a seed and a count asks for.
fn asked_of_text(word: &str, seed: u64, count: u32) -> Option<Ask>
    ensures { result ≡ asked_of_text word.now seed count }
{
    if word == "gen" {
        Some(Ask::Generate { seed, count })
    } else if word == "bench" {
        Some(Ask::Bench { seed, count })
    } else {
        None
    }
}

// What a word with two more asks for.
fn asked_with(word: &str, seed: &str, count: &str) -> Option<Ask>
    ensures { result ≡ asked_with word.now (seed_of seed.now) (count_of count.now) }
{
    match (
        number_within(0, u64::MAX, seed),
        number_within(1, MOST_WORKS, count),
    ) {
        (Some(seed), Some(count)) => asked_of_text(word, seed, count as u32),
        _ => None,
    }
}

fn asked(words: &[String]) -> Option<Ask>
    ensures { result ≡ asked words.now }
{
    match words {
        [word] => asked_alone(word.as_str()),
        [word, seed, count] => asked_with(word.as_str(), seed.as_str(), count.as_str()),
        _ => None,
    }
}

/// Whether the words break the rules of words.
pub fn is_usage(words: &[String]) -> bool
    ensures { result ≡ is_none (asked words.now) }
{
    asked(words).is_none()
}

/// Whether the words are `replay` alone.
pub fn is_replay(words: &[String]) -> bool
    ensures { IsTrue result ↔ (asked words.now ≡ Some Ask.Replay) }
{
    matches!(asked(words), Some(Ask::Replay))
}

// The command that reads three words by their places, and has no flag.
fn command<'a>(alloc: Global) -> Result<Command<'a>, AllocError>
    ensures { IfOk result (λ command. app_of command ≡ command_read) }
{
    let command = Command::new(alloc, "svval")
        .arg(Arg::new(alloc, "word"))?
        .arg(Arg::new(alloc, "seed"))?
        .arg(Arg::new(alloc, "count"))?;
    Ok(
        command
            .no_binary_name(true)
            .disable_help_flag(true)
            .disable_version_flag(true),
    )
}

// What the words ask for that were read by their places.
fn asked_read(word: Option<&str>, seed: Option<&str>, count: Option<&str>) -> Option<Ask>
    ensures { result ≡ asked_read (option_map (λ s. s.now) word.entry) (option_map (λ s. s.now) seed.entry)
        (option_map (λ s. s.now) count.entry) }
{
    match (word, seed, count) {
        (Some(word), None, None) => asked_alone(word),
        (Some(word), Some(seed), Some(count)) => asked_with(word, seed, count),
        _ => None,
    }
}

/// What the words ask for; None exactly where they break the rules of words. Fails only for want of memory.
pub fn read(alloc: Global, words: &[String]) -> Result<Option<Ask>, AllocError>
    ensures asked { IfOk result (λ ask. ask ≡ asked words.now) }
    ensures bounds { IfOk result (λ ask. IfSome ask IsInBounds) }
{
    if is_usage(words) {
        return Ok(None);
    }
    let command = command(alloc)?;
    // Of words that keep the rules none is a flag, so memory alone can be wanting.
    let Ok(matches) = command.try_get_matches_from(words) else {
        return Err(AllocError);
    };
    Ok(asked_read(
        matches.get_str("word"),
        matches.get_str("seed"),
        matches.get_str("count"),
    ))
}
