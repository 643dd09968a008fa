//! The heap line.
//!
//! Its six numbers are read from left to right. All its faults have one cause, so the order isn't visible. Easy to get wrong:
//! the least number of words of a nursery is the number of words of a segment, which the same line gives.
ghost use Rattle.std.specs.Prelude.{◌≡◌, map, IfOk};
ghost use Rattle.nmgc_script.specs.{Spelling.FitsConfig, Reading.Gives, Reading.between_at, Reading.segment_size_at, Reading.sizes_at, Reading.pace_at, Reading.config_at, Reading.numbers_at, Reading.heap_words_at};

use crate::tokens::small_number;
use crate::version::Version;
use crate::{Cause, Config, LineFault};
use nmgc_limits::{
    MAX_NURSERY_WORDS, MAX_QUOTA, MAX_SEGMENT_WORDS, MAX_SLICE, MAX_TRIGGER, MIN_SEGMENT_WORDS,
};

// Returns the number from `low` to `high` that a token spells, or a fault if the token spells no such number.
#[tactic(auto, unfolding(crate::specs::Reading::between_at))]
fn number_between(word: &[u8], low: u32, high: u32) -> Result<u32, LineFault>
    ensures { Gives result (between_at low high word.now) }
{
    let number = small_number(word, high)?;
    if number < low {
        return Err(LineFault::Bad(Cause::Operand));
    }
    Ok(number)
}

// Returns the number of words of a segment that a token spells: a power of two within the limits.
#[tactic(auto, unfolding(crate::specs::Reading::segment_size_at))]
fn segment_size(word: &[u8]) -> Result<u32, LineFault>
    ensures { Gives result (segment_size_at word.now) }
{
    let words = number_between(word, MIN_SEGMENT_WORDS, MAX_SEGMENT_WORDS)?;
    if !words.is_power_of_two() {
        return Err(LineFault::Bad(Cause::Operand));
    }
    Ok(words)
}

// Returns the sizes that three tokens spell: the number of segments, the words of a segment and the words of a nursery.
#[tactic(auto, unfolding(crate::specs::Reading::sizes_at))]
fn sizes(
    version: Version,
    segments: &[u8],
    words: &[u8],
    nursery: &[u8],
) -> Result<(u32, u32, u32), LineFault>
    ensures { Gives result (sizes_at version segments.now words.now nursery.now) }
{
    let segments = number_between(segments, 1, version.segments)?;
    let words = segment_size(words)?;
    let nursery = number_between(nursery, words, MAX_NURSERY_WORDS)?;
    Ok((segments, words, nursery))
}

// Returns the pace of a run that three tokens spell: the slice, the quota and the trigger.
#[tactic(auto, unfolding(crate::specs::Reading::pace_at))]
fn pace(slice: &[u8], quota: &[u8], trigger: &[u8]) -> Result<(u32, u32, u32), LineFault>
    ensures { Gives result (pace_at slice.now quota.now trigger.now) }
{
    Ok((
        number_between(slice, 1, MAX_SLICE)?,
        number_between(quota, 1, MAX_QUOTA)?,
        small_number(trigger, MAX_TRIGGER)?,
    ))
}

// Returns the settings that the six tokens after `heap` spell.
#[tactic(auto, unfolding(crate::specs::Reading::config_at))]
fn config(
    version: Version,
    segments: &[u8],
    words: &[u8],
    nursery: &[u8],
    slice: &[u8],
    quota: &[u8],
    trigger: &[u8],
) -> Result<Config, LineFault>
    ensures { Gives result (config_at version segments.now words.now nursery.now slice.now quota.now trigger.now) }
{
    let (segments, words, nursery) = sizes(version, segments, words, nursery)?;
    let (slice, quota, trigger) = pace(slice, quota, trigger)?;
    Ok(Config {
        segments,
        words,
        nursery,
        slice,
        quota,
        trigger,
    })
}

// Returns the settings that the tokens after `heap` spell. If there aren't exactly six, the fault has the cause `Heap`.
#[tactic(auto, unfolding(crate::specs::Reading::numbers_at))]
fn numbers(version: Version, tokens: &[&[u8]]) -> Result<Config, LineFault>
    ensures { Gives result (numbers_at version (map (λ w. w.now) tokens.now)) }
{
    match tokens {
        [segments, words, nursery, slice, quota, trigger] => {
            config(version, segments, words, nursery, slice, quota, trigger)
        }
        _ => Err(LineFault::Bad(Cause::Heap)),
    }
}

/// Returns the settings that the tokens of a heap line spell. A `Bad` always has the cause `Heap`. Takes no memory.
#[tactic(auto, unfolding(crate::specs::Reading::heap_words_at))]
pub fn heap_config(version: Version, tokens: &[&[u8]]) -> Result<Config, LineFault>
    ensures gives { Gives result (heap_words_at version (map (λ w. w.now) tokens.now)) }
    ensures fits { IfOk result (λ c. FitsConfig version.segments c) }
{
    let Some((name, tokens)) = tokens.split_first() else {
        return Err(LineFault::Bad(Cause::Heap));
    };
    if *name != b"heap".as_slice() {
        return Err(LineFault::Bad(Cause::Heap));
    }
    match numbers(version, tokens) {
        Ok(config) => Ok(config),
        Err(LineFault::NoMemory) => Err(LineFault::NoMemory),
        Err(LineFault::Bad(_)) => Err(LineFault::Bad(Cause::Heap)),
    }
}
