//! Numbers as decimal text, as scripts and reports spell them.
//!
//! A number's text is its decimal digits, without sign or leading zeros. So each number has one text, and no two numbers have
//! the same. Both calls run once for each number of a script or a report of many megabytes. `itoa` writes two digits at a
//! time, and reading is one pass over the digits with the value so far. Most of these numbers, such as registers, mutators
//! and fields, have one digit and need neither a buffer nor a loop. Easy to get wrong: the value is compared with the limit
//! at each digit. The text of a number past 64 bits must not wrap round to a small number.
ghost use Rattle.std.specs.Prelude.{◌≡◌, ◌≢◌, ℕ, ◌+◌, ◌-◌, ◌*◌, ◌<◌, ◌≤◌, ◌++◌, decimal, IfSome, IfNone, IsTrue, ◌↔◌, OnOk, OnErr, length, slice_index};
ghost use Rattle.std.specs.Int.{IsInRange};

use itoa::Buffer;
use nmgc_lists::NoMemory;

/// Appends the decimal text of `number` to `out`. After `NoMemory` nothing was appended.
pub fn push_number(out: &mut Vec<u8>, number: u64) -> Result<(), NoMemory>
    ensures ok { OnOk result (out.new.items ≡ out.old.items ++ decimal number) }
    ensures err { OnErr result (out.new.items ≡ out.old.items) }
{
    if number < 10 {
        out.push(b'0' + number as u8)?;
        return Ok(());
    }
    out.extend_from_slice(Buffer::new().format(number).as_bytes())?;
    Ok(())
}

/// Reads a token as a decimal number without leading zeros. Returns the number, or `None` exactly if `word` isn't the decimal
/// text of a number of at most `limit`. Takes no memory.
pub fn read_number(word: &[u8], limit: u64) -> Option<u64>
    ensures found { IfSome result (λ n. (word.now ≡ decimal n) × (n ≤ limit)) }
    ensures none { IfNone result ((n : ℕ) → n ≤ limit → word.now ≢ decimal n) }
{
    if word.len() == 1 {
        return with_digit(0, word[0], limit);
    }
    if !has_no_leading_zero(word) {
        return None;
    }
    let mut number = 0;
    for byte in word {
        number = with_digit(number, *byte, limit)?;
    }
    Some(number)
}

// Whether a token isn't empty and has no leading zero. The token `0` has none. No byte has to be a digit.
#[inline]
fn has_no_leading_zero(word: &[u8]) -> bool
    ensures { IsTrue result ↔ ((0 < length word.now) × (slice_index word.now 0 ≡ 48 → length word.now ≡ 1)) }
{
    match word {
        [] => false,
        [first, rest @ ..] => *first != b'0' || rest.is_empty(),
    }
}

// Returns `number` with one more digit at its end, or `None` exactly if the byte is no digit or the result exceeds `limit`.
#[inline(always)]
fn with_digit(number: u64, byte: u8, limit: u64) -> Option<u64>
    ensures digit { IfSome result (λ n. IsInRange 48 57 byte × (n ≡ 10 * number + (byte - 48))) }
    ensures within { IfSome result (λ n. n ≤ limit) }
    ensures none { IfNone result (IsInRange 48 57 byte → limit < 10 * number + (byte - 48)) }
{
    if !byte.is_ascii_digit() {
        return None;
    }
    let more = number.checked_mul(10)?.checked_add((byte - b'0') as u64)?;
    if more > limit {
        return None;
    }
    Some(more)
}
