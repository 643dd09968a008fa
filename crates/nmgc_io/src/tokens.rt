//! Lines and tokens of a text.
//!
//! A text is cut at line feeds, and the last line feed may be missing. A line is cut at single spaces, so two spaces in a row
//! make an empty token. Most lines have at most sixteen bytes. The spaces of such a line are found by one comparison of
//! sixteen bytes (`spaces`), if the text after the line fills them up. Every other line is searched anew for each token.
ghost use Rattle.std.specs.Prelude.{◌≡◌, ◌<◌, ◌∷◌, [], map, length, take, ◌≤◌, OnOk, IfSome, IfNone};
ghost use Rattle.nmgc_io.specs.Text.{lines_of, tokens_of, is_blank_or_comment};
ghost use Rattle.nmgc_io.specs.Spaces.{MarksSpaces};

use crate::cutting::{LANES, cut, cut_within};
use crate::spaces::{cut_marked, space_marks};
use nmgc_lists::NoMemory;

/// Splits a text into its first line, without the line feed, and the text after this line. The last line may lack a line
/// feed. Returns `None` exactly if the text is empty. Takes no memory.
#[inline]
pub fn split_line(bytes: &[u8]) -> Option<(&[u8], &[u8])>
    ensures line { IfSome result (λ parts. lines_of bytes.now ≡ parts.0.now ∷ lines_of parts.1.now) }
    ensures less { IfSome result (λ parts. length parts.1.now < length bytes.now) }
    ensures front { IfSome result (λ parts. parts.0.now ≡ take (length parts.0.now) bytes.now) }
    ensures none { IfNone result (lines_of bytes.now ≡ []) }
{
    if bytes.is_empty() {
        return None;
    }
    match cut(bytes, b'\n') {
        Some(parts) => Some(parts),
        None => Some((bytes, &[])),
    }
}

/// Whether a line is empty, or is a comment, which begins with `#`. A line of spaces is neither. Takes no memory.
#[inline]
pub fn is_blank_or_comment(line: &[u8]) -> bool
    ensures { result ≡ is_blank_or_comment line.now }
{
    match line {
        [] => true,
        [first, ..] => *first == b'#',
    }
}

/// Replaces the content of `tokens` by the tokens of `line`. After `NoMemory` the content of `tokens` isn't specified.
pub fn cut_tokens<'a>(tokens: &mut Vec<&'a [u8]>, line: &'a [u8]) -> Result<(), NoMemory>
    ensures { OnOk result (map (λ t. t.now) tokens.new.items ≡ tokens_of line.now) }
{
    cut_tokens_within(tokens, line, line)
}

// Does the same as `cut_tokens` for a line of at most `LANES` bytes, whose spaces `spaces` marks.
#[inline(always)]
fn cut_short<'a>(tokens: &mut Vec<&'a [u8]>, line: &'a [u8], spaces: u64) -> Result<(), NoMemory>
    requires short { length line.now ≤ LANES }
    requires marks { MarksSpaces spaces line.now }
    ensures { OnOk result (map (λ t. t.now) tokens.new.items ≡ tokens_of line.now) }
{
    tokens.clear();
    let mut rest = line;
    let mut marks = spaces;
    while let Some((token, after, marks_after)) = cut_marked(rest, marks) {
        tokens.push(token)?;
        rest = after;
        marks = marks_after;
    }
    tokens.push(rest)?;
    Ok(())
}

/// Does the same as `cut_tokens`. Requires that `text` begins with `line`. Text after a short line saves time.
pub fn cut_tokens_within<'a>(
    tokens: &mut Vec<&'a [u8]>,
    line: &'a [u8],
    text: &[u8],
) -> Result<(), NoMemory>
    requires { line.now ≡ take (length line.now) text.now }
    ensures { OnOk result (map (λ t. t.now) tokens.new.items ≡ tokens_of line.now) }
{
    if line.len() <= LANES && text.len() >= LANES {
        return cut_short(tokens, line, space_marks(text));
    }
    tokens.clear();
    let mut rest = line;
    let mut from = 0;
    while let Some((token, after)) = cut_within(text, from, rest, b' ') {
        tokens.push(token)?;
        from += token.len() + 1;
        rest = after;
    }
    tokens.push(rest)?;
    Ok(())
}
