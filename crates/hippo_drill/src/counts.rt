//! Counts the lines of replies by their second words.
ghost use Rattle.std.specs.Prelude.{◌≡◌, ◌+◌, List, [], ◌∷◌, ◌++◌, bytes_eq, string_bytes, IfOk};
ghost use Rattle.std.specs.List.{before_first, after_first};
ghost use Rattle.hippo_values.specs.Texts.{Txt as Text, is_space};
ghost use Rattle.hippo_drill.specs.Counting.{second_word, lines_with, summary_of};
ghost use Rattle.hippo_drill.specs.Tallies.{counts_of};

use hippo_values::Memory;
use std::alloc::{AllocError, Global};

/// The number of replies so far, and how many of their lines have `row`, `flag` or `no` as their
/// second word.
#[derive(Clone, Copy, PartialEq, Eq)]
pub struct Counts {
    pub replies: u64,
    pub rows: u64,
    pub flags: u64,
    pub refusals: u64,
}

fn before_space(text: &str) -> &str
    ensures { result.now ≡ before_first is_space text.now }
{
    match text.split_once(' ') {
        Some((word, _)) => word,
        None => text,
    }
}

fn after_space(text: &str) -> &str
    ensures { result.now ≡ after_first is_space text.now }
{
    match text.split_once(' ') {
        Some((_, rest)) => rest,
        None => "",
    }
}

fn has_second_word(line: &str, word: &str) -> bool
    ensures { result ≡ bytes_eq (second_word line.now) word.now }
{
    before_space(after_space(line)) == word
}

fn lines_with(reply: &str, word: &str) -> usize
    ensures { result ≡ lines_with word.now reply.now }
{
    reply
        .split('\n')
        .filter(|line| has_second_word(line, word))
        .count()
}

// The sum of a count and a number of lines. `Memory` if the sum does not fit 64 bits.
fn more(count: u64, lines: usize) -> Result<u64, Memory>
    ensures { IfOk result (λ sum. sum ≡ count + lines) }
{
    match count.checked_add(lines as u64) {
        Some(sum) => Ok(sum),
        None => Err(Memory),
    }
}

impl Counts {
    /// The counts before the first reply.
    pub fn new() -> Counts
        ensures { result ≡ counts_of [] }
    {
        Counts {
            replies: 0,
            rows: 0,
            flags: 0,
            refusals: 0,
        }
    }

    /// Returns the counts with one more reply. Answers `Memory` if a count would not fit 64 bits.
    pub fn with(&self, reply: &str) -> Result<Counts, Memory>
        ensures { IfOk result (λ counts. (replies : List Text) → self.now ≡ counts_of replies
            → counts ≡ counts_of (replies ++ reply.now ∷ [])) }
    {
        Ok(Counts {
            replies: more(self.replies, 1)?,
            rows: more(self.rows, lines_with(reply, "row"))?,
            flags: more(self.flags, lines_with(reply, "flag"))?,
            refusals: more(self.refusals, lines_with(reply, "no"))?,
        })
    }

    /// Returns the five lines that report how many replies, entries, rows, flags and refusals there
    /// were.
    pub fn summary(&self, alloc: Global, entries: u64) -> Result<String, AllocError>
        ensures { IfOk result (λ text. (replies : List Text) → self.now ≡ counts_of replies
            → string_bytes text ≡ summary_of replies entries) }
    {
        let Counts {
            replies,
            rows,
            flags,
            refusals,
        } = *self;
        format!(in alloc;
            "lines {replies}\nentries {entries}\nrows {rows}\nflags {flags}\nrefusals {refusals}\n"
        )
    }
}
