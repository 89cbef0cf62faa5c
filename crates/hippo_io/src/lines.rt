//! Splits the input into lines, however its bytes arrive.
ghost use Rattle.std.specs.Prelude.{◌≡◌, ◌≢◌, ℕ, List, ◌+◌, ◌-◌, ◌<◌, ◌≤◌, ◌↔◌, ◌⊎◌, length, take, drop, slice_range, true, [], Some, None, Err, OnOk, OnErr, IfOk, IfErr, IsErrOf, IsSome, IsTrue, MatchOption, position, ◌==◌};
ghost use Rattle.std.specs.Borrow.{sem};
ghost use Rattle.std.specs.Io.BufRead.{Rests, strip_last};
ghost use Rattle.hippo_io.specs.Faults.{HasRisen};
ghost use Rattle.hippo_values.specs.Limits.{line_limit};
ghost use Rattle.hippo_io.specs.Lines.{line_of, line_feed, carriage_return, feeds};
ghost use Rattle.hippo_io.specs.LineTexts.{line_text};
ghost use Rattle.hippo_io.specs.Moves.{BeginsWithLine};
ghost use Rattle.hippo_io.specs.Inputs.{ForEachInput, ReadsMore};
ghost use Rattle.hippo_io.specs.Told.{Keeps, IsAtEnd, TakesAfter};

use crate::source::{Failed, Source};
use hippo_values::{LINE_LIMIT, Memory};
use memchr::memchr;
use std::alloc::Global;
use std::marker::Model;

// The most bytes that are read.
const INPUT_LIMIT: u64 = 1 << 40;

/// A line of the input, or the end of the input.
#[derive(Clone, Copy, Debug, PartialEq, Eq)]
pub enum Line<'a> {
    /// The bytes before the line feed or the end of the input, without one carriage return at their
    /// end.
    Text(&'a str),
    /// More than 65,536 bytes come before the line feed or the end of the input, counting any
    /// carriage return.
    TooLong,
    /// The line is not too long, but its bytes are not UTF-8.
    NotUtf8,
    /// No byte of the input is left.
    End,
}

/// Why no more lines can be read.
#[derive(Clone, Copy, Debug, PartialEq, Eq)]
pub enum LineFault {
    /// The source failed. The lines whose line feeds were read from it have been returned.
    Read,
    /// More than 2^40 bytes were read. The lines whose line feeds are among the first 2^40 bytes
    /// have been returned.
    TooMuch,
}

/// Splits the bytes of a source into lines. A line ends at a line feed or at the end of the input,
/// has at most 65,536 bytes before that, and loses one carriage return at its end.
#[derive(Drop)]
pub struct LineReader {
    // `buffer[start..end]` was read from the source and not yet returned.
    buffer: Vec<u8>,
    start: usize,
    end: usize,
    taken: u64,
    ended: bool,
    failure: Option<LineFault>,
}

impl Model for LineReader {
    ghost use Rattle.std.specs.Prelude.{◌≡◌, ◌-◌, ◌≤◌, ◌<◌, ◌↔◌, Some, slice_range};
    ghost use Rattle.hippo_io.specs.Position.{Position};

    ghost Value = { Position };

    ghost use Rattle.hippo_io.specs.Window.{position_of, IsWindow};

    ghost view = { position_of };

    ghost invariant = { IsWindow };
}

// What follows the lines returned so far.
#[derive(Clone, Copy)]
enum Found {
    // A line of this many bytes, and its line feed.
    Whole(usize),
    // The last bytes of the input, without a line feed.
    Rest,
    // A line that was too long; it was skipped.
    Skipped,
}

// Moves `buffer[start..end]` to the front.
fn move_to_front(buffer: &mut [u8], start: usize, end: usize)
    requires ordered { start ≤ end }
    requires in_buffer { end ≤ length buffer.old }
    ensures { take (end - start) buffer.new ≡ slice_range buffer.old start end }
{
    if start > 0 {
        buffer.copy_within(start..end, 0);
    }
}

// Reads at most `most` bytes into the buffer, after the bytes already in it.
fn read_after<S: Source>(
    source: &mut S,
    buffer: &mut [u8],
    filled: usize,
    most: usize,
) -> Result<usize, Failed>
    requires room { filled < length buffer.old }
    requires some { 0 < most }
    ensures count { IfOk result (λ n. (n ≤ most) × (filled + n ≤ length buffer.old)) }
    ensures taken { IfOk result (λ n. ForEachInput (S.left source.old) (S.reads source.old)
        (S.left source.new) (S.reads source.new) (λ left left'. TakesAfter left left' n
        (take filled buffer.old) (take (filled + n) buffer.new))) }
    ensures end { IfOk result (λ n. n ≡ 0 → ForEachInput (S.left source.old) (S.reads source.old)
        (S.left source.new) (S.reads source.new) (λ left left'. IsAtEnd left)) }
    ensures failed { OnErr result (ForEachInput (S.left source.old) (S.reads source.old)
        (S.left source.new) (S.reads source.new) (λ left left'. Keeps left left')) }
    ensures on { ReadsMore (S.reads source.old) (S.reads source.new) }
    ensures going { IfOk result (λ n. 0 < n
        → (S.reads source.new).ended ≡ (S.reads source.old).ended) }
    ensures ended { IfOk result (λ n. n ≡ 0 → (S.reads source.new).ended ≡ true) }
    ensures kept { take filled buffer.new ≡ take filled buffer.old }
    ensures cause { OnErr result (HasRisen (S.faults source.old) (S.faults source.new)) }
    ensures unfailed { OnOk result (S.faults source.new ≡ S.faults source.old) }
    ensures faults { S.faults source.old ≤ S.faults source.new }
{
    let room = buffer.len() - filled;
    let wanted = room.min(most);
    source.read(&mut buffer[filled..filled + wanted])
}

fn feed_place(bytes: &[u8]) -> Option<usize>
    ensures { result ≡ position (λ byte. byte == line_feed) bytes.now }
{
    memchr(b'\n', bytes)
}

// The index of the first line feed. The first `searched` bytes are known to have none.
fn find_feed(bytes: &[u8], searched: usize) -> Option<usize>
    requires searched { searched ≤ length bytes.now }
    requires none { feeds (take searched bytes.now) ≡ 0 }
    ensures { MatchOption result (feeds bytes.now ≡ 0) (BeginsWithLine bytes.now) }
{
    let place = feed_place(&bytes[searched..])?;
    Some(searched + place)
}

fn without_return(piece: &[u8]) -> &[u8]
    ensures { result.now ≡ strip_last carriage_return piece.now }
{
    match piece {
        [front @ .., b'\r'] => front,
        _ => piece,
    }
}

// The line of a piece of the input that is not too long.
fn text_of(piece: &[u8]) -> Line<'_>
    requires { length piece.now ≤ line_limit }
    ensures { line_text result ≡ Some (line_of piece.now) }
{
    match str::from_utf8(without_return(piece)) {
        Ok(text) => Line::Text(text),
        Err(_) => Line::NotUtf8,
    }
}

impl LineReader {
    ghost use Rattle.hippo_io.specs.HandingOut.{at_beginning, ReadsNextLine, HasHandedOut, input_limit, bytes_handed_out};
    ghost use Rattle.hippo_io.specs.Moves.{IsGoing, Refills, FailsToRefill, SkipsLine, GivesUp, FindsNext, EndsTogether, FindsEnd, IsShortEnough};
    ghost use Rattle.std.specs.Result.{result_err};
    ghost use Rattle.hippo_io.specs.contracts.lines.LineReader.{the_row};
    ghost use Rattle.hippo_io.specs.declared.lines.LineFault.TheVariants.{Read, TooMuch};

    /// A reader whose buffer holds the longest line. Fails only when out of memory.
    pub fn new(alloc: Global) -> Result<LineReader, Memory>
        ensures position { IfOk result (λ reader. reader ≡ at_beginning) }
        ensures handed { IfOk result (λ reader.
            (input : List ℕ) → HasHandedOut input [] reader (Some input)) }
    {
        Ok(LineReader {
            buffer: vec![in alloc; 0; LINE_LIMIT + 1]?,
            start: 0,
            end: 0,
            taken: 0,
            ended: false,
            failure: None,
        })
    }

    fn waiting(&self) -> &[u8]
        ensures bytes { result.now ≡ self.now.waiting }
        ensures taken { length self.now.waiting ≤ self.now.taken }
        ensures room { length self.now.waiting ≤ line_limit + 1 }
        ensures limit { (self.now.failure ≡ Some TooMuch) ↔ (input_limit < self.now.taken) }
    {
        &self.buffer[self.start..self.end]
    }

    // Skips the first `count` waiting bytes.
    fn let_go(&mut self, count: usize)
        requires { count ≤ length self.old.waiting }
        ensures { self.new ≡ record self.old { waiting = drop count self.old.waiting } }
    {
        self.start += count;
    }

    fn skip_waiting(&mut self)
        ensures { self.new ≡ record self.old { waiting = [] } }
    {
        self.start = self.end;
    }

    fn end(&mut self)
        ensures { self.new ≡ record self.old { ended = true } }
    {
        self.ended = true;
    }

    // Reads once and returns how many bytes arrived; 0 only at the end of the input.
    fn refill<S: Source>(&mut self, source: &mut S) -> Result<usize, LineFault>
        requires going { IsGoing self.old }
        requires room { length self.old.waiting ≤ line_limit }
        ensures more { IfOk result (λ n. ForEachInput (S.left source.old) (S.reads source.old)
            (S.left source.new) (S.reads source.new)
            (λ left left'. Refills self.old self.new left left' n)) }
        ensures end { IfOk result (λ n. n ≡ 0 → (self.new ≡ self.old)
            × ForEachInput (S.left source.old) (S.reads source.old) (S.left source.new)
            (S.reads source.new) (λ left left'. IsAtEnd left)) }
        ensures failed { IfErr result (λ fault. ForEachInput (S.left source.old)
            (S.reads source.old) (S.left source.new) (S.reads source.new)
            (λ left left'. FailsToRefill self.old self.new left left' fault)) }
        ensures on { ReadsMore (S.reads source.old) (S.reads source.new) }
        ensures going { IfOk result (λ n. 0 < n
            → (S.reads source.new).ended ≡ (S.reads source.old).ended) }
        ensures ended { IfOk result (λ n. n ≡ 0 → (S.reads source.new).ended ≡ true) }
        ensures limit { (self.new.failure ≡ Some TooMuch) ↔ (input_limit < self.new.taken) }
        ensures cause { IsErrOf result LineFault.Read
            → HasRisen (S.faults source.old) (S.faults source.new) }
        ensures unfailed { result ≢ Err LineFault.Read → S.faults source.new ≡ S.faults source.old }
        ensures faults { S.faults source.old ≤ S.faults source.new }
    {
        move_to_front(self.buffer.as_mut_slice(), self.start, self.end);
        self.end -= self.start;
        self.start = 0;
        let most = (INPUT_LIMIT - self.taken).max(1) as usize;
        match read_after(source, self.buffer.as_mut_slice(), self.end, most) {
            Ok(n) => {
                self.end += n;
                self.taken += n as u64;
                if self.taken > INPUT_LIMIT {
                    self.failure = Some(LineFault::TooMuch);
                    return Err(LineFault::TooMuch);
                }
                Ok(n)
            }
            Err(Failed) => {
                self.failure = Some(LineFault::Read);
                Err(LineFault::Read)
            }
        }
    }

    // Skips the waiting bytes, and then all bytes through the next line feed or the end of the
    // input.
    fn skip_line<S: Source>(&mut self, source: &mut S) -> Result<(), LineFault>
        requires going { IsGoing self.old }
        requires clear { feeds self.old.waiting ≡ 0 }
        requires long { line_limit < length self.old.waiting }
        requires taken { length self.old.waiting ≤ self.old.taken }
        ensures skipped { OnOk result (ForEachInput (S.left source.old) (S.reads source.old)
            (S.left source.new) (S.reads source.new)
            (λ left left'. SkipsLine self.old self.new left left')) }
        ensures gives_up { OnErr result (ForEachInput (S.left source.old) (S.reads source.old)
            (S.left source.new) (S.reads source.new)
            (λ left left'. GivesUp self.old self.new left left')) }
        ensures on { ReadsMore (S.reads source.old) (S.reads source.new) }
        ensures going { OnOk result (EndsTogether self.new (S.reads source.old)
            (S.reads source.new)) }
        ensures failure { self.new.failure ≡ result_err result }
        ensures later { OnOk result (bytes_handed_out self.old < bytes_handed_out self.new) }
        ensures limit { (self.new.failure ≡ Some TooMuch) ↔ (input_limit < self.new.taken) }
        ensures cause { IsErrOf result LineFault.Read
            → HasRisen (S.faults source.old) (S.faults source.new) }
        ensures unfailed { result ≢ Err LineFault.Read → S.faults source.new ≡ S.faults source.old }
        ensures faults { S.faults source.old ≤ S.faults source.new }
    {
        loop {
            self.skip_waiting();
            if self.refill(source)? == 0 {
                self.end();
                return Ok(());
            }
            if let Some(place) = find_feed(self.waiting(), 0) {
                self.let_go(place + 1);
                return Ok(());
            }
        }
    }

    // Reads until a whole line waits, the input has ended, or an overlong line was skipped.
    fn find_line<S: Source>(&mut self, source: &mut S) -> Result<Found, LineFault>
        requires going { IsGoing self.old }
        ensures found { IfOk result (λ found. ForEachInput (S.left source.old)
            (S.reads source.old) (S.left source.new) (S.reads source.new)
            (λ left left'. FindsNext self.old self.new left left' found)) }
        ensures short { IfOk result (λ found. IsShortEnough found self.new) }
        ensures gives_up { OnErr result (ForEachInput (S.left source.old) (S.reads source.old)
            (S.left source.new) (S.reads source.new)
            (λ left left'. GivesUp self.old self.new left left')) }
        ensures on { ReadsMore (S.reads source.old) (S.reads source.new) }
        ensures going { IfOk result (λ found. FindsEnd found self.new (S.reads source.old)
            (S.reads source.new)) }
        ensures failure { self.new.failure ≡ result_err result }
        ensures limit { (self.new.failure ≡ Some TooMuch) ↔ (input_limit < self.new.taken) }
        ensures cause { IsErrOf result LineFault.Read
            → HasRisen (S.faults source.old) (S.faults source.new) }
        ensures unfailed { result ≢ Err LineFault.Read → S.faults source.new ≡ S.faults source.old }
        ensures faults { S.faults source.old ≤ S.faults source.new }
    {
        let mut searched = 0;
        loop {
            let waiting = self.waiting();
            if let Some(length) = find_feed(waiting, searched) {
                return Ok(Found::Whole(length));
            }
            searched = waiting.len();
            if searched > LINE_LIMIT {
                self.skip_line(source)?;
                return Ok(Found::Skipped);
            }
            if self.refill(source)? == 0 {
                return Ok(Found::Rest);
            }
        }
    }

    /// Returns the next line, or `End` once all lines are returned. A line that is too long is
    /// skipped through its line feed.
    ///
    /// Returns `Read` only if the source failed, in this call or in an earlier one, and `TooMuch`
    /// exactly when more than 2^40 bytes were read from it. After a fault, and after the end, it
    /// returns the same again and does not read. The source's count of faults stays the same,
    /// unless the result is `Read`.
    pub fn next_line<S: Source>(&mut self, source: &mut S) -> Result<Line<'_>, LineFault>
        ensures* next { sem 𝓛 (Rests the_row self.entry (λ new.
            ReadsNextLine self.old new (S.left source.old) (S.reads source.old)
            (S.left source.new) (S.reads source.new) result)) }
        ensures cause { IsErrOf result LineFault.Read →
            (self.old.failure ≡ Some LineFault.Read)
            ⊎ HasRisen (S.faults source.old) (S.faults source.new) }
        ensures unfailed { result ≢ Err LineFault.Read → S.faults source.new ≡ S.faults source.old }
        ensures faults { S.faults source.old ≤ S.faults source.new }
        ensures after_end { IsTrue self.old.ended → source.new ≡ source.old }
        ensures after_fault { IsSome self.old.failure → source.new ≡ source.old }
    {
        if let Some(fault) = self.failure {
            return Err(fault);
        }
        if self.ended {
            return Ok(Line::End);
        }
        match self.find_line(source)? {
            Found::Whole(length) => {
                let from = self.start;
                self.start = from + (length + 1);
                Ok(text_of(&self.buffer[from..from + length]))
            }
            Found::Rest => {
                let from = self.start;
                self.start = self.end;
                self.ended = true;
                if from == self.end {
                    return Ok(Line::End);
                }
                Ok(text_of(&self.buffer[from..self.end]))
            }
            Found::Skipped => Ok(Line::TooLong),
        }
    }
}
