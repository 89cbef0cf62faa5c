//! Shows what is read from readers that return pieces and errors, what writers accept that take
//! only part of a write or fail, and what a file gives back.

use hippo_entry_hex::first_word;
use hippo_io::{Failed, Line, LineReader, Sink, Source, StdSink, StdSource, write_whole};
use hippo_values::Memory;
use std::alloc::{AllocError, Global};
use std::fmt::Debug;
use std::fs::{self, Files};
use std::io::{self, ErrorKind, Read, Write};

// The highest number of a reader's answers that are shown.
const MOST: usize = 100;

// The file that is written and read back, in the working directory.
const FILE: &str = "hippo_read_file";

// A text in which `\r` and `\n` are replaced by the line endings that they stand for.
fn with_ends(alloc: Global, text: &str) -> Result<String, AllocError> {
    let text = text.replace(alloc, "\\r", "\r")?;
    text.replace(alloc, "\\n", "\n")
}

// The text before the first bar, and the text after it.
fn up_to_bar(text: &str) -> (&str, &str) {
    text.split_once('|').unwrap_or((text, ""))
}

// A reader that returns the next of the pieces between bars at each call, and an error if that
// piece is `!`. The part of a piece that does not fit the buffer is lost.
#[derive(Drop)]
struct Pieces<'a> {
    left: &'a str,
}

impl Read for Pieces<'_> {
    fn read(&mut self, buffer: &mut [u8]) -> io::Result<usize> {
        let (piece, left) = up_to_bar(self.left);
        self.left = left;
        if piece == "!" {
            return Err(io::Error::from(ErrorKind::Interrupted));
        }
        let mut piece = piece.as_bytes();
        piece.read(buffer)
    }
}

// Shows one more answer.
fn add<T: Debug>(alloc: Global, shown: &mut String, answer: &T) -> Result<(), AllocError> {
    shown.push_str(format!(in alloc; "{answer:?};")?.as_str())
}

// The answers of a reader, up to the second answer after its lines.
fn answers<S: Source>(
    alloc: Global,
    reader: &mut LineReader,
    source: &mut S,
) -> Result<String, AllocError> {
    let mut shown = String::new(alloc);
    let mut has_ended = false;
    for _ in 0..MOST {
        let answer = reader.next_line(source);
        let is_last = matches!(answer, Ok(Line::End) | Err(_));
        add(alloc, &mut shown, &answer)?;
        if is_last && has_ended {
            break;
        }
        has_ended = is_last;
    }
    Ok(shown)
}

fn lines_of<S: Source>(alloc: Global, source: &mut S) -> Result<String, AllocError> {
    match LineReader::new(alloc) {
        Ok(mut reader) => answers(alloc, &mut reader, source),
        Err(Memory) => Err(AllocError),
    }
}

/// Shows the lines of a reader that returns the pieces between bars one after another, with an
/// error at `!`; and then the answers at the end of the lines, twice.
pub fn lines(alloc: Global, text: &str) -> Result<String, AllocError> {
    let text = with_ends(alloc, text)?;
    let left = text.as_str();
    lines_of(alloc, &mut StdSource::new(Pieces { left }))
}

// A writer that takes as many bytes at each call as the next word says, and returns an error if
// that word is `!`.
#[derive(Drop)]
struct Calls<'a> {
    left: &'a str,
    taken: Vec<u8>,
}

impl Write for Calls<'_> {
    fn write(&mut self, piece: &[u8]) -> io::Result<usize> {
        let (call, left) = first_word(self.left);
        self.left = left;
        if call == "!" {
            return Err(io::Error::from(ErrorKind::Interrupted));
        }
        let count = piece.len().min(call.parse().unwrap_or(0));
        self.taken.write(&piece[..count])
    }

    fn flush(&mut self) -> io::Result<()> {
        Ok(())
    }
}

// A sink's answers to the texts between bars; each text is to be written whole.
fn answers_to<K: Sink>(alloc: Global, sink: &mut K, texts: &str) -> Result<String, AllocError> {
    let mut shown = String::new(alloc);
    for text in texts.split('|') {
        add(alloc, &mut shown, &write_whole(sink, text.as_bytes()))?;
    }
    Ok(shown)
}

// The answers, followed by what a writer has taken.
fn with_taken(
    alloc: Global,
    answers: Result<String, AllocError>,
    taken: &[u8],
) -> Result<String, AllocError> {
    let answers = answers?;
    format!(in alloc; "{answers}{:?}", str::from_utf8(taken).unwrap_or(""))
}

fn written_to_vec(alloc: Global, texts: &str) -> Result<String, AllocError> {
    let mut taken = Vec::new(alloc);
    let answers = answers_to(alloc, &mut StdSink::new(&mut taken), texts);
    with_taken(alloc, answers, taken.as_slice())
}

fn written_to_slice(alloc: Global, length: usize, texts: &str) -> Result<String, AllocError> {
    let mut taken = vec![in alloc; 0; length]?;
    let answers = answers_to(alloc, &mut StdSink::new(taken.as_mut_slice()), texts);
    with_taken(alloc, answers, taken.as_slice())
}

fn written_by_calls(alloc: Global, calls: &str, texts: &str) -> Result<String, AllocError> {
    let mut writer = Calls {
        left: calls,
        taken: Vec::new(alloc),
    };
    let answers = answers_to(alloc, &mut StdSink::new(&mut writer), texts);
    with_taken(alloc, answers, writer.taken.as_slice())
}

/// Shows a sink's answers to texts, and what its writer has taken in the end. The writer is given
/// before the first bar: `vec`; `slice` and its length; or how many bytes it takes at each call,
/// where `!` is an error. The texts follow, separated by bars.
pub fn written(alloc: Global, text: &str) -> Result<String, AllocError> {
    let (writer, texts) = up_to_bar(text);
    match first_word(writer) {
        ("vec", _) => written_to_vec(alloc, texts),
        ("slice", length) => written_to_slice(alloc, length.parse().unwrap_or(0), texts),
        _ => written_by_calls(alloc, writer, texts),
    }
}

fn put_in_file<R: Files>(files: &R, alloc: Global, text: &str) -> io::Result<()> {
    let text = with_ends(alloc, text)?;
    let mut sink = StdSink::new(fs::create(files, FILE)?);
    match write_whole(&mut sink, text.as_bytes()) {
        Ok(()) => Ok(()),
        Err(Failed) => Err(io::Error::from(ErrorKind::Other)),
    }
}

fn lines_in_file<R: Files>(files: &R, alloc: Global) -> io::Result<String> {
    let file = fs::open(files, FILE)?;
    Ok(lines_of(alloc, &mut StdSource::new(file))?)
}

/// Shows the lines of a file that a sink has written, and the answer at their end.
pub fn file_lines<R: Files>(files: &R, alloc: Global, text: &str) -> io::Result<String> {
    put_in_file(files, alloc, text)?;
    let lines = lines_in_file(files, alloc);
    fs::remove_file(files, FILE)?;
    lines
}
