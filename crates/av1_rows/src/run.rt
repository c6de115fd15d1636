//! Parses runs of a program, and replays them over memory instead of standard input and output. Allocates.

ghost use Rattle.std.specs.Prelude.{◌≡◌, ◌<◌, ◌≤◌, length, IfOk, IfSome};
ghost use Rattle.av1_replay.specs.Answers.{Tells};

use av1_recon::{MemSink, SliceSource, run};
use av1_replay::{Answer, CallFault, Digest, Fields};
use av1_toolbox::run_tools;
use std::alloc::Global;

/// The greatest number of bytes that a sink takes.
const MAX_ROOM: usize = 1 << 26;

/// A program.
#[derive(Clone, Copy, Debug, PartialEq, Eq)]
pub enum Program {
    /// `av1_recon::run`, the program of plans.
    Reconstruction,
    /// `av1_toolbox::run_tools`, the tools for plans.
    Tools,
}

/// Calls that move at most `size` bytes each. One of the calls fails.
#[derive(Clone, Copy)]
pub struct Pieces {
    /// At least 1.
    size: usize,
    /// The number of the call that fails, from 0.
    failing: u64,
    ghost moves: { 0 < size },
}

impl Pieces {
    ghost use Rattle.av1_replay.specs.Fields.{unread};
    ghost use Rattle.av1_rows.specs.Runs.{pieces_before};

    fn read(fields: &mut Fields) -> Option<Pieces>
        ensures found { IfSome result (λ pieces. unread fields.old ≡ pieces_before pieces (unread fields.new)) }
        ensures later { length (unread fields.new) ≤ length (unread fields.old) }
    {
        let size = fields.four()? as usize;
        let failing = u64::from(fields.four()?);
        if size == 0 {
            return None;
        }
        Some(Pieces { size, failing })
    }
}

/// How many bytes a sink takes, and how many at once.
#[derive(Clone, Copy)]
pub struct Room {
    count: usize,
    pieces: Pieces,
}

impl Room {
    ghost use Rattle.av1_replay.specs.Fields.{unread};
    ghost use Rattle.av1_rows.specs.Runs.{room_before};

    fn read(fields: &mut Fields) -> Option<Room>
        ensures found { IfSome result (λ room. unread fields.old ≡ room_before room (unread fields.new)) }
        ensures later { length (unread fields.new) ≤ length (unread fields.old) }
    {
        let count = fields.four()? as usize;
        let pieces = Pieces::read(fields)?;
        if MAX_ROOM < count {
            return None;
        }
        Some(Room { count, pieces })
    }
}

/// A run of a program.
#[derive(Clone, Copy)]
pub struct Run<'a> {
    program: Program,
    words: &'a [u8],
    source: Pieces,
    out: Room,
    err: Room,
    input: &'a [u8],
    /// How many zeros follow the input.
    zeros: usize,
}

impl<'a> Run<'a> {
    ghost use Rattle.av1_replay.specs.Fields.{unread};
    ghost use Rattle.av1_rows.specs.Runs.{run_before};

    /// Reads the next run, of this program. `None` if its fields are cut off, a call may move no bytes, or a sink would
    /// take more than 64 MiB.
    pub fn read(program: Program, fields: &mut Fields<'a>) -> Option<Run<'a>>
        ensures program { IfSome result (λ found. found.program ≡ program) }
        ensures found { IfSome result (λ found. unread fields.old ≡ run_before found (unread fields.new)) }
        ensures later { length (unread fields.new) ≤ length (unread fields.old) }
    {
        let words = fields.short_part()?;
        let source = Pieces::read(fields)?;
        let out = Room::read(fields)?;
        let err = Room::read(fields)?;
        let input = fields.part()?;
        let zeros = fields.four()? as usize;
        Some(Run {
            program,
            words,
            source,
            out,
            err,
            input,
            zeros,
        })
    }

    /// The answer of the run: the exit status, the lines on `err`, and what was written to the output.
    ///
    /// # Errors
    ///
    /// `Malformed` if the last argument does not end with a line break, or an argument is not valid text, and `Memory`.
    pub fn replay(&self, alloc: Global) -> Result<Answer, CallFault> {
        let words = words_of(alloc, self.words)?;
        let mut bytes = Vec::from_slice(alloc, self.input)?;
        bytes.resize(self.input.len().saturating_add(self.zeros), 0)?;
        let failing = [self.source.failing];
        let mut source = SliceSource::new(&bytes, self.source.size, &failing);
        let failing_out = [self.out.pieces.failing];
        let mut out = MemSink::new(alloc, self.out.count, self.out.pieces.size, &failing_out)?;
        let failing_err = [self.err.pieces.failing];
        let mut err = MemSink::new(alloc, self.err.count, self.err.pieces.size, &failing_err)?;
        let status = match self.program {
            Program::Reconstruction => run(alloc, &words, &mut source, &mut out, &mut err),
            Program::Tools => run_tools(alloc, &words, &mut source, &mut out, &mut err),
        };
        answer_of(alloc, status, out.bytes(), err.bytes())
    }
}

// The result of a run.
fn answer_of(alloc: Global, status: u8, out: &[u8], err: &[u8]) -> Result<Answer, CallFault>
    ensures { IfOk result (λ came. Tells came status err.now out.now) }
{
    let mut digest = Digest::new();
    for byte in out {
        digest.push(*byte);
    }
    Ok(Answer {
        status,
        text: Vec::from_slice(alloc, err)?,
        count: digest.count(),
        sum: digest.sum(),
    })
}

// The arguments in a text. Each ends with a line break.
fn words_of(alloc: Global, text: &[u8]) -> Result<Vec<String>, CallFault> {
    let mut words = Vec::new(alloc);
    let mut word = Vec::new(alloc);
    for byte in text {
        if *byte == b'\n' {
            words.push(word_of(alloc, &word)?)?;
            word.clear();
        } else {
            word.push(*byte)?;
        }
    }
    if word.is_empty() {
        Ok(words)
    } else {
        Err(CallFault::Malformed)
    }
}

fn word_of(alloc: Global, bytes: &[u8]) -> Result<String, CallFault> {
    match str::from_utf8(bytes) {
        Ok(text) => Ok(String::from_str(alloc, text)?),
        Err(_) => Err(CallFault::Malformed),
    }
}
