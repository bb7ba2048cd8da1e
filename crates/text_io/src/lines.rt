// The lines of a source, one by one.
ghost use Rattle.std.specs.Prelude.{◌≡◌, ◌+◌, ◌<◌, ◌≤◌, [], length, MatchOption};
ghost use Rattle.text_io.specs.Lines.{IsLineAt, Lacks, LacksLine, ReadsAhead, TakesWaiting, TellsLine, line_end};
ghost use Rattle.text_io.specs.Reading.{piece_length};
ghost use Rattle.text_io.specs.declared.lines.LineFault.TheVariants.{Failed};

use crate::Source;
use crate::whole::PIECE;
use refusal::Failed;
use std::marker::Model;
use thiserror::Error;

/// Why there is no line where the source has not just ended.
#[derive(Clone, Copy, PartialEq, Eq, Debug, Error)]
pub enum LineFault {
    /// A call of the source failed, and it has raised its count of faults. What it gave before has no end of a line.
    #[error("a call to the outside failed")]
    Failed,
    /// More bytes than a line has came without an end.
    #[error("the line is too long")]
    TooLong,
    /// The source ended behind bytes without an end.
    #[error("the last line has no end")]
    CutOff,
}

impl From<Failed> for LineFault {
    ghost from_gives = { λ _ fault. fault ≡ Failed };

    fn from(_failed: Failed) -> LineFault {
        LineFault::Failed
    }
}

/// The lines of a source as they come. What was read and not yet given is kept, 4,096 bytes at most, so a source is to be read
/// by one reader alone. Contracts see it as the line that was given last, the bytes that were read ahead of it, and how many
/// bytes a line has at most.
#[derive(Drop)]
pub struct Lines {
    piece: [u8; PIECE],
    // The line stands from `start` to `stop`, what was read ahead from `from` to `end`.
    start: usize,
    stop: usize,
    from: usize,
    end: usize,
    longest: usize,
}

impl Model for Lines {
    ghost use Rattle.std.specs.Prelude.{◌<◌, ◌≤◌};
    ghost use Rattle.std.specs.List.{slice_range};
    ghost use Rattle.text_io.specs.Lines.{LinesState};
    ghost use Rattle.text_io.specs.Reading.{piece_length};

    ghost Value = { LinesState };

    ghost view = { λ l. record {
      line = slice_range l.piece l.start l.stop;
      ahead = slice_range l.piece l.from l.end;
      longest = l.longest;
    } };

    ghost invariant = { λ l. (l.start ≤ l.stop) × (l.stop ≤ piece_length) × (l.from ≤ l.end) × (l.end ≤ piece_length) × (l.longest < piece_length) };
}

// The place of the first end of a line.
fn place_of_end(bytes: &[u8]) -> Option<usize>
    ensures { MatchOption result (Lacks line_end bytes.now) (λ at. IsLineAt at bytes.now) }
{
    bytes.iter().position(|byte| *byte == b'\n')
}

impl Lines {
    /// A reader of lines that have at most so many bytes, without their ends. Nothing was read yet.
    pub fn new(longest: usize) -> Lines
        requires { longest < piece_length }
        ensures { result ≡ record { line = []; ahead = []; longest = longest } }
    {
        Lines {
            piece: [0; PIECE],
            start: 0,
            stop: 0,
            from: 0,
            end: 0,
            longest,
        }
    }

    /// The line that was given last, without its end.
    pub fn line(&self) -> &[u8]
        ensures { result.now ≡ self.now.line }
    {
        &self.piece[self.start..self.stop]
    }

    // How many bytes were read ahead.
    fn waiting(&self) -> usize
        ensures count { result ≡ length self.now.ahead }
        ensures few { result ≤ piece_length }
    {
        self.end - self.from
    }

    // Takes the line that waits, if there is one.
    fn take_waiting(&mut self) -> bool
        ensures { TakesWaiting result self.old self.new }
    {
        let most = self.end.min(self.from + self.longest + 1);
        match place_of_end(&self.piece[self.from..most]) {
            Some(at) => {
                self.start = self.from;
                self.stop = self.from + at;
                self.from = self.stop + 1;
                true
            }
            None => false,
        }
    }

    // Asks the source once, and answers how many bytes came.
    fn read_ahead<S: Source>(&mut self, source: &mut S) -> Result<usize, Failed>
        requires { length self.old.ahead ≤ self.old.longest }
        ensures { ReadsAhead result self.old self.new (S.state source.old) (S.state source.new) }
    {
        self.piece.copy_within(self.from..self.end, 0);
        self.end -= self.from;
        self.from = 0;
        self.start = 0;
        self.stop = 0;
        let n = source.read(&mut self.piece[self.end..])?;
        self.end += n;
        Ok(n)
    }

    /// Goes to the next line, and answers whether there is one: there is none where the source has ended behind the last.
    /// The source is asked only where no whole line waits, and whatever is answered, nothing that it gave is lost.
    pub fn next<S: Source>(&mut self, source: &mut S) -> Result<bool, LineFault>
        ensures tells { TellsLine result self.old self.new (S.state source.old) (S.state source.new) }
        ensures few { length self.new.ahead ≤ piece_length }
        ensures longest { self.new.longest ≡ self.old.longest }
    {
        loop {
            if self.take_waiting() {
                return Ok(true);
            }
            let waiting = self.waiting();
            if waiting > self.longest {
                return Err(LineFault::TooLong);
            }
            if self.read_ahead(source)? == 0 {
                return if waiting == 0 {
                    Ok(false)
                } else {
                    Err(LineFault::CutOff)
                };
            }
        }
    }
}
