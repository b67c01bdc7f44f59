//! The lines of a source, one at a time.

ghost use Rattle.std.specs.Prelude.{◌≡◌, ◌≢◌, ◌≤◌, ◌<◌, ◌++◌, [], true, false, Err, length, take, drop, ℕ, List, IfOk, IfErr, OnOk, OnErr, IsErrOf};
ghost use Rattle.std.specs.Io.KnownBytes.{Consumes, IsAtEnd};
ghost use Rattle.ar_base.specs.Faults.{HasRisen};
ghost use Rattle.desk_run.specs.Lines.{CutsAt, IsUncut};
ghost use Rattle.desk_run.specs.Reading.{Comes, PassesOn};
ghost use Rattle.desk_run.specs.Runs.{HasOverrun};

use crate::stop::{Stop, source_failed};
use ar_base::position_of;
use ar_io::{Failed, Source};
use std::alloc::{AllocError, Global};
use std::marker::Model;

/// How many bytes one read asks for at most.
const PIECE_LEN: usize = 65_536;

/// The most bytes of a line that is looked at: the hex of the longest message, and room for words.
const LONGEST_LINE: usize = 8_388_700;

/// A reader of lines. It holds the line that came last, and one piece of what was read.
#[derive(Drop)]
pub(crate) struct LineReader {
    piece: Vec<u8>,
    /// Where in the piece that begins which was not passed yet.
    start: usize,
    /// Where in the piece that ends which was read.
    end: usize,
    line: Vec<u8>,
    /// Whether the line is too long; then no more of it is held.
    long: bool,
}

// Clauses see the line that came last, and what was read behind it.
impl Model for LineReader {
    ghost use Rattle.std.specs.Prelude.{◌≤◌, ◌<◌, ◌-◌, take, drop, length};
    ghost use Rattle.desk_run.specs.Reading.{ReaderParts};

    ghost Value = { ReaderParts };

    ghost view = { λ r. record {
      line = r.line.items;
      long = r.long;
      ahead = take (r.end - r.start) (drop r.start r.piece.items);
    } };

    ghost invariant = { λ r. (r.start ≤ r.end) × (r.end ≤ length r.piece.items)
        × (0 < length r.piece.items) };
}

impl LineReader {
    /// A reader that has read nothing. The only error is want of memory.
    pub(crate) fn new(alloc: Global) -> Result<LineReader, AllocError>
        ensures { IfOk result (λ made. made.ahead ≡ []) }
    {
        let piece = vec![in alloc; 0u8; PIECE_LEN]?;
        Ok(LineReader {
            piece,
            start: 0,
            end: 0,
            line: Vec::new(alloc),
            long: false,
        })
    }

    /// The line that came last, without its newline.
    pub(crate) fn line(&self) -> &[u8]
        ensures { result.now ≡ self.now.line }
    {
        &self.line
    }

    /// Whether the line that came last was too long, and was passed over.
    pub(crate) fn is_long(&self) -> bool
        ensures { result ≡ self.now.long }
    {
        self.long
    }

    /// What was read behind it.
    fn ahead(&self) -> &[u8]
        ensures { result.now ≡ self.now.ahead }
    {
        &self.piece[self.start..self.end]
    }

    /// Begins another line.
    fn begin(&mut self)
        ensures { self.new ≡ record self.old { line = []; long = false } }
    {
        self.line.truncate(0);
        self.long = false;
    }

    /// Goes on by so many bytes, which the line has then too, unless it is too long.
    #[tactic(auto, using(crate::proofs::Cuts::drop_ahead))]
    fn pass(&mut self, count: usize) -> Result<(), AllocError>
        requires { count ≤ length self.old.ahead }
        ensures passed { OnOk result (PassesOn self.old self.new (take count self.old.ahead)) }
        ensures ahead { OnOk result (self.new.ahead ≡ drop count self.old.ahead) }
    {
        let long = self.long || count > LONGEST_LINE.saturating_sub(self.line.len());
        if !long {
            let more = &self.piece[self.start..self.start + count];
            self.line.extend_from_slice(more)?;
        }
        self.long = long;
        self.start += count;
        Ok(())
    }

    /// Goes on by one byte, which the line does not have.
    fn skip(&mut self)
        requires { 0 < length self.old.ahead }
        ensures { self.new ≡ record self.old { ahead = drop 1 self.old.ahead } }
    {
        self.start += 1;
    }

    /// Goes on behind the next newline, where one was read, else to the end of what was read; whether there was one.
    #[tactic(auto, using(crate::proofs::Cuts::cut_at, crate::proofs::Cuts::uncut))]
    fn pass_line(&mut self) -> Result<bool, AllocError>
        ensures cut { IfOk result (λ ended. ended ≡ true → (front : List ℕ)
            × CutsAt self.old.ahead front self.new.ahead
            × PassesOn self.old self.new front) }
        ensures uncut { IfOk result (λ ended. ended ≡ false →
            IsUncut self.old.ahead × PassesOn self.old self.new self.old.ahead) }
    {
        match position_of(self.ahead(), b'\n') {
            Some(end) => {
                self.pass(end)?;
                self.skip();
                Ok(true)
            }
            None => {
                let count = self.ahead().len();
                self.pass(count)?;
                Ok(false)
            }
        }
    }

    /// Reads another piece, in the place of the one before: how many bytes it has.
    fn read_on<S: Source>(&mut self, source: &mut S) -> Result<usize, Failed>
        ensures read { IfOk result (λ count.
            Consumes (S.left source.old) (S.left source.new) self.new.ahead
            × (count ≡ 0 → IsAtEnd (S.left source.new) × (self.new.ahead ≡ []))) }
        ensures count { IfOk result (λ count. count ≡ length self.new.ahead) }
        ensures line { (self.new.line ≡ self.old.line) × (self.new.long ≡ self.old.long) }
        ensures kept { OnErr result (Consumes (S.left source.old) (S.left source.new) []) }
        ensures failed { OnErr result (HasRisen (S.faults source.old) (S.faults source.new)) }
        ensures uncounted { OnOk result (S.faults source.new ≡ S.faults source.old) }
    {
        self.start = 0;
        self.end = 0;
        let count = source.read(self.piece.as_mut_slice())?;
        self.end = count;
        Ok(count)
    }

    /// Goes on to the next line; whether there was one. What stands behind the last newline is no line.
    ///
    /// `Source` comes where a read failed, `Memory` where memory ran out, `Count` where no newline came in 2^64 - 1 pieces.
    pub(crate) fn next<S: Source>(&mut self, source: &mut S) -> Result<bool, Stop>
        // What was taken of the source, and what that comes to with what was read before.
        ensures comes { IfOk result (λ more. (taken : List ℕ)
            × Consumes (S.left source.old) (S.left source.new) taken
            × Comes more (self.old.ahead ++ taken) self.new (S.left source.new)) }
        ensures taken { IfErr result (λ stop. (taken : List ℕ)
            × Consumes (S.left source.old) (S.left source.new) taken
            × (stop ≡ Stop.Source → IsUncut (self.old.ahead ++ taken))) }
        ensures failed { IsErrOf result Stop.Source
            → HasRisen (S.faults source.old) (S.faults source.new) }
        ensures uncounted { result ≢ Err Stop.Source → S.faults source.new ≡ S.faults source.old }
        ensures count { IsErrOf result Stop.Count
            → HasOverrun (S.left source.old) (S.left source.new) }
        ensures only { (result ≢ Err Stop.Disk) × (result ≢ Err Stop.Sink) }
    {
        self.begin();
        for _ in 0..u64::MAX {
            if self.pass_line()? {
                return Ok(true);
            }
            if self.read_on(source).map_err(source_failed)? == 0 {
                return Ok(false);
            }
        }
        Err(Stop::Count)
    }
}
