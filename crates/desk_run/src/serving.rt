//! A party answers lines.

ghost use Rattle.std.specs.Prelude.{◌≡◌, ◌≢◌, ◌⊎◌, ◌++◌, ℕ, List, Some, true, false, Err, IfOk, IfErr, OnOk, OnErr, IsErrOf};
ghost use Rattle.std.specs.Io.KnownBytes.{Consumes};
ghost use Rattle.ar_base.specs.Faults.{HasRisen};
ghost use Rattle.ar_io.specs.Wrote.{Appended, AppendedFront};
ghost use Rattle.desk_run.specs.Answers.{AnswersLine, Does, Kept, opening_text, sent_again};
ghost use Rattle.desk_run.specs.Crashes.{LeavesFront, LeavesLine, LeavesOne};
ghost use Rattle.desk_run.specs.Reading.{Passed};
ghost use Rattle.desk_run.specs.Runs.{HasAnswered, HasDoneLine, HasEnded, HasNotDoneLine, HasNotTurned, HasOverrun, HasStopped, HasTurned};
ghost use Rattle.kept_disk.specs.Moments.{LeavesOnly};
ghost use Rattle.kept_journal.specs.Journal.{IsBeforeOrAfter, Stands};
ghost use Rattle.party_desk.specs.Telling.{unread_line};

use crate::line_reader::LineReader;
use crate::stop::{Stop, sink_failed};
use ar_io::{Sink, Source, write_all};
use ar_lines::Reason;
use ar_text::{Part, append};
use kept_disk::Disk;
use kept_party::{KeptFault, KeptParty};
use party_desk::{Cause, LineParty, Unread, put_line_refused};
use std::alloc::{AllocError, Global};

/// What is written of a reply to an order in the line with this number.
fn replied<D: LineParty>(
    alloc: Global,
    party: &D,
    number: u64,
    order: &D::Order,
    reply: &D::Reply,
) -> Result<Vec<u8>, AllocError>
    ensures { IfOk result (λ text. text.items
        ≡ D.sent_text reply.now ++ D.told_text party.now number order.now reply.now) }
{
    let mut out = Vec::new(alloc);
    party.put_sent(alloc, reply, &mut out)?;
    party.put_told(alloc, number, order, reply, &mut out)?;
    Ok(out)
}

/// What is written of an order in the line with this number that the party refused so. Where it refused for want of memory, that is
/// the error.
fn declined<D: LineParty>(
    alloc: Global,
    party: &D,
    number: u64,
    order: &D::Order,
    refusal: &D::Refusal,
) -> Result<Vec<u8>, AllocError>
    ensures { IfOk result (λ text. D.refused_text party.now number order.now refusal.now
        ≡ Some text.items) }
{
    let mut out = Vec::new(alloc);
    party.put_refused(alloc, number, order, refusal, &mut out)?;
    Ok(out)
}

/// What is written of an order in the line with this number, once the journal has it.
fn asked<D: LineParty, K: Disk>(
    alloc: Global,
    kept: &mut KeptParty<D, K>,
    number: u64,
    order: &D::Order,
) -> Result<Vec<u8>, Stop>
    // It did what it was asked, and this is written of that.
    ensures did { IfOk result (λ text. (one : Kept)
        × (Does D.asked D.says D.takes D.tells D.refuses D.sent_text D.told_text D.refused_text
        kept.old.party number order.now text.items one kept.new.party
        × (kept.new.journal.texts ≡ kept.old.journal.texts ++ one))) }
    // Where memory ran out it is as it was, or it did that and there was no memory for what is written of it.
    ensures memory { IsErrOf result Stop.Memory → (kept.new ≡ kept.old)
        ⊎ ((written : List ℕ) × ((one : Kept)
        × (Does D.asked D.says D.takes D.tells D.refuses D.sent_text D.told_text D.refused_text
        kept.old.party number order.now written one kept.new.party
        × (kept.new.journal.texts ≡ kept.old.journal.texts ++ one)))) }
    ensures stands { IsErrOf result Stop.Disk → kept.old.journal.stopped ≡ false
        → Stands kept.old.journal.mark kept.old.journal.texts (K.held kept.new.journal.disk) }
    ensures goes_on { result ≢ Err Stop.Disk → kept.old.journal.stopped ≡ false
        → kept.new.journal.stopped ≡ false }
    ensures stopped { IsErrOf result Stop.Disk → kept.new.journal.stopped ≡ true }
    ensures mark { kept.new.journal.mark ≡ kept.old.journal.mark }
    ensures disk { IsErrOf result Stop.Disk → kept.old.journal.stopped ≡ false
        → HasRisen (K.faults kept.old.journal.disk) (K.faults kept.new.journal.disk) }
    ensures uncounted { result ≢ Err Stop.Disk
        → K.faults kept.new.journal.disk ≡ K.faults kept.old.journal.disk }
    ensures durable { OnOk result ((kept.new.journal ≡ kept.old.journal)
        ⊎ ((c : List ℕ) → K.may_leave kept.new.journal.disk c
        → Stands kept.old.journal.mark kept.new.journal.texts c)) }
    ensures any_moment { LeavesOnly K.moment K.left_since kept.old.journal.disk
        kept.new.journal.disk
        (λ c. K.may_leave kept.old.journal.disk c
        ⊎ ((text : List ℕ) × (reply : D.Reply) × D.says kept.old.party order.now text
        × D.takes kept.old.party text reply kept.new.party
        × IsBeforeOrAfter kept.old.journal.mark kept.old.journal.texts text c)) }
    ensures only { (result ≢ Err Stop.Source) × (result ≢ Err Stop.Sink)
        × (result ≢ Err Stop.Count) }
{
    match kept.step(alloc, order) {
        Ok(reply) => Ok(replied(alloc, kept.party(), number, order, &reply)?),
        Err(KeptFault::Refused(refusal)) => {
            Ok(declined(alloc, kept.party(), number, order, &refusal)?)
        }
        Err(KeptFault::DiskFault) => Err(Stop::Disk),
        Err(KeptFault::Reopen) => Err(Stop::Disk),
    }
}

/// What is written of a line that is refused.
fn refused(alloc: Global, number: u64, cause: Cause) -> Result<Vec<u8>, AllocError>
    ensures { IfOk result (λ text. text.items ≡ unread_line number cause) }
{
    let mut out = Vec::new(alloc);
    put_line_refused(alloc, &mut out, number, cause)?;
    Ok(out)
}

/// What is written of the line that came last, which has this number; nothing where it is skipped.
fn answer<D: LineParty, K: Disk>(
    alloc: Global,
    kept: &mut KeptParty<D, K>,
    number: u64,
    lines: &LineReader,
) -> Result<Vec<u8>, Stop>
    ensures did { (line : List ℕ) → Passed lines.now.long lines.now.line line
        → IfOk result (λ text. HasDoneLine
        (AnswersLine D.asked D.says D.takes D.tells D.refuses D.sent_text D.told_text
        D.refused_text) kept.old kept.new number line text.items) }
    ensures not_done { (line : List ℕ) → Passed lines.now.long lines.now.line line
        → IfErr result (HasNotDoneLine
        (AnswersLine D.asked D.says D.takes D.tells D.refuses D.sent_text D.told_text
        D.refused_text) K.held kept.old kept.new number line) }
    ensures goes_on { OnOk result
        (kept.old.journal.stopped ≡ false → kept.new.journal.stopped ≡ false) }
    ensures mark { kept.new.journal.mark ≡ kept.old.journal.mark }
    ensures disk { IsErrOf result Stop.Disk → kept.old.journal.stopped ≡ false
        → HasRisen (K.faults kept.old.journal.disk) (K.faults kept.new.journal.disk) }
    ensures uncounted { result ≢ Err Stop.Disk
        → K.faults kept.new.journal.disk ≡ K.faults kept.old.journal.disk }
    ensures durable { OnOk result ((kept.new.journal ≡ kept.old.journal)
        ⊎ ((c : List ℕ) → K.may_leave kept.new.journal.disk c
        → Stands kept.old.journal.mark kept.new.journal.texts c)) }
    ensures any_moment { (line : List ℕ) → Passed lines.now.long lines.now.line line
        → LeavesOnly K.moment K.left_since kept.old.journal.disk kept.new.journal.disk
        (λ c. K.may_leave kept.old.journal.disk c
        ⊎ LeavesLine D.asked D.says D.takes kept.old.party line kept.old.journal.mark
        kept.old.journal.texts c) }
    ensures only { (result ≢ Err Stop.Source) × (result ≢ Err Stop.Sink)
        × (result ≢ Err Stop.Count) }
{
    if lines.is_long() {
        return Ok(refused(alloc, number, Cause::Form(Reason::Limit))?);
    }
    match kept.party().read(alloc, lines.line()) {
        Ok(Some(order)) => asked(alloc, kept, number, &order),
        Ok(None) => Ok(Vec::new(alloc)),
        Err(Unread::Refused(cause)) => Ok(refused(alloc, number, cause)?),
        Err(Unread::Memory) => Err(Stop::Memory),
    }
}

/// What is written at first: what the party replied last sends, and how many texts its journal has.
fn opening<D: LineParty, K: Disk>(
    alloc: Global,
    kept: &KeptParty<D, K>,
    again: Option<D::Reply>,
) -> Result<Vec<u8>, AllocError>
    ensures { IfOk result (λ text. text.items
        ≡ opening_text (sent_again D.sent_text again) kept.now.journal.count) }
{
    let mut out = Vec::new(alloc);
    if let Some(reply) = again {
        kept.party().put_sent(alloc, &reply, &mut out)?;
    }
    let texts = kept.texts();
    append(
        alloc,
        &mut out,
        &[
            Part::Bytes(b"opened "),
            Part::Number(texts),
            Part::Bytes(b"\n"),
        ],
    )?;
    Ok(out)
}

/// Writes an answer, in one piece where the sink takes it so.
fn write<W: Sink>(sink: &mut W, text: &[u8]) -> Result<(), Stop>
    ensures all { OnOk result (Appended W.wrote sink.old sink.new text.now) }
    ensures front { OnErr result (AppendedFront W.wrote sink.old sink.new text.now) }
    ensures sink { OnErr result (HasRisen (W.faults sink.old) (W.faults sink.new)) }
    ensures only { IfErr result (λ stop. stop ≡ Stop.Sink) }
    ensures uncounted { OnOk result (W.faults sink.new ≡ W.faults sink.old) }
{
    write_all(sink, text).map_err(sink_failed)
}

/// Answers the next line, which has this number; whether there was one.
fn turn<D: LineParty, K: Disk, S: Source, W: Sink>(
    alloc: Global,
    kept: &mut KeptParty<D, K>,
    number: u64,
    lines: &mut LineReader,
    source: &mut S,
    sink: &mut W,
) -> Result<bool, Stop>
    ensures answered { IfOk result (λ more. more ≡ true → HasTurned
        (AnswersLine D.asked D.says D.takes D.tells D.refuses D.sent_text D.told_text
        D.refused_text) W.wrote kept.old kept.new (S.left source.old) (S.left source.new)
        sink.old sink.new lines.old.ahead lines.new.ahead number) }
    ensures ended { IfOk result (λ more. more ≡ false → HasEnded
        (AnswersLine D.asked D.says D.takes D.tells D.refuses D.sent_text D.told_text
        D.refused_text) W.wrote kept.old kept.new (S.left source.old) (S.left source.new)
        sink.old sink.new lines.old.ahead) }
    ensures stopped { IfErr result (HasNotTurned
        (AnswersLine D.asked D.says D.takes D.tells D.refuses D.sent_text D.told_text
        D.refused_text) W.wrote K.held kept.old kept.new (S.left source.old)
        (S.left source.new) sink.old sink.new lines.old.ahead number) }
    ensures source { IsErrOf result Stop.Source
        → HasRisen (S.faults source.old) (S.faults source.new) }
    ensures sink { IsErrOf result Stop.Sink → HasRisen (W.faults sink.old) (W.faults sink.new) }
    ensures count { IsErrOf result Stop.Count
        → HasOverrun (S.left source.old) (S.left source.new) }
    ensures source_uncounted { result ≢ Err Stop.Source
        → S.faults source.new ≡ S.faults source.old }
    ensures sink_uncounted { result ≢ Err Stop.Sink → W.faults sink.new ≡ W.faults sink.old }
    ensures goes_on { OnOk result
        (kept.old.journal.stopped ≡ false → kept.new.journal.stopped ≡ false) }
    ensures mark { kept.new.journal.mark ≡ kept.old.journal.mark }
    ensures disk { IsErrOf result Stop.Disk → kept.old.journal.stopped ≡ false
        → HasRisen (K.faults kept.old.journal.disk) (K.faults kept.new.journal.disk) }
    ensures uncounted { result ≢ Err Stop.Disk
        → K.faults kept.new.journal.disk ≡ K.faults kept.old.journal.disk }
    ensures durable { OnOk result ((kept.new.journal ≡ kept.old.journal)
        ⊎ ((c : List ℕ) → K.may_leave kept.new.journal.disk c
        → Stands kept.old.journal.mark kept.new.journal.texts c)) }
    ensures any_moment { LeavesOnly K.moment K.left_since kept.old.journal.disk
        kept.new.journal.disk
        (λ c. K.may_leave kept.old.journal.disk c ⊎ ((taken : List ℕ)
        × Consumes (S.left source.old) (S.left source.new) taken
        × LeavesOne D.asked D.says D.takes kept.old.party (lines.old.ahead ++ taken)
        kept.old.journal.mark kept.old.journal.texts c)) }
{
    if !lines.next(source)? {
        return Ok(false);
    }
    let text = answer(alloc, kept, number, lines)?;
    write(sink, &text)?;
    Ok(true)
}

/// Has a party answer the lines of a source until they end. `again` is what it replied to the last text of its journal, where that
/// has any.
///
/// Each answer is written before the next line is read, and once the journal has what the line asked. What stands behind the last
/// newline is no line. Where a call of the party's disk failed before, it stops at the first line that asks something.
pub fn answer_all<D: LineParty, K: Disk, S: Source, W: Sink>(
    alloc: Global,
    kept: &mut KeptParty<D, K>,
    again: Option<D::Reply>,
    source: &mut S,
    sink: &mut W,
) -> Result<(), Stop>
    // What was written is what the last text sends and the answer to each line, in order; the party is where they lead, and its
    // journal has what they asked, under its mark, and goes on where it did.
    ensures answered { OnOk result (HasAnswered
        (AnswersLine D.asked D.says D.takes D.tells D.refuses D.sent_text D.told_text
        D.refused_text) W.wrote kept.old kept.new (S.left source.old) (S.left source.new)
        sink.old sink.new
        (opening_text (sent_again D.sent_text again) kept.old.journal.count)) }
    // Where it stops before: a front of the lines was answered, and these answers were written; one line more may have been
    // done, of whose answer less was written. The journal has what these lines asked, under its mark, and goes on where it did,
    // unless the disk failed. So what was sent stands in the journal. Where a read failed, all lines that had come were answered.
    ensures stopped { IfErr result (HasStopped
        (AnswersLine D.asked D.says D.takes D.tells D.refuses D.sent_text D.told_text
        D.refused_text) W.wrote K.held kept.old kept.new (S.left source.old)
        (S.left source.new) sink.old sink.new
        (opening_text (sent_again D.sent_text again) kept.old.journal.count)) }
    // When each stop comes.
    ensures source { IsErrOf result Stop.Source
        → HasRisen (S.faults source.old) (S.faults source.new) }
    ensures sink { IsErrOf result Stop.Sink → HasRisen (W.faults sink.old) (W.faults sink.new) }
    ensures disk { IsErrOf result Stop.Disk → kept.old.journal.stopped ≡ false
        → HasRisen (K.faults kept.old.journal.disk) (K.faults kept.new.journal.disk) }
    ensures count { IsErrOf result Stop.Count
        → HasOverrun (S.left source.old) (S.left source.new) }
    // Nothing else failed. So a line is answered before more is read: behind a read that fails no answer is owed, since its write
    // may fail too.
    ensures source_uncounted { result ≢ Err Stop.Source
        → S.faults source.new ≡ S.faults source.old }
    ensures sink_uncounted { result ≢ Err Stop.Sink → W.faults sink.new ≡ W.faults sink.old }
    ensures disk_uncounted { result ≢ Err Stop.Disk
        → K.faults kept.new.journal.disk ≡ K.faults kept.old.journal.disk }
    // A crash at any moment leaves what a crash before might have left, or a file that stands for the texts from before and
    // those of a front of the lines, perhaps with that of the next.
    ensures any_moment { LeavesOnly K.moment K.left_since kept.old.journal.disk
        kept.new.journal.disk
        (λ c. K.may_leave kept.old.journal.disk c ⊎ LeavesFront D.asked D.says D.takes
        (AnswersLine D.asked D.says D.takes D.tells D.refuses D.sent_text D.told_text
        D.refused_text) kept.old.party (S.left source.old) (S.left source.new)
        kept.old.journal.mark kept.old.journal.texts c) }
{
    let first = opening(alloc, kept, again)?;
    write(sink, &first)?;
    let mut lines = LineReader::new(alloc)?;
    for number in 1..u64::MAX {
        if !turn(alloc, kept, number, &mut lines, source, sink)? {
            return Ok(());
        }
    }
    Err(Stop::Count)
}
