//! A line of answer for each line that is asked.
use crate::asked::read_line;
use crate::kept::{NotOpened, ask, counts, open};
use file_disk::FileDisk;
use log_journal::{KeptLog, KeptRefusal};
use std::io::{BufRead, BufReader};

/// The status where the log is not opened, or its file failed.
const FILE_FAILED: u8 = 3;

/// The status where a line was not read, or not written.
const STREAM_FAILED: u8 = 4;

/// The status where memory ran out.
const OUT_OF_MEMORY: u8 = 6;

/// Opens the log of this file, tells what it is, and answers all lines: the status.
pub(crate) fn serve(rt: &HostRuntime, path: &str) -> u8 {
    match open(rt, path) {
        Ok(mut kept) => match begin(rt, &mut kept) {
            Ok(()) => 0,
            Err(status) => status,
        },
        Err(NotOpened::Memory) => OUT_OF_MEMORY,
        Err(why) => {
            let _ = println!(rt; "not opened: {why}");
            FILE_FAILED
        }
    }
}

/// Tells what the log is, and answers all lines; or the status.
fn begin(rt: &HostRuntime, kept: &mut KeptLog<FileDisk>) -> Result<(), u8> {
    let (inputs, seen, signed) = counts(kept);
    written(println!(rt; "opened {inputs} {seen} {signed}").is_ok())?;
    let Ok(reader) = BufReader::new(rt.alloc(), rt.reader()) else {
        return Err(OUT_OF_MEMORY);
    };
    for line in reader.lines(rt.alloc()) {
        match line {
            Ok(line) => answer(rt, kept, line.as_str())?,
            Err(_) => return Err(STREAM_FAILED),
        }
    }
    Ok(())
}

/// Whether a line was written, or the status.
fn written(done: bool) -> Result<(), u8> {
    if done { Ok(()) } else { Err(STREAM_FAILED) }
}

/// Answers a line, once the file has what it asks; or the status.
fn answer(rt: &HostRuntime, kept: &mut KeptLog<FileDisk>, line: &str) -> Result<(), u8> {
    let Ok(asked) = read_line(rt.alloc(), line) else {
        return Err(OUT_OF_MEMORY);
    };
    match ask(rt.alloc(), kept, &asked) {
        None => written(println!(rt; "no input").is_ok()),
        Some(Ok(())) => written(println!(rt; "taken {}", kept.inputs()).is_ok()),
        Some(Err(KeptRefusal::Log(why))) => written(println!(rt; "refused: {why}").is_ok()),
        Some(Err(KeptRefusal::Memory)) => Err(OUT_OF_MEMORY),
        Some(Err(why)) => {
            written(println!(rt; "failed: {why}").is_ok())?;
            Err(FILE_FAILED)
        }
    }
}
