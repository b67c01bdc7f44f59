ghost use Rattle.std.specs.Prelude.{◌≡◌, ◌<◌, ◌^◌, ◌+◌, false, length, IfOk, OnOk};
ghost use Rattle.chained_journal.specs.Mending.{TakesAny, any_determined};

use chained_journal::{Journal, KeptText, OpenFault, Replay, ReplayFault, Title, Witness, mend};
use kept_disk::MemDisk;
use std::alloc::{AllocError, Global};
use std::test::Fail;

/// A party that takes each text, and stays as it is.
#[derive(Drop)]
struct Anything {}

impl Replay for Anything {
    ghost takes = { TakesAny };

    ghost determined = { any_determined };

    fn replay(&mut self, _alloc: Global, _text: &[u8], _more: bool) -> Result<(), ReplayFault> {
        Ok(())
    }
}

/// Whose journal it is.
fn title() -> Title {
    Title::new(b"ARQLtest", &[7; 32], &[9; 32])
}

/// A disk with these bytes, and room for more.
fn disk_of(alloc: Global, bytes: &[u8]) -> Result<MemDisk, AllocError> {
    let mut disk = MemDisk::new(alloc, bytes.to_vec(alloc)?);
    disk.reserve(4096, 64)?;
    Ok(disk)
}

/// Puts a text behind the others.
fn put(journal: &mut Journal<MemDisk>, alloc: Global, kind: u8, body: &[u8; 5]) -> Result<(), Fail>
    requires { journal.old.stopped ≡ false }
    ensures { OnOk result (journal.new.stopped ≡ false) }
{
    let text = KeptText::of(alloc, kind, body)?;
    match journal.append(text) {
        Ok(()) => Ok(()),
        Err(_) => Err("the disk failed".into()),
    }
}

/// A journal with no texts, on a disk in memory.
fn begun(alloc: Global) -> Result<Journal<MemDisk>, Fail>
    ensures { IfOk result (λ journal. journal.stopped ≡ false) }
{
    match Journal::begin(&title(), disk_of(alloc, &[])?) {
        Ok(journal) => Ok(journal),
        Err(_) => Err("nothing was begun".into()),
    }
}

/// The bytes of a journal with three texts, and what is witnessed of it.
fn whole(alloc: Global) -> Result<(Vec<u8>, Witness), Fail> {
    let mut journal = begun(alloc)?;
    put(&mut journal, alloc, 1, b"first")?;
    put(&mut journal, alloc, 2, b"other")?;
    put(&mut journal, alloc, 3, b"third")?;
    let witness = journal.witness();
    let disk = journal.into_disk();
    Ok((disk.bytes().to_vec(alloc)?, witness))
}

/// How many texts the journal with these bytes has, or why it is not opened.
fn opened(
    alloc: Global,
    witness: &Witness,
    bytes: &[u8],
) -> Result<Result<u64, OpenFault>, AllocError> {
    let disk = disk_of(alloc, bytes)?;
    match Journal::open(alloc, &title(), witness, disk, &mut Anything {}) {
        Ok(journal) => Ok(Ok(journal.count())),
        Err((_disk, fault)) => Ok(Err(fault)),
    }
}

#[test]
fn a_journal_is_opened_with_its_texts(rt: HostRuntime) -> Result<(), Fail> {
    let alloc = rt.alloc();
    let (bytes, witness) = whole(alloc)?;
    assert_eq!(rt; opened(alloc, &witness, &bytes)?, Ok(3));
    assert_eq!(rt;
        opened(alloc, &Witness::of_nothing(&title()), &bytes)?,
        Ok(3)
    );
    assert_eq!(rt; opened(alloc, &witness, &[])?, Err(OpenFault::NotBegun));
    Ok(())
}

#[test]
fn each_changed_byte_is_refused(rt: HostRuntime) -> Result<(), Fail> {
    let alloc = rt.alloc();
    let (bytes, witness) = whole(alloc)?;
    for k in 0..bytes.len() {
        let mut changed = bytes.to_vec(alloc)?;
        if let Some(byte) = changed.get_mut(k) {
            *byte ^= 1;
        }
        assert!(rt; opened(alloc, &witness, &changed)?.is_err(), "{k}");
    }
    Ok(())
}

#[test]
fn each_cut_is_refused(rt: HostRuntime) -> Result<(), Fail> {
    let alloc = rt.alloc();
    let (bytes, witness) = whole(alloc)?;
    for k in 0..bytes.len() {
        assert!(rt; opened(alloc, &witness, &bytes[..k])?.is_err(), "{k}");
    }
    Ok(())
}

/// The place of the gate before the third record.
const LAST_GATE: u64 = 152;

#[test]
fn a_gate_that_is_shut_again_is_seen_by_the_witness(rt: HostRuntime) -> Result<(), Fail> {
    let alloc = rt.alloc();
    let (bytes, witness) = whole(alloc)?;
    let mut older = Vec::new(alloc);
    for k in 0..bytes.len() {
        let byte = if k as u64 >= LAST_GATE && (k as u64) < LAST_GATE + 8 {
            0
        } else {
            bytes[k]
        };
        older.push(byte)?;
    }
    assert_eq!(rt;
        opened(alloc, &Witness::of_nothing(&title()), &older)?,
        Ok(2)
    );
    assert_eq!(rt; opened(alloc, &witness, &older)?, Err(OpenFault::Older(3)));
    Ok(())
}

#[test]
fn the_torn_end_is_mended(rt: HostRuntime) -> Result<(), Fail> {
    let alloc = rt.alloc();
    let (bytes, witness) = whole(alloc)?;
    let mut torn = Vec::new(alloc);
    for k in 0..bytes.len() {
        let byte = if k as u64 == LAST_GATE { 0 } else { bytes[k] };
        torn.push(byte)?;
    }
    assert_eq!(rt;
        opened(alloc, &witness, &torn)?,
        Err(OpenFault::Unsure(LAST_GATE))
    );
    let Ok(mended) = mend(alloc, &title(), disk_of(alloc, &torn)?) else {
        return Err("it is not mended".into());
    };
    assert_eq!(rt; opened(alloc, &witness, mended.bytes())?, Ok(3));
    Ok(())
}
