//! Changes of c.example, each behind the one before it, as its policy takes them. Their endorsements are empty.
use ar_cert::Change;
use std::alloc::Global;
use std::test::Fail;

/// The change with this serial number, behind the certificate with this digest.
fn change(alloc: Global, serial: u64, previous: &[u8; 32]) -> Result<Change, Fail> {
    let mut bytes = Vec::new(alloc);
    bytes.extend_from_slice(b"\x00\x82\x01\x09c.example")?;
    bytes.extend_from_slice(&serial.to_be_bytes())?;
    bytes.extend_from_slice(previous.as_slice())?;
    bytes.extend_from_slice(&[0, 0, 0, 5, 0, 0, 0, 4])?;
    bytes.extend_from_slice(&[0x44; 48])?;
    // Of the authorities 0, 1 and 2, which it trusts, one is enough; no handover; the ages 10 and 1000.
    bytes.extend_from_slice(&[1, 1, 0, 0, 0, 0, 10, 0, 0, 0, 0, 0, 0, 3, 232])?;
    bytes.extend_from_slice(&[3, 0, 0, 0, 1, 0, 2, 0])?;
    bytes.extend_from_slice(&[3, 0, 0, 0, 0, 0, 1, 0, 0, 0, 2, 0, 0, 0])?;
    match Change::read(alloc, &bytes) {
        Ok(change) => Ok(change),
        Err(_) => Err("no change".into()),
    }
}

/// The changes with the serial numbers below this one.
pub(crate) fn chain(alloc: Global, count: u64) -> Result<Vec<Change>, Fail> {
    let mut chain = Vec::new(alloc);
    let mut previous = [0; 32];
    for serial in 0..count {
        let next = change(alloc, serial, &previous)?;
        previous = next.cert.digest();
        chain.push(next)?;
    }
    Ok(chain)
}

/// The changes with the serial numbers 0 and 1, and behind them that with the number 1 once more.
pub(crate) fn one_comes_again(alloc: Global) -> Result<Vec<Change>, Fail> {
    let mut chain = chain(alloc, 2)?;
    if let Some(again) = self::chain(alloc, 2)?.pop() {
        chain.push(again)?;
    }
    Ok(chain)
}
