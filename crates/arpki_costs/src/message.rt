//! The longest message, by a rule that another program can repeat: a Decision of as many changes and votes as there
//! may be, whose signatures have so many bytes. It is read, written again and copied.
ghost use Rattle.std.specs.Prelude.{◌≡◌, ◌++◌, IfOk, OnOk};
ghost use Rattle.ar_base.specs.Gives.{with_error, GivesOrWants};
ghost use Rattle.ar_message.specs.Messages.{message_in, message_text};
ghost use Rattle.ar_message.specs.declared.fault.MessageFault.TheVariants.{Form, Memory};

use ar_message::{Message, MessageFault};
use sha2::{Digest, Sha256};
use std::alloc::{AllocError, Global};
use std::io::{self, ErrorKind};

const CHANGES: u8 = 64;

const ENDORSEMENTS: u8 = 8;

const VOTES: u8 = 16;

/// The SHA-256 of a message whose signatures have so many bytes, as it is written after it was read. A copy has the
/// same.
pub(crate) fn digest_of_message(alloc: Global, len: u16) -> io::Result<[u8; 32]> {
    let text = text(alloc, len)?;
    let copy = copy_bytes(alloc, &text)?;
    let again = again(alloc, &copy)?;
    Ok(Sha256::digest(&again))
}

/// The text of the message that a text is.
fn again(alloc: Global, text: &[u8]) -> io::Result<Vec<u8>> {
    let message = message_of(alloc, text)?;
    written(alloc, &message, text.len())
}

fn message_of(alloc: Global, text: &[u8]) -> io::Result<Message> {
    match read_message(alloc, text) {
        Ok(message) => Ok(message),
        Err(MessageFault::Form(_)) => Err(ErrorKind::InvalidData.into()),
        Err(MessageFault::Memory) => Err(ErrorKind::OutOfMemory.into()),
    }
}

/// The text of a message, in room for so many bytes.
fn written(alloc: Global, message: &Message, room: usize) -> io::Result<Vec<u8>> {
    let mut out = Vec::with_capacity(alloc, room)?;
    write_message(alloc, message, &mut out)?;
    Ok(out)
}

#[inline(never)]
fn read_message(alloc: Global, text: &[u8]) -> Result<Message, MessageFault>
    ensures { GivesOrWants Memory (λ message.
        message) result (with_error Form (message_in text.now)) }
{
    Message::read(alloc, text)
}

#[inline(never)]
fn write_message(alloc: Global, message: &Message, out: &mut Vec<u8>) -> Result<(), AllocError>
    ensures { OnOk result (out.new.items ≡ out.old.items ++ message_text message.now) }
{
    message.write(alloc, out)
}

#[inline(never)]
fn copy_bytes(alloc: Global, bytes: &[u8]) -> Result<Vec<u8>, AllocError>
    ensures { IfOk result (λ copy. copy.items ≡ bytes.now) }
{
    Vec::from_slice(alloc, bytes)
}

/// The message: epoch 1, a base of bytes 1 and a root of bytes 2, the changes and the votes.
fn text(alloc: Global, len: u16) -> Result<Vec<u8>, AllocError> {
    let mut out = Vec::new(alloc);
    out.extend_from_slice(&[7, 0, 0, 0, 0, 0, 0, 0, 1])?;
    out.extend_from_slice(&[1; 32])?;
    out.extend_from_slice(&[2; 32])?;
    out.push(CHANGES)?;
    for _ in 0..CHANGES {
        put_change(&mut out, len)?;
    }
    put_signatures(&mut out, VOTES, len)?;
    Ok(out)
}

/// Appends a change: a certificate of 118 bytes, the endorsements, and a handover.
fn put_change(out: &mut Vec<u8>, len: u16) -> Result<(), AllocError> {
    out.extend_from_slice(&[0, 118])?;
    put_certificate(out)?;
    put_signatures(out, ENDORSEMENTS, len)?;
    out.push(1)?;
    put_signature(out, len)
}

/// Appends a certificate of the name `a` with the serial 0, whose key has the types 5 and 3 and else bytes 7, and
/// whose policy has the threshold 1, no numbers but that, and trusts authority 3.
fn put_certificate(out: &mut Vec<u8>) -> Result<(), AllocError> {
    out.extend_from_slice(&[1, 1, b'a'])?;
    out.extend_from_slice(&[0; 40])?;
    out.extend_from_slice(&[0, 0, 0, 5, 0, 0, 0, 3])?;
    out.extend_from_slice(&[7; 48])?;
    out.extend_from_slice(&[1, 1])?;
    out.extend_from_slice(&[0; 13])?;
    out.extend_from_slice(&[1, 0, 3, 0])
}

/// Appends the signatures of so many parties, each behind its number, behind their count.
fn put_signatures(out: &mut Vec<u8>, count: u8, len: u16) -> Result<(), AllocError> {
    out.push(count)?;
    for number in 0..count {
        out.extend_from_slice(&[0, number])?;
        put_signature(out, len)?;
    }
    Ok(())
}

/// Appends a signature of so many bytes 9, behind their number.
fn put_signature(out: &mut Vec<u8>, len: u16) -> Result<(), AllocError> {
    out.extend_from_slice(&len.to_be_bytes())?;
    for _ in 0..len {
        out.push(9)?;
    }
    Ok(())
}
