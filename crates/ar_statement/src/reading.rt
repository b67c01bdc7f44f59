ghost use Rattle.std.specs.Prelude.{◌≡◌, Some, IfSome};
ghost use Rattle.std.specs.Option.{option_map};
ghost use Rattle.std.specs.Result.{result_ok};
ghost use Rattle.ar_bytes.specs.Reading.{Tells, whole};
ghost use Rattle.ar_statement.specs.Claims.{Claim, claim_of, text_of};
ghost use Rattle.ar_statement.specs.Ranges.{IsValid};
ghost use Rattle.ar_statement.specs.Texts.{party_at, endorse_at, handover_at, propose_at, vote_at, confirm_at, absent_at, answer_at, status_at, roll_at, object_at, fields_at, statement_at};

use crate::fields::{digest, name, optional_value, role, value};
use crate::party::Party;
use crate::statement::Statement;
use ar_bytes::Fields;
use vote_quorum::Value;

#[tactic(auto, unfolding(crate::specs::Texts::party_at))]
fn party(fields: &mut Fields) -> Result<Party, usize>
    ensures { Tells (λ party. party) result fields.new (party_at fields.old) }
{
    let role = role(fields)?;
    let number = fields.take_u16()?;
    Ok(role.party(number))
}

#[tactic(auto, unfolding(crate::specs::Texts::endorse_at))]
fn endorse<'a>(signer: Party, fields: &mut Fields) -> Result<Statement<'a>, usize>
    ensures { Tells claim_of result fields.new (endorse_at signer fields.old) }
{
    let certificate = digest(fields)?;
    Ok(Statement::Endorse {
        authority: signer.number,
        certificate,
    })
}

#[tactic(auto, unfolding(crate::specs::Texts::handover_at))]
fn handover<'a>(fields: &mut Fields) -> Result<Statement<'a>, usize>
    ensures { Tells claim_of result fields.new (handover_at fields.old) }
{
    let certificate = digest(fields)?;
    Ok(Statement::Handover { certificate })
}

#[tactic(auto, unfolding(crate::specs::Texts::propose_at))]
fn propose<'a>(signer: Party, fields: &mut Fields) -> Result<Statement<'a>, usize>
    ensures { Tells claim_of result fields.new (propose_at signer fields.old) }
{
    let epoch = fields.take_u64()?;
    let Value { base, root } = value(fields)?;
    Ok(Statement::Propose {
        log: signer.number,
        epoch,
        base,
        root,
    })
}

#[tactic(auto, unfolding(crate::specs::Texts::vote_at))]
fn vote<'a>(signer: Party, fields: &mut Fields) -> Result<Statement<'a>, usize>
    ensures { Tells claim_of result fields.new (vote_at signer fields.old) }
{
    let epoch = fields.take_u64()?;
    let Value { base, root } = value(fields)?;
    Ok(Statement::Vote {
        log: signer.number,
        epoch,
        base,
        root,
    })
}

#[tactic(auto, unfolding(crate::specs::Texts::confirm_at))]
fn confirm<'a>(signer: Party, fields: &mut Fields<'a>) -> Result<Statement<'a>, usize>
    ensures { Tells claim_of result fields.new (confirm_at signer fields.old) }
{
    let epoch = fields.take_u64()?;
    let name = name(fields)?;
    let certificate = digest(fields)?;
    let root = digest(fields)?;
    Ok(Statement::Confirm {
        signer,
        epoch,
        name,
        certificate,
        root,
    })
}

#[tactic(auto, unfolding(crate::specs::Texts::absent_at))]
fn confirm_absent<'a>(signer: Party, fields: &mut Fields<'a>) -> Result<Statement<'a>, usize>
    ensures { Tells claim_of result fields.new (absent_at signer fields.old) }
{
    let epoch = fields.take_u64()?;
    let name = name(fields)?;
    let root = digest(fields)?;
    Ok(Statement::ConfirmAbsent {
        signer,
        epoch,
        name,
        root,
    })
}

#[tactic(auto, unfolding(crate::specs::Texts::answer_at))]
fn answer<'a>(fields: &mut Fields<'a>) -> Result<Statement<'a>, usize>
    ensures { Tells claim_of result fields.new (answer_at fields.old) }
{
    let name = name(fields)?;
    let certificate = digest(fields)?;
    let challenge = digest(fields)?;
    Ok(Statement::Answer {
        name,
        certificate,
        challenge,
    })
}

#[tactic(auto, unfolding(crate::specs::Texts::status_at))]
fn status<'a>(signer: Party, fields: &mut Fields) -> Result<Statement<'a>, usize>
    ensures { Tells claim_of result fields.new (status_at signer fields.old) }
{
    let epoch = fields.take_u64()?;
    let value = optional_value(fields)?;
    Ok(Statement::Status {
        log: signer.number,
        epoch,
        value,
    })
}

#[tactic(auto, unfolding(crate::specs::Texts::roll_at))]
fn roll<'a>(signer: Party, fields: &mut Fields) -> Result<Statement<'a>, usize>
    ensures { Tells claim_of result fields.new (roll_at signer fields.old) }
{
    let generation = fields.take_u32()?;
    let key = fields.take_array()?;
    Ok(Statement::Roll {
        signer,
        generation,
        key,
    })
}

#[tactic(auto, unfolding(crate::specs::Texts::object_at))]
fn object<'a>(fields: &mut Fields) -> Result<Statement<'a>, usize>
    ensures { Tells claim_of result fields.new (object_at fields.old) }
{
    let certificate = digest(fields)?;
    Ok(Statement::Object { certificate })
}

/// The fields behind the signer, by the number of the statement's kind.
#[tactic(auto, unfolding(crate::specs::Texts::fields_at))]
fn by_kind<'a>(kind: u8, signer: Party, fields: &mut Fields<'a>) -> Result<Statement<'a>, usize>
    ensures { Tells claim_of result fields.new (fields_at kind signer fields.old) }
{
    match kind {
        1 => endorse(signer, fields),
        2 => handover(fields),
        3 => propose(signer, fields),
        4 => vote(signer, fields),
        6 => confirm(signer, fields),
        7 => confirm_absent(signer, fields),
        8 => answer(fields),
        9 => status(signer, fields),
        10 => roll(signer, fields),
        11 => object(fields),
        _ => Err(fields.place()),
    }
}

/// A statement with fields of any value.
#[tactic(auto, unfolding(crate::specs::Texts::statement_at, ar_bytes::specs::Reading::such_that))]
fn statement<'a>(fields: &mut Fields<'a>) -> Result<Statement<'a>, usize>
    ensures { Tells claim_of result fields.new (statement_at fields.old) }
{
    let kind = fields.take_u8()?;
    let signer = party(fields)?;
    let place = fields.place();
    let statement = by_kind(kind, signer, fields)?;
    let by = statement.signer();
    if by.role.number() != signer.role.number() || by.number != signer.number {
        return Err(place);
    }
    Ok(statement)
}

/// A statement with fields of any value that is all of the bytes.
#[tactic(auto, unfolding(ar_bytes::specs::Reading::whole))]
fn whole(bytes: &[u8]) -> Option<Statement>
    ensures { option_map claim_of result ≡ result_ok (whole statement_at bytes.now) }
{
    let mut fields = Fields::new(bytes);
    let statement = statement(&mut fields).ok()?;
    fields.take_end().ok()?;
    Some(statement)
}

impl<'a> Statement<'a> {
    /// The statement with this text, or `None` exactly where no statement has it.
    pub fn read(bytes: &'a [u8]) -> Option<Statement<'a>>
        // What is read is a statement with this text.
        ensures found { IfSome result (λ s.
            IsValid (claim_of s) × (text_of (claim_of s) ≡ bytes.now)) }
        // A statement with this text is read.
        ensures only { (claim : Claim) → IsValid claim → text_of claim ≡ bytes.now
            → option_map claim_of result ≡ Some claim }
    {
        let statement = whole(bytes)?;
        if statement.is_in_range() {
            Some(statement)
        } else {
            None
        }
    }
}
