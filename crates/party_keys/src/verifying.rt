ghost use Rattle.std.specs.Prelude.{◌≡◌, ◌==◌, Some, slice_index};
ghost use Rattle.std.specs.Option.{option_map};
ghost use Rattle.ar_statement.specs.Claims.{claim_of};
ghost use Rattle.party_keys.specs.Signatures.{answer_by, claim_in, is_in_place, is_last_leaf, leaf_of, number_in_front, roll_in, rolls_from, verified};

use crate::Directory;
use crate::fault::VerifyFault;
use ar_bytes::u32_of;
use ar_statement::{Party, Statement};
use lms_tree::{LmsPublic, Verdict, valid};

/// The kind of a Roll, with which its text begins.
const ROLL_KIND: u8 = 10;

/// The number that the first four bytes are, where there are so many.
fn number_in_front(bytes: &[u8]) -> Option<u32>
    ensures { result ≡ number_in_front bytes.now }
{
    if bytes.len() < 4 {
        return None;
    }
    Some(u32_of(&bytes[..4]))
}

/// The statement that has this text.
fn statement_in(text: &[u8]) -> Option<Statement>
    ensures { option_map claim_of result ≡ claim_in text.now }
{
    Statement::read(text)
}

/// The generation that a statement names, where it is a Roll.
fn rolls_from(statement: &Statement) -> Option<u32>
    ensures { result ≡ rolls_from (claim_of statement.now) }
{
    match statement {
        Statement::Roll { generation, .. } => Some(*generation),
        _ => None,
    }
}

/// Whether a text begins as that of a Roll. A text that begins otherwise is of none.
fn begins_as_roll(text: &[u8]) -> bool
    ensures { result ≡ (slice_index text.now 0 == 10) }
{
    match text.first() {
        Some(kind) => *kind == ROLL_KIND,
        None => false,
    }
}

/// The generation that a text names, where it is the text of a Roll. A text that begins otherwise is not read.
#[tactic(auto, using(crate::proofs::Claims::no_roll))]
fn roll_in(text: &[u8]) -> Option<u32>
    ensures { result ≡ roll_in text.now }
{
    if !begins_as_roll(text) {
        return None;
    }
    let statement = statement_in(text)?;
    rolls_from(&statement)
}

/// Whether a signature has the key's last leaf.
fn has_last_leaf(key: &LmsPublic, signature: &[u8]) -> bool
    ensures { result ≡ is_last_leaf key.now (leaf_of signature.now) }
{
    match number_in_front(signature) {
        Some(leaf) => leaf == key.lms.leaves() - 1,
        None => false,
    }
}

/// Whether a text may stand at the last leaf of a generation's key, or at another.
fn is_in_place(text: &[u8], generation: u32, last: bool) -> bool
    ensures { result ≡ is_in_place (roll_in text.now) generation last }
{
    match roll_in(text) {
        Some(named) => last && named == generation,
        None => !last,
    }
}

/// The answer to an LMS signature under the key of a generation.
fn answer(
    key: &LmsPublic,
    generation: u32,
    text: &[u8],
    signature: &[u8],
) -> Result<(), VerifyFault>
    ensures { result ≡ answer_by (Some key.now) generation text.now signature.now }
{
    if let Verdict::Invalid(k) = valid(key, text, signature) {
        return Err(VerifyFault::Bad(k));
    }
    if is_in_place(text, generation, has_last_leaf(key, signature)) {
        Ok(())
    } else {
        Err(VerifyFault::Bad(7))
    }
}

impl Directory {
    /// Whether the signature of a party on the text is valid: u32 generation, and the LMS signature by the
    /// party's key of this generation.
    ///
    /// It is `Unknown` exactly where the party is no log and no authority of the directory, and else `Bad`
    /// by the first of these: 1 the signature has fewer than four bytes; 6 its generation is not known of
    /// the party; k where `lms_tree::valid` answers `Invalid(k)` for the rest under that generation's key; 7
    /// where a Roll has another leaf than the last or names another generation than that of its signature,
    /// or another text has the last leaf. Owners and clients are never in a directory.
    #[tactic(auto, unfolding(crate::specs::Signatures::verified))]
    pub fn verify(&self, party: Party, text: &[u8], signature: &[u8]) -> Result<(), VerifyFault>
        ensures { result ≡ verified self.now party text.now signature.now }
    {
        if self.key(party, 0).is_none() {
            return Err(VerifyFault::Unknown(party));
        }
        let Some(generation) = number_in_front(signature) else {
            return Err(VerifyFault::Bad(1));
        };
        let Some(key) = self.key(party, generation as usize) else {
            return Err(VerifyFault::Bad(6));
        };
        answer(key, generation, text, &signature[4..])
    }
}
