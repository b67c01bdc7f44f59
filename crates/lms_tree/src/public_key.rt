ghost use Rattle.std.specs.Prelude.{◌≡◌};
ghost use Rattle.ar_bytes.specs.Reading.{Tells};
ghost use Rattle.lm_ots.specs.OtsKind as ots_kind;
ghost use Rattle.lms_tree.specs.LmsKind as lms_kind;
ghost use Rattle.lms_tree.specs.PublicKey.{key_at, key_of_text, key_text, type_at};

use crate::LmsType;
use ar_bytes::{Fields, write_bytes, write_u32};
use lm_ots::OtsType;

/// An LMS public key (RFC 8554, section 5.3): the types of its tree and of its one-time signatures,
/// the identifier I of 16 bytes, and the root T[1].
#[derive(Clone, Copy, Debug, PartialEq, Eq)]
pub struct LmsPublic {
    /// The type of the tree; in the text its number, u32.
    pub lms: LmsType,
    /// The type of the one-time signatures; in the text its number, u32.
    pub ots: OtsType,
    /// I, which stands in each string that is hashed for the tree.
    pub id: [u8; 16],
    /// T[1], the value of node 1, to which each valid signature leads.
    pub root: [u8; 32],
}

impl LmsPublic {
    /// The key of a text of 56 bytes: u32 LMS type, u32 LM-OTS type, I, T[1].
    ///
    /// It is `None` exactly where the length is not 56, or one of the types is not known.
    #[tactic(auto, unfolding(crate::specs::PublicKey::key_of_text, ar_bytes::specs::Reading::whole))]
    pub fn read(bytes: &[u8]) -> Option<LmsPublic>
        ensures { result ≡ key_of_text bytes.now }
    {
        let mut fields = Fields::new(bytes);
        let key = key(&mut fields).ok()?;
        if !fields.at_end() {
            return None;
        }
        Some(key)
    }

    /// The key's text of 56 bytes.
    #[tactic(auto, unfolding(crate::specs::PublicKey::key_text))]
    pub fn bytes(&self) -> [u8; 56]
        ensures { result ≡ key_text self.now }
    {
        let mut text = [0u8; 56];
        let place = write_u32(&mut text, 0, self.lms.number());
        let place = write_u32(&mut text, place, self.ots.number());
        let place = write_bytes(&mut text, place, &self.id);
        write_bytes(&mut text, place, &self.root);
        text
    }
}

// The fields of a key.
#[tactic(auto, unfolding(crate::specs::PublicKey::key_at))]
fn key(fields: &mut Fields) -> Result<LmsPublic, usize>
    ensures { Tells (λ key. key) result fields.new (key_at fields.old) }
{
    let lms = lms_type(fields)?;
    let ots = ots_type(fields)?;
    let id = fields.take_array()?;
    let root = fields.take_array()?;
    Ok(LmsPublic { lms, ots, id, root })
}

#[tactic(auto, unfolding(crate::specs::PublicKey::type_at))]
fn lms_type(fields: &mut Fields) -> Result<LmsType, usize>
    ensures { Tells (λ kind. kind) result fields.new (type_at lms_kind.type_of_number fields.old) }
{
    let place = fields.place();
    let number = fields.take_u32()?;
    LmsType::of(number).ok_or(place)
}

#[tactic(auto, unfolding(crate::specs::PublicKey::type_at))]
fn ots_type(fields: &mut Fields) -> Result<OtsType, usize>
    ensures { Tells (λ kind. kind) result fields.new (type_at ots_kind.type_of_number fields.old) }
{
    let place = fields.place();
    let number = fields.take_u32()?;
    OtsType::of(number).ok_or(place)
}
