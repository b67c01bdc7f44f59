ghost use Rattle.std.specs.Prelude.{◌≡◌, ◌≤◌, length, IfSome};
ghost use Rattle.std.specs.Option.{option_map};
ghost use Rattle.std.specs.Result.{result_ok};
ghost use Rattle.ar_bytes.specs.Reading.{whole};
ghost use Rattle.lm_ots.specs.Candidate.{type_number};
ghost use Rattle.lm_ots.specs.OtsKind.{signature_len_of};
ghost use Rattle.lms_tree.specs.Signature.{signature_at};
ghost use Rattle.lms_tree.specs.BorrowedParts.{borrowed};

use crate::LmsType;
use ar_bytes::Fields;
use lm_ots::OtsType;

/// The parts of a signature that has the length of its types.
#[derive(Drop)]
pub(crate) struct Signature<'a> {
    /// q: the number of the leaf.
    pub leaf: u32,
    /// The LM-OTS signature, which begins with the number of its type.
    pub one_time: &'a [u8],
    /// The number of the LMS type.
    pub lms: u32,
    /// The path, from the leaf's sibling upwards.
    pub path: &'a [[u8; 32]],
}

impl<'a> Signature<'a> {
    /// The parts of a signature of these types, or `None` exactly where it has not their length.
    #[tactic(auto, unfolding(crate::specs::Signature::signature_at, ar_bytes::specs::Reading::whole))]
    pub(crate) fn read(lms: LmsType, ots: OtsType, bytes: &'a [u8]) -> Option<Signature<'a>>
        ensures parts { option_map borrowed result
            ≡ result_ok (whole (signature_at lms ots) bytes.now) }
        ensures len { IfSome result (λ parts. length parts.one_time.now ≡ signature_len_of ots) }
    {
        let mut fields = Fields::new(bytes);
        let leaf = fields.u32()?;
        let one_time = fields.bytes(ots.signature_len())?;
        let lms_number = fields.u32()?;
        let path = fields.bytes(32 * lms.height() as usize)?;
        if !fields.at_end() {
            return None;
        }
        let (path, _) = path.as_chunks();
        Some(Signature {
            leaf,
            one_time,
            lms: lms_number,
            path,
        })
    }
}

/// The number of the type that an LM-OTS signature names.
pub(crate) fn type_number(one_time: &[u8]) -> u32
    requires { 4 ≤ length one_time.now }
    ensures { result ≡ type_number one_time.now }
{
    u32::from_be_bytes([one_time[0], one_time[1], one_time[2], one_time[3]])
}
