ghost use Rattle.std.specs.Prelude.{◌≡◌, ◌<◌, length, IfSome, Ok, Some};
ghost use Rattle.ar_base.specs.Gives.{GivesOrWants};
ghost use Rattle.lm_ots.specs.OtsKind as ots_kind;
ghost use Rattle.lms_tree.specs.LmsKind as lms_kind;
ghost use Rattle.lms_tree.specs.LmsKind.{leaves_of};
ghost use Rattle.lms_tree.specs.Key.{made, public_of, signature_of, type_to_make};
ghost use Rattle.lms_tree.specs.Signature.{lms_signature_len_of};
ghost use Rattle.lms_tree.specs.declared.key.KeyFault.TheVariants.{Memory};

use crate::nodes::make_nodes;
use crate::parts::Parts;
use crate::path::{put_one_time, put_path};
use crate::{LmsPublic, LmsType};
use ar_bytes::write_u32;
use lm_ots::OtsType;
use std::alloc::{AllocError, Global};
use std::marker::Model;
use thiserror::Error;

/// Why no key was made.
#[derive(Clone, Copy, Debug, Error, PartialEq, Eq)]
pub enum KeyFault {
    /// No key of these types is made: the LMS type is none of 5, 6 and 7, or the LM-OTS type is none
    /// of 1 to 4.
    #[error("no key of these types is made")]
    Kind,
    /// Memory ran out.
    #[error("memory ran out")]
    Memory,
}

impl From<AllocError> for KeyFault {
    ghost from_gives = { λ _ e. e ≡ Memory };

    fn from(_error: AllocError) -> KeyFault {
        KeyFault::Memory
    }
}

/// A key that signs, with all nodes of its tree.
///
/// Each leaf may sign one message. The key does not keep count: whoever holds it does.
#[derive(Drop)]
pub struct LmsKey {
    parts: Parts,
    // Node r at place r, and nothing at place 0.
    nodes: Vec<[u8; 32]>,
}

impl Model for LmsKey {
    ghost use Rattle.std.specs.Prelude.{◌≡◌, ◌*◌, length, Ok};
    ghost use Rattle.lm_ots.specs.OtsKind as ots_kind;
    ghost use Rattle.lms_tree.specs.Key.{made};
    ghost use Rattle.lms_tree.specs.KeyParts.{KeyParts};
    ghost use Rattle.lms_tree.specs.LmsKind as lms_kind;
    ghost use Rattle.lms_tree.specs.LmsKind.{leaves_of};
    ghost use Rattle.lms_tree.specs.Nodes.{HoldsFrom};

    ghost Value = { KeyParts };

    ghost view = { λ key. key.parts };

    ghost invariant = { λ key. (length key.nodes.items ≡ 2 * leaves_of key.parts.lms)
        × HoldsFrom key.parts 1 key.nodes.items
        × (made key.parts.seed (lms_kind.number_of key.parts.lms) (ots_kind.number_of key.parts.ots)
        ≡ Ok key.parts) };
}

impl LmsKey {
    /// The key of a seed, of an LMS type from 5 to 7 and an LM-OTS type from 1 to 4.
    ///
    /// It is `Kind` exactly where the types are others, and `Memory` only where they are these. It
    /// costs one public key for each leaf: seconds for 2^15 leaves.
    pub fn make(alloc: Global, seed: &[u8; 32], lms: u32, ots: u32) -> Result<LmsKey, KeyFault>
        ensures { GivesOrWants Memory (λ key. key) result (made seed.now lms ots) }
    {
        let (Some(lms), Some(ots)) = (type_to_make(lms), OtsType::of(ots)) else {
            return Err(KeyFault::Kind);
        };
        let parts = Parts::new(seed, lms, ots);
        let nodes = make_nodes(alloc, &parts)?;
        Ok(LmsKey { parts, nodes })
    }

    /// The public key.
    pub fn public(&self) -> LmsPublic
        ensures { result ≡ public_of self.now }
    {
        LmsPublic {
            lms: self.parts.lms(),
            ots: self.parts.ots(),
            id: *self.parts.id(),
            root: self.nodes[1],
        }
    }

    /// The seed that the key was made from: with its types it makes the key again.
    pub fn seed(&self) -> &[u8; 32]
        ensures seed { result.now ≡ self.now.seed }
        ensures again { made self.now.seed (lms_kind.number_of self.now.lms)
            (ots_kind.number_of self.now.ots) ≡ Ok self.now }
    {
        self.parts.seed()
    }

    /// The number of leaves, 2^h.
    pub fn leaves(&self) -> u32
        ensures { result ≡ leaves_of self.now.lms }
    {
        self.parts.lms().leaves()
    }

    /// The length in bytes of each signature.
    pub fn signature_len(&self) -> usize
        ensures { result ≡ lms_signature_len_of self.now.lms self.now.ots }
    {
        8 + self.parts.ots().signature_len() + 32 * self.parts.lms().height() as usize
    }

    /// Writes the signature of `message` by a leaf (RFC 8554, section 5.4): u32 q, the LM-OTS
    /// signature, u32 LMS type, and the path from the leaf's sibling upwards.
    ///
    /// A leaf that signs two messages gives away how to sign more.
    pub fn sign_at(&self, leaf: u32, message: &[u8], out: &mut [u8])
        requires leaf { leaf < leaves_of self.now.lms }
        requires room { length out.old ≡ lms_signature_len_of self.now.lms self.now.ots }
        ensures { out.new ≡ signature_of self.now leaf message.now }
    {
        write_u32(out, 0, leaf);
        put_one_time(&self.parts.secret(leaf), message, out);
        let type_place = 4 + self.parts.ots().signature_len();
        write_u32(out, type_place, self.parts.lms().number());
        put_path(&self.parts, &self.nodes, leaf, out);
    }
}

/// The LMS type of a number, where keys of it are made: H5, H10 or H15, of the numbers 5 to 7.
pub fn type_to_make(number: u32) -> Option<LmsType>
    ensures is { result ≡ type_to_make number }
    ensures again { IfSome result (λ lms. type_to_make (lms_kind.number_of lms) ≡ Some lms) }
{
    match number {
        5 => Some(LmsType::H5),
        6 => Some(LmsType::H10),
        7 => Some(LmsType::H15),
        _ => None,
    }
}
