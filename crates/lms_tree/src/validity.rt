ghost use Rattle.std.specs.Prelude.{◌≡◌, ◌<◌, length, Some};
ghost use Rattle.lm_ots.specs.OtsKind.{number_of, signature_len_of};
ghost use Rattle.lm_ots.specs.Candidate.{type_number};
ghost use Rattle.lms_tree.specs.LmsKind.{leaves_of};
ghost use Rattle.lms_tree.specs.Tree.{go_up};
ghost use Rattle.lms_tree.specs.Validity.{candidate_root, conditions_on, verdict, verdict_of};
ghost use Rattle.ar_base.specs.FirstFailing.{first_failing};
ghost use Rattle.lms_tree.specs.BorrowedParts.{borrowed};

use crate::LmsPublic;
use crate::signature::{Signature, type_number};
use crate::tree::{leaf_node, parent_of};
use lm_ots::ots_candidate;

/// What a verification answers.
#[derive(Clone, Copy, Debug, PartialEq, Eq)]
pub enum Verdict {
    /// None of the conditions fails.
    Valid,
    /// The number of the first condition that fails.
    Invalid(u8),
}

/// Whether a signature of `message` is valid under a key (RFC 8554, section 5.4.2).
///
/// It is not valid at the first of these conditions that fails: 1 the length is that of the key's
/// types, 2 the LM-OTS type is the key's, 3 the LMS type is the key's, 4 the leaf is below 2^h, 5 the
/// signature leads to the key's root.
pub fn valid(key: &LmsPublic, message: &[u8], signature: &[u8]) -> Verdict
    ensures { result ≡ verdict_of key.now message.now signature.now }
{
    match Signature::read(key.lms, key.ots, signature) {
        None => Verdict::Invalid(1),
        Some(parts) => judge(key, message, &parts),
    }
}

// The verdict on the parts of a signature that has the length of the key's types.
fn judge(key: &LmsPublic, message: &[u8], parts: &Signature) -> Verdict
    requires { length parts.now.one_time.now ≡ signature_len_of key.now.ots }
    ensures { result ≡ verdict
        (first_failing (conditions_on key.now message.now (Some (borrowed parts.now)))) }
{
    if type_number(parts.one_time) != key.ots.number() {
        return Verdict::Invalid(2);
    }
    if parts.lms != key.lms.number() {
        return Verdict::Invalid(3);
    }
    if parts.leaf >= key.lms.leaves() {
        return Verdict::Invalid(4);
    }
    if candidate_root(key, message, parts) != key.root {
        return Verdict::Invalid(5);
    }
    Verdict::Valid
}

// The value at the root that the parts of a signature of the key's types lead to.
#[tactic(auto, unfolding(crate::specs::Validity::candidate_root))]
fn candidate_root(key: &LmsPublic, message: &[u8], parts: &Signature) -> [u8; 32]
    requires width { length parts.now.one_time.now ≡ signature_len_of key.now.ots }
    requires ots { type_number parts.now.one_time.now ≡ number_of key.now.ots }
    requires leaf { parts.now.leaf < leaves_of key.now.lms }
    ensures { result ≡ candidate_root key.now message.now (borrowed parts.now) }
{
    let Some(one_time_key) = ots_candidate(&key.id, parts.leaf, key.ots, message, parts.one_time)
    else {
        unreachable!()
    };
    let node = key.lms.leaves() + parts.leaf;
    go_up(
        &key.id,
        node,
        leaf_node(&key.id, node, &one_time_key),
        parts.path,
    )
}

// The value at the root, where `value` is that of `node`, and the path begins with its sibling.
fn go_up(id: &[u8; 16], node: u32, value: [u8; 32], path: &[[u8; 32]]) -> [u8; 32]
    ensures { result ≡ go_up id.now node value path.now }
{
    let mut node = node;
    let mut value = value;
    for sibling in path {
        value = parent_of(id, node, &value, sibling);
        node /= 2;
    }
    value
}
