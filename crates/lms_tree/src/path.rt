ghost use Rattle.std.specs.Prelude.{◌≡◌, ◌+◌, ◌*◌, ◌^◌, ◌<◌, ◌≤◌, ◌++◌, length, take};
ghost use Rattle.std.specs.List.{flat_map, range_with_len};
ghost use Rattle.lm_ots.specs.OtsKind.{signature_len_of};
ghost use Rattle.lm_ots.specs.Signing as one_time;
ghost use Rattle.lms_tree.specs.LmsKind.{height_of, leaves_of};
ghost use Rattle.lms_tree.specs.Key.{path_element, sibling_of};
ghost use Rattle.lms_tree.specs.Nodes.{HoldsFrom};
ghost use Rattle.lms_tree.specs.Signature.{lms_signature_len_of};

use crate::parts::Parts;
use ar_bytes::write_bytes;
use lm_ots::{OtsSecret, ots_sign_into};

/// Writes the LM-OTS signature into a signature.
pub(crate) fn put_one_time(secret: &OtsSecret, message: &[u8], out: &mut [u8])
    requires { 4 + signature_len_of secret.now.kind ≤ length out.old }
    ensures { take (4 + signature_len_of secret.now.kind) out.new
        ≡ take 4 out.old ++ one_time.signature_of secret.now message.now }
{
    ots_sign_into(
        secret,
        message,
        &mut out[4..4 + secret.kind.signature_len()],
    );
}

/// Writes the path of a leaf into a signature.
pub(crate) fn put_path(parts: &Parts, nodes: &[[u8; 32]], leaf: u32, out: &mut [u8])
    requires leaf { leaf < leaves_of parts.now.lms }
    requires len { length nodes.now ≡ 2 * leaves_of parts.now.lms }
    requires nodes { HoldsFrom parts.now 1 nodes.now }
    requires room { length out.old ≡ lms_signature_len_of parts.now.lms parts.now.ots }
    ensures { out.new ≡ take (8 + signature_len_of parts.now.ots) out.old
        ++ flat_map (path_element parts.now leaf) (range_with_len 0 (height_of parts.now.lms)) }
{
    let path_place = 8 + parts.ots().signature_len();
    let mut node = parts.lms().leaves() + leaf;
    for k in 0..parts.lms().height() as usize {
        let element = nodes[sibling_of(node) as usize];
        write_bytes(out, path_place + 32 * k, &element);
        node /= 2;
    }
}

// The other child of a node's parent.
fn sibling_of(node: u32) -> u32
    requires { node + 1 < 2 ^ 32 }
    ensures { result ≡ sibling_of node }
{
    if node % 2 == 1 { node - 1 } else { node + 1 }
}
