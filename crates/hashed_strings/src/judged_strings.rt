//! The strings that a client hashes for a confirmation.

ghost use Rattle.std.specs.Prelude.{◌≡◌, ◌≤◌, ◌++◌, ◌∷◌, List, ℕ, OnOk, length};
ghost use Rattle.ar_message.specs.Confirmation.{absent, present};
ghost use Rattle.ar_safety.specs.Hashed.{body_strings};
ghost use Rattle.hashed_strings.specs.Index.{AreNoted};
ghost use Rattle.hashed_strings.specs.Judged.{strings_in, strings_on};
ghost use Rattle.tree_proof.specs.Fold.{digests_in, strings_above};

use crate::noted::Noted;
use crate::table_strings::put_numbered;
use crate::tree_strings::{put_string, put_text};
use ar_base::Items;
use ar_cert::CertView;
use ar_message::{BodyView, ConfView};
use ar_names::name_digest;
use hash_tree::{Bottom, empty_digest, entry_digest, key_bit, node_digest, value_digest};
use std::alloc::{AllocError, Global};

/// Puts the strings of the nodes above a digest, over the steps, behind the others. The only error is want of memory.
fn put_above(
    alloc: Global,
    strings: &mut Vec<Items<u8>>,
    key: &[u8; 32],
    digest: [u8; 32],
    steps: &[[u8; 32]],
) -> Result<(), AllocError>
    requires { length steps.now ≤ 256 }
    ensures { OnOk result
        (strings.new.items ≡ strings.old.items ++ strings_above key.now digest steps.now) }
{
    if let [step, above @ ..] = steps {
        if key_bit(key, above.len()) == 0 {
            put_string(alloc, strings, 0x02, &digest, step)?;
            put_above(alloc, strings, key, node_digest(&digest, step), above)?;
        } else {
            put_string(alloc, strings, 0x02, step, &digest)?;
            put_above(alloc, strings, key, node_digest(step, &digest), above)?;
        }
    }
    Ok(())
}

/// The same, over steps that stand one after another in bytes.
fn put_path(
    alloc: Global,
    strings: &mut Vec<Items<u8>>,
    key: &[u8; 32],
    digest: [u8; 32],
    steps: &[u8],
) -> Result<(), AllocError>
    requires { length (digests_in steps.now) ≤ 256 }
    ensures { OnOk result
        (strings.new.items ≡ strings.old.items
        ++ strings_above key.now digest (digests_in steps.now)) }
{
    let (digests, _) = steps.as_chunks::<32>();
    put_above(alloc, strings, key, digest, digests)
}

/// Puts the strings of a certificate that a confirmation shows behind the others. The only error is want of memory.
fn put_present(
    alloc: Global,
    strings: &mut Vec<Items<u8>>,
    key: &[u8; 32],
    steps: &[u8],
    cert: &CertView,
) -> Result<(), AllocError>
    requires { length (digests_in steps.now) ≤ 256 }
    ensures { OnOk result
        (strings.new.items ≡ strings.old.items
        ++ body_strings key.now steps.now (present cert.now)) }
{
    let digest = cert.digest();
    let value = value_digest(cert.serial(), &digest);
    put_numbered(alloc, strings, 0x03, cert.serial(), &digest)?;
    put_text(alloc, strings, 0x10, cert.text())?;
    put_string(alloc, strings, 0x01, key, &value)?;
    put_path(alloc, strings, key, entry_digest(key, &value), steps)
}

/// Puts the strings of what shows that there is none behind the others. The only error is want of memory.
fn put_absent(
    alloc: Global,
    strings: &mut Vec<Items<u8>>,
    key: &[u8; 32],
    steps: &[u8],
    bottom: &Bottom,
) -> Result<(), AllocError>
    requires { length (digests_in steps.now) ≤ 256 }
    ensures { OnOk result
        (strings.new.items ≡ strings.old.items
        ++ body_strings key.now steps.now (absent bottom.now)) }
{
    match bottom {
        Bottom::Empty => {
            put_text(alloc, strings, 0x00, &[])?;
            put_path(alloc, strings, key, empty_digest(), steps)
        }
        Bottom::Other { key: other, value } => {
            put_string(alloc, strings, 0x01, other, value)?;
            put_path(alloc, strings, key, entry_digest(other, value), steps)
        }
    }
}

/// Puts the strings of a confirmation behind the others. The only error is want of memory.
fn put_confirmation(
    alloc: Global,
    strings: &mut Vec<Items<u8>>,
    view: &ConfView,
) -> Result<(), AllocError>
    ensures { OnOk result (strings.new.items ≡ strings.old.items ++ strings_on view.now) }
{
    view.told();
    put_text(alloc, strings, 0x11, view.name())?;
    let key = name_digest(view.name());
    match view.body() {
        BodyView::Present(cert) => put_present(alloc, strings, &key, view.steps(), &cert),
        BodyView::Absent(bottom) => put_absent(alloc, strings, &key, view.steps(), &bottom),
    }
}

/// Puts the strings that are hashed for a confirmation with this text behind the others; bytes that are none have none. The only
/// error is want of memory.
fn put_read(alloc: Global, strings: &mut Vec<Items<u8>>, bytes: &[u8]) -> Result<(), AllocError>
    ensures { OnOk result (strings.new.items ≡ strings.old.items ++ strings_in bytes.now) }
{
    match ConfView::read(bytes) {
        Some(view) => put_confirmation(alloc, strings, &view),
        None => Ok(()),
    }
}

impl Noted {
    /// Notes the strings that a client hashes for a confirmation with this text; bytes that are none have none. The only error is
    /// want of memory.
    #[tactic(auto, using(crate::proofs::Index::front_steps))]
    pub fn note_confirmation(&mut self, alloc: Global, bytes: &[u8]) -> Result<(), AllocError>
        ensures { OnOk result ((others : List (List ℕ)) → AreNoted self.old others
            → AreNoted self.new (strings_in bytes.now ++ others)) }
    {
        let mut strings = Vec::new(alloc);
        put_read(alloc, &mut strings, bytes)?;
        self.note_all(alloc, &strings)?;
        Ok(())
    }
}
