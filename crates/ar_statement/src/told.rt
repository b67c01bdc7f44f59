ghost use Rattle.std.specs.Prelude.{◌<◌, ◌^◌, IfSome};
ghost use Rattle.ar_base.specs.Bytes.{IsDigest};
ghost use Rattle.ar_names.specs.Names.{IsName};
ghost use Rattle.ar_statement.specs.Claims.{claim_of};
ghost use Rattle.ar_statement.specs.Ranges.{HasFields, IsHeld, IsKeyText, IsValue};

use crate::statement::Statement;
use ar_bytes::{are_bytes, digest_told};
use ar_names::NameView;
use vote_quorum::Value;

fn ballot_told(epoch: u64, base: &[u8; 32], root: &[u8; 32])
    ensures { (epoch < 2 ^ 64) × (IsDigest base.now × IsDigest root.now) }
{
    let _epoch = epoch;
    digest_told(base);
    digest_told(root);
}

fn confirm_told(epoch: u64, name: &NameView, certificate: &[u8; 32], root: &[u8; 32])
    ensures { (epoch < 2 ^ 64)
        × (IsName name.now × (IsDigest certificate.now × IsDigest root.now)) }
{
    absence_told(epoch, name, root);
    digest_told(certificate);
}

fn absence_told(epoch: u64, name: &NameView, root: &[u8; 32])
    ensures { (epoch < 2 ^ 64) × (IsName name.now × IsDigest root.now) }
{
    let _epoch = epoch;
    let _text = name.text();
    digest_told(root);
}

fn answer_told(name: &NameView, certificate: &[u8; 32], challenge: &[u8; 32])
    ensures { IsName name.now × (IsDigest certificate.now × IsDigest challenge.now) }
{
    let _text = name.text();
    digest_told(certificate);
    digest_told(challenge);
}

/// Tells a proof that the base and the root are digests. It does nothing.
pub fn value_told(value: &Value)
    ensures { IsValue value.now }
{
    digest_told(&value.base);
    digest_told(&value.root);
}

/// The same of a value that is there or not.
pub fn optional_value_told(value: &Option<Value>)
    ensures { IfSome value.now IsValue }
{
    if let Some(value) = value {
        value_told(value);
    }
}

fn status_told(epoch: u64, value: &Option<Value>)
    ensures { (epoch < 2 ^ 64) × IfSome value.now IsValue }
{
    let _epoch = epoch;
    optional_value_told(value);
}

fn roll_told(generation: u32, key: &[u8; 56])
    ensures { (generation < 2 ^ 32) × IsKeyText key.now }
{
    let _generation = generation;
    are_bytes(key);
}

fn fields_told(statement: &Statement)
    ensures { HasFields (claim_of statement.now) }
{
    match statement {
        Statement::Endorse { certificate, .. }
        | Statement::Handover { certificate }
        | Statement::Object { certificate } => digest_told(certificate),
        Statement::Propose {
            epoch,
            base,
            root,
            ..
        }
        | Statement::Vote {
            epoch,
            base,
            root,
            ..
        } => ballot_told(*epoch, base, root),
        Statement::Confirm {
            epoch,
            name,
            certificate,
            root,
            ..
        } => confirm_told(*epoch, name, certificate, root),
        Statement::ConfirmAbsent {
            epoch,
            name,
            root,
            ..
        } => absence_told(*epoch, name, root),
        Statement::Answer {
            name,
            certificate,
            challenge,
        } => answer_told(name, certificate, challenge),
        Statement::Status { epoch, value, .. } => status_told(*epoch, value),
        Statement::Roll {
            generation,
            key,
            ..
        } => roll_told(*generation, key),
    }
}

impl Statement<'_> {
    /// Tells a proof what the types keep of each statement: that its numbers, digests and key have their
    /// widths, and its name is one. It does nothing.
    pub fn told(&self)
        ensures { IsHeld (claim_of self.now) }
    {
        fields_told(self);
        let _signer = self.signer();
    }
}
