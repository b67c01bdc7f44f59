//! The steps of owners that send.

ghost use Rattle.std.specs.Prelude.{◌≡◌, length, IfOk};
ghost use Rattle.ar_base.specs.Gives.{with_error};
ghost use Rattle.ar_cert.specs.Certificate.{digest_of};
ghost use Rattle.owner_core.specs.Rows.{object_row, step_row, submit_row};
ghost use Rattle.ar_nodes.specs.Acting.{RepliesBy, owner_does};
ghost use Rattle.ar_nodes.specs.Codes.{owner_code};

use crate::codes::owner_code;
use crate::fault::WorldFault;
use crate::replying::Reply;
use ar_cert::Cert;
use owner_core::laws::so_many_are_sent;
use owner_core::{Owner, OwnerRefusal};
use std::alloc::Global;

/// An owner takes a message. It sends nothing.
pub(crate) fn take(alloc: Global, owner: &mut Owner, bytes: &[u8]) -> Result<Reply, WorldFault>
    ensures row { RepliesBy result owner.old owner.new
        (owner_does owner.old (step_row owner.old bytes.now)) }
    ensures few { IfOk result (λ reply. IfOk reply (λ sent. length sent.messages ≡ 0)) }
{
    so_many_are_sent();
    match owner.step(alloc, bytes) {
        Ok(sent) => Ok(Ok(sent)),
        Err(OwnerRefusal::Memory) => Err(WorldFault::Memory),
        Err(refusal) => Ok(Err(owner_code(refusal))),
    }
}

/// An owner objects to a certificate.
pub(crate) fn object(alloc: Global, owner: &mut Owner, cert: &Cert) -> Result<Reply, WorldFault>
    ensures row { RepliesBy result owner.old owner.new
        (owner_does owner.old (object_row owner.old cert.now)) }
    ensures few { IfOk result (λ reply. IfOk reply (λ sent. length sent.messages ≡ 1)) }
{
    so_many_are_sent();
    match owner.object(alloc, cert) {
        Ok(sent) => Ok(Ok(sent)),
        Err(OwnerRefusal::Memory) => Err(WorldFault::Memory),
        Err(refusal) => Ok(Err(owner_code(refusal))),
    }
}

/// An owner submits its draft with this certificate, and stays as it is.
pub(crate) fn submit(alloc: Global, owner: &Owner, cert: &Cert) -> Result<Reply, WorldFault>
    ensures row { RepliesBy result owner.now owner.now
        (owner.now, with_error owner_code (submit_row owner.now (digest_of cert.now))) }
    ensures few { IfOk result (λ reply. IfOk reply (λ sent. length sent.messages ≡ 1)) }
{
    so_many_are_sent();
    match owner.submit(alloc, &cert.digest()) {
        Ok(sent) => Ok(Ok(sent)),
        Err(OwnerRefusal::Memory) => Err(WorldFault::Memory),
        Err(refusal) => Ok(Err(owner_code(refusal))),
    }
}
