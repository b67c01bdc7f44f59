ghost use Rattle.std.specs.Prelude.{◌≡◌, IfOk};
ghost use Rattle.ar_cert.specs.Lists.{numbers_in};

use crate::cert::{Cert, Policy};
use crate::change::{Change, Endorsement};
use ar_base::Items;
use std::alloc::{AllocError, Global};

/// The numbers that stand in the bytes, two bytes for each.
pub(crate) fn numbers_of(alloc: Global, bytes: &[u8]) -> Result<Vec<u16>, AllocError>
    ensures { IfOk result (λ numbers. numbers.items ≡ numbers_in bytes.now) }
{
    let count = bytes.len() / 2;
    let mut numbers = Vec::with_capacity(alloc, count)?;
    for i in 0..count {
        numbers.push(u16::from_be_bytes([bytes[2 * i], bytes[2 * i + 1]]))?;
    }
    Ok(numbers)
}

impl Cert {
    /// A second value that says the same.
    /// The only error is want of memory.
    pub fn copy(&self, alloc: Global) -> Result<Cert, AllocError>
        ensures { IfOk result (λ cert. cert ≡ self.now) }
    {
        let name = self.name.view().to_name(alloc)?;
        let policy = &self.policy;
        let trusted = Vec::from_slice(alloc, policy.trusted.as_slice())?;
        Ok(Cert {
            name,
            serial: self.serial,
            previous: self.previous,
            subject: self.subject,
            policy: Policy {
                threshold: policy.threshold,
                keyed: policy.keyed,
                max_age: policy.max_age,
                until: policy.until,
                trusted: Items::from_vec(trusted),
                wait: policy.wait,
            },
            revoked: self.revoked,
        })
    }
}

impl Endorsement {
    /// A second value that says the same. The only error here and below is want of memory.
    fn copy(&self, alloc: Global) -> Result<Endorsement, AllocError>
        ensures { IfOk result (λ endorsement. endorsement ≡ self.now) }
    {
        let signature = Vec::from_slice(alloc, self.signature.as_slice())?;
        Ok(Endorsement {
            authority: self.authority,
            signature: Items::from_vec(signature),
        })
    }
}

/// Copies of all, in their order.
/// The only error is want of memory.
fn copy_endorsements(
    alloc: Global,
    endorsements: &[Endorsement],
) -> Result<Vec<Endorsement>, AllocError>
    ensures { IfOk result (λ list. list.items ≡ endorsements.now) }
{
    let mut list = Vec::with_capacity(alloc, endorsements.len())?;
    for endorsement in endorsements {
        list.push(endorsement.copy(alloc)?)?;
    }
    Ok(list)
}

/// A signature of its own, where there is one.
/// The only error is want of memory.
pub fn copy_signature(
    alloc: Global,
    signature: &Option<Items<u8>>,
) -> Result<Option<Items<u8>>, AllocError>
    ensures { IfOk result (λ copy. copy ≡ signature.now) }
{
    match signature {
        None => Ok(None),
        Some(signature) => Ok(Some(Items::from_vec(Vec::from_slice(alloc, signature.as_slice())?))),
    }
}

impl Change {
    /// A second value that says the same.
    /// The only error is want of memory.
    pub fn copy(&self, alloc: Global) -> Result<Change, AllocError>
        ensures { IfOk result (λ change. change ≡ self.now) }
    {
        let cert = self.cert.copy(alloc)?;
        let endorsements = copy_endorsements(alloc, self.endorsements.as_slice())?;
        let handover = copy_signature(alloc, &self.handover)?;
        let objection = copy_signature(alloc, &self.objection)?;
        Ok(Change {
            cert,
            endorsements: Items::from_vec(endorsements),
            handover,
            objection,
            handed: self.handed,
        })
    }
}
