ghost use Rattle.ar_cert.specs.declared.fault.CertFault.TheVariants as faults;

use crate::cert::Cert;
use crate::change::Change;
use crate::change_view::ChangeView;
use crate::fault::CertFault;
use crate::view::CertView;
use ar_bytes::Fields;
use std::alloc::Global;

impl Cert {
    ghost use Rattle.std.specs.Prelude.{◌≡◌, OnErr};
    ghost use Rattle.ar_base.specs.Gives.{with_error, GivesOrWants};
    ghost use Rattle.ar_bytes.specs.Reading.{whole, TellsOrWants};
    ghost use Rattle.ar_cert.specs.Certificate.{certificate_at, counted_certificate_at};

    /// The certificate with this text. Memory is taken only once all of it was found in order.
    pub fn read(alloc: Global, bytes: &[u8]) -> Result<Cert, CertFault>
        ensures { GivesOrWants faults.Memory (λ cert.
            cert) result (with_error faults.Form (whole certificate_at bytes.now)) }
    {
        let view = CertView::of(bytes).map_err(CertFault::Form)?;
        Ok(view.to_cert(alloc)?)
    }

    /// The certificate that stands next behind the number of its bytes, which it fills. Memory is taken
    /// only once all of it was found in order. After an error the reader is as it was.
    pub fn take_counted(alloc: Global, fields: &mut Fields) -> Result<Cert, CertFault>
        ensures tells { TellsOrWants faults.Form faults.Memory (λ cert.
            cert) result fields.new (counted_certificate_at fields.old) }
        ensures err { OnErr result (fields.new ≡ fields.old) }
    {
        let mut ahead = fields.copy();
        let view = CertView::take_counted(&mut ahead).map_err(CertFault::Form)?;
        let cert = view.to_cert(alloc)?;
        *fields = ahead;
        Ok(cert)
    }
}

impl Change {
    ghost use Rattle.std.specs.Prelude.{◌≡◌, OnErr};
    ghost use Rattle.ar_base.specs.Gives.{with_error, GivesOrWants};
    ghost use Rattle.ar_bytes.specs.Reading.{whole, TellsOrWants};
    ghost use Rattle.ar_cert.specs.Changes.{change_at};

    /// The change with this text. Memory is taken only once all of it was found in order.
    #[tactic(auto, unfolding(ar_bytes::specs::Reading::whole))]
    pub fn read(alloc: Global, bytes: &[u8]) -> Result<Change, CertFault>
        ensures { GivesOrWants faults.Memory (λ change.
            change) result (with_error faults.Form (whole change_at bytes.now)) }
    {
        let mut fields = Fields::new(bytes);
        let view = ChangeView::take(&mut fields).map_err(CertFault::Form)?;
        fields.take_end().map_err(CertFault::Form)?;
        Ok(view.to_change(alloc)?)
    }

    /// The change that stands next. Memory is taken only once all of it was found in order. After an
    /// error the reader is as it was.
    pub fn take(alloc: Global, fields: &mut Fields) -> Result<Change, CertFault>
        ensures tells { TellsOrWants faults.Form faults.Memory (λ change.
            change) result fields.new (change_at fields.old) }
        ensures err { OnErr result (fields.new ≡ fields.old) }
    {
        let mut ahead = fields.copy();
        let view = ChangeView::take(&mut ahead).map_err(CertFault::Form)?;
        let change = view.to_change(alloc)?;
        *fields = ahead;
        Ok(change)
    }
}
