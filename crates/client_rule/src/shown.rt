ghost use Rattle.std.specs.Prelude.{◌≡◌};
ghost use Rattle.client_rule.specs.Views.{body_shown, HasDigest};

use ar_cert::CertView;
use ar_message::{BodyView, ConfView};
use tree_proof::Bottom;

/// What a confirmation says of its name.
#[derive(Debug, Drop)]
pub(crate) enum Shown<'a> {
    /// It has this certificate, with this digest.
    Present {
        certificate: CertView<'a>,
        digest: [u8; 32],
    },
    /// It has none: this stands at the foot of its path.
    Absent(Bottom),
}

/// What the confirmation says of its name.
pub(crate) fn shown_by<'a>(view: &ConfView<'a>) -> Shown<'a>
    ensures body { body_shown result ≡ view.now.body }
    ensures digest { HasDigest result }
{
    match view.body() {
        BodyView::Present(certificate) => {
            let digest = certificate.digest();
            Shown::Present {
                certificate,
                digest,
            }
        }
        BodyView::Absent(bottom) => Shown::Absent(bottom),
    }
}
