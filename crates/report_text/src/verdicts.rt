//! What is said of a client's judgement.

ghost use Rattle.std.specs.Prelude.{◌≡◌};
ghost use Rattle.report_text.specs.Verdicts.{said_of};

use crate::happening::Said;
use ar_names::Name;
use client_rule::Judgement;
use std::marker::Model;

/// What a client says that came to this verdict on a name, as it is printed.
pub fn said_of(name: Name, verdict: &Judgement<'_>) -> Said
    ensures { result ≡ said_of name verdict.now }
{
    match verdict {
        Judgement::Accepted {
            certificate,
            digest,
            epoch,
            root,
        } => Said::Accepted {
            name,
            serial: certificate.serial(),
            epoch: *epoch,
            root: *root,
            certificate: *digest,
        },
        Judgement::Absent { epoch, root } => Said::Absent {
            name,
            epoch: *epoch,
            root: *root,
        },
        Judgement::Refused(check) => Said::Refused(*check),
    }
}
