ghost use Rattle.std.specs.Prelude.{◌≡◌};
ghost use Rattle.client_rule.specs.Rule.{judgement, accepted_body};
ghost use Rattle.client_rule.specs.Views.{body_shown, HasDigest};

use crate::checks::refusal;
use crate::shown::{Shown, shown_by};
use ar_cert::CertView;
use ar_message::ConfView;
use party_keys::Directory;

/// What a client answers to a confirmation.
#[derive(Debug, Drop)]
pub enum Judgement<'a> {
    /// The name has the certificate, with this digest, at the end of the epoch, in the table with this
    /// root.
    Accepted {
        certificate: CertView<'a>,
        digest: [u8; 32],
        epoch: u64,
        root: [u8; 32],
    },
    /// The name has no certificate at the end of the epoch, in the table with this root.
    Absent {
        epoch: u64,
        root: [u8; 32],
    },
    /// The number of the first check that fails: 1 the bytes are no confirmation; 2 the name is not the
    /// one that was asked for; 3 the log or an authority is not known, or the two authorities are one;
    /// 4, 5, 6 the signature of the log, of the first, of the second authority is not valid; 7 the
    /// certificate is of another name, or the path does not lead from it to the root, or it does not
    /// show that there is none; 8 the epoch is later than `now`; 9 it is longer ago than the client or
    /// the certificate allows; 10 the certificate is revoked; 11 it has expired.
    Refused(u8),
}

// What the confirmation says, where no check refuses it.
fn accepted_body<'a>(view: &ConfView<'a>, shown: Shown<'a>) -> Judgement<'a>
    requires { HasDigest shown }
    ensures { result ≡ accepted_body view.now.about (body_shown shown.entry) }
{
    let (epoch, root) = (view.epoch(), view.root());
    match shown {
        Shown::Present {
            certificate,
            digest,
        } => Judgement::Accepted {
            certificate,
            digest,
            epoch,
            root,
        },
        Shown::Absent(_) => Judgement::Absent { epoch, root },
    }
}

/// Judges the bytes of a confirmation of a name, in epoch `now`, for a client that accepts what is at
/// most `age` epochs old. It takes no memory.
#[tactic(auto, unfolding(crate::specs::Rule::judgement))]
pub fn judge<'a>(
    directory: &Directory,
    name: &[u8],
    bytes: &'a [u8],
    now: u64,
    age: u64,
) -> Judgement<'a>
    ensures { result ≡ judgement (record {
      keys = directory.now;
      name = name.now;
      epoch = now;
      age = age;
    }) bytes.now }
{
    let Some(view) = ConfView::read(bytes) else {
        return Judgement::Refused(1);
    };
    let shown = shown_by(&view);
    match refusal(directory, name, &view, &shown, now, age) {
        Err(number) => Judgement::Refused(number),
        Ok(()) => accepted_body(&view, shown),
    }
}
