ghost use Rattle.std.specs.Prelude.{◌≡◌, length};
ghost use Rattle.arpki_c.specs.Following.{at_front, fault_following, first_text, following, keeping_nothing, link_following, pinning, said_behind};

use crate::answers::{CallAnswer, NO_MEMORY, REFUSED};
use crate::pins::PinFault;
use ar_bytes::{write_bytes, write_u8, write_u16};
use ar_cert::CertView;
use client_memory::{LinkFault, Pinned};
use client_rule::Judgement;

/// The name has no certificate, and is pinned.
const GONE: u32 = 6;
/// Another certificate is pinned, and there is no link.
const NO_LINKS: u32 = 7;
/// The first link that fails has an endorsement that is not valid; `check` is the number of its authority.
const BAD_ENDORSEMENT: u32 = 8;
/// The first link that fails does not follow by the policy; `check` is the number of the clause.
const BAD_UPDATE: u32 = 9;
/// The last link is of another certificate than that of the confirmation.
const WRONG_END: u32 = 10;
/// There are more than 64 links.
const LONG: u32 = 11;
/// More than 4,096 changes would be kept of the name.
const FULL: u32 = 12;
/// The pin is none; `check` says why, 1 to 3.
const BAD_PIN: u32 = 13;
/// The bytes of the links are none.
const BAD_LINKS: u32 = 14;

/// Nothing is to be kept.
const KEEP_NOTHING: u32 = 0;
/// The pin is now what stands in `first`.
const KEEP_FIRST: u32 = 1;
/// The pin is now what it was, with the bytes of the links behind it.
const KEEP_LINKS: u32 = 2;

/// The bytes in which the first text of a pin stands: it has at most 406.
const FIRST_SIZE: usize = 412;

/// What is told of a confirmation by what is pinned of its name. What an outcome does not speak of is zero.
#[repr(C)]
#[derive(Clone, Copy, PartialEq, Eq)]
pub struct Followed {
    /// What is told of the confirmation. Beside the outcomes of a confirmation alone there are 6 gone, 7 no links, 8 bad
    /// endorsement, 9 bad update, 10 wrong end, 11 long, 12 full, 13 bad pin, 14 bad links.
    pub answer: CallAnswer,
    /// How many bytes of `first` are to be kept.
    pub first_len: usize,
    /// How many links hold, from the first on.
    pub links: usize,
    /// 0 nothing is to be kept, 1 the bytes of `first`, 2 those of the links, behind the others.
    pub keep: u32,
    /// The text of the first change of a pin.
    pub first: [u8; 412],
}

/// The text of the change that pins a certificate, at the front of zero bytes, and how long it is.
#[tactic(auto, using(crate::proofs::Firsts::short_certificate))]
fn first_text(certificate: &CertView) -> ([u8; FIRST_SIZE], usize)
    ensures bytes { result.0 ≡ at_front (first_text certificate.now) }
    ensures len { result.1 ≡ length (first_text certificate.now) }
{
    certificate.told();
    let text = certificate.text();
    let mut bytes = [0; FIRST_SIZE];
    let place = write_u16(&mut bytes, 0, text.len() as u16);
    let place = write_bytes(&mut bytes, place, text);
    let place = write_u8(&mut bytes, place, 0);
    let place = write_u8(&mut bytes, place, 0);
    (bytes, place)
}

impl Followed {
    /// An answer behind so many links, and nothing to keep.
    pub(crate) fn keeping_nothing(answer: CallAnswer, links: usize) -> Followed
        ensures { result ≡ keeping_nothing answer links }
    {
        Followed {
            answer,
            first_len: 0,
            links,
            keep: KEEP_NOTHING,
            first: [0; FIRST_SIZE],
        }
    }

    /// An outcome with a number, behind so many links.
    fn said(outcome: u32, check: u32, links: usize) -> Followed
        ensures { result ≡ said_behind outcome check links }
    {
        Followed::keeping_nothing(CallAnswer::said(outcome, check), links)
    }

    /// A certificate that is pinned now.
    fn pinning(shown: &Judgement) -> Followed
        ensures { result ≡ pinning shown.now }
    {
        let Judgement::Accepted { certificate, .. } = shown else {
            return Followed::keeping_nothing(CallAnswer::of_judgement(shown), 0);
        };
        let (first, first_len) = first_text(certificate);
        Followed {
            answer: CallAnswer::of_judgement(shown),
            first_len,
            links: 0,
            keep: KEEP_FIRST,
            first,
        }
    }

    /// What is told of a link that fails behind so many that hold.
    fn of_link(links: usize, fault: LinkFault) -> Followed
        ensures { result ≡ link_following links fault }
    {
        match fault {
            LinkFault::Endorsement(authority) => {
                Followed::said(BAD_ENDORSEMENT, u32::from(authority), links)
            }
            LinkFault::Policy(refusal) => {
                Followed::said(BAD_UPDATE, u32::from(refusal.number()), links)
            }
        }
    }

    /// What is told of what a client answers to a confirmation that shows this.
    pub(crate) fn of_pinned(pinned: Pinned, shown: &Judgement) -> Followed
        ensures { result ≡ following pinned shown.now }
    {
        let judged = CallAnswer::of_judgement(shown);
        match pinned {
            Pinned::Refused(check) => Followed::said(REFUSED, u32::from(check), 0),
            Pinned::Gone => Followed::keeping_nothing(
                CallAnswer {
                    outcome: GONE,
                    ..judged
                },
                0,
            ),
            Pinned::Absent | Pinned::Same => Followed::keeping_nothing(judged, 0),
            Pinned::Long => Followed::said(LONG, 0, 0),
            Pinned::Full => Followed::said(FULL, 0, 0),
            Pinned::First => Followed::pinning(shown),
            Pinned::NoLinks => Followed::said(NO_LINKS, 0, 0),
            Pinned::Link(links, fault) => Followed::of_link(links, fault),
            Pinned::WrongEnd => Followed::said(WRONG_END, 0, 0),
            Pinned::Moved(count) => Followed {
                keep: KEEP_LINKS,
                ..Followed::keeping_nothing(judged, count)
            },
        }
    }

    /// What is told of a pin that is none, or of links.
    pub(crate) fn of_fault(fault: PinFault) -> Followed
        ensures { result ≡ fault_following fault }
    {
        match fault {
            PinFault::Form => Followed::said(BAD_PIN, 1, 0),
            PinFault::Name => Followed::said(BAD_PIN, 2, 0),
            PinFault::Chain => Followed::said(BAD_PIN, 3, 0),
            PinFault::Links => Followed::said(BAD_LINKS, 0, 0),
            PinFault::Memory => Followed::said(NO_MEMORY, 0, 0),
        }
    }
}
