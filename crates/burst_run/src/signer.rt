use ar_message::Unsigned;
use ar_nodes::{LogEvent, Reply};
use ar_statement::Party;
use key_roll::KeyRing;
use node_crowd::Finish;
use owner_check::OwnerCheck;
use report_text::Code;
use station::{Station, signed};

/// What stays of a log or an authority while its station stands under a lock: its keys, which sign what the station replies.
#[derive(Drop)]
pub(crate) struct Signer {
    /// Who it is.
    pub(crate) party: Party,
    /// Its keys.
    pub(crate) ring: KeyRing,
    /// What a log did before; nothing of an authority.
    pub(crate) taken: Vec<LogEvent>,
}

impl<C: OwnerCheck + Send> Finish<Station<C>, Reply> for Signer {
    ghost use Rattle.station.specs.Kept.{IsStation, signed_reply};

    ghost fits = { λ signer first. IsStation first signer.ring.keys };

    ghost finished = { λ signer reply. signed_reply signer.ring.keys reply };

    #[tactic(auto, using(crate::proofs::Signing::can_sign))]
    fn finish(&self, reply: Result<Unsigned, Code>) -> Reply {
        signed(&self.ring, reply)
    }
}
