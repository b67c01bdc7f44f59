//! What the setup of a world says.

use lm_ots::OtsType;
use lms_tree::LmsType;
use std::marker::Model;

/// The secret of which all keys are made, the types of the keys of logs and authorities, how many logs there are, and how
/// many of them are a quorum.
#[derive(Debug, Drop)]
pub struct Setup {
    /// The secret of which all keys are made.
    pub secret: [u8; 32],
    /// The type of the trees of the keys of logs and authorities.
    pub(crate) lms: LmsType,
    /// The type of their one-time keys.
    pub(crate) ots: OtsType,
    /// How many logs there are.
    pub(crate) logs: u16,
    /// How many of them are a quorum.
    pub(crate) quorum: u16,
}

// Clauses see each of these. Keys of the types are made.
impl Model for Setup {
    ghost use Rattle.std.specs.Prelude.{◌≡◌, Some};
    ghost use Rattle.lms_tree.specs.Key.{type_to_make};
    ghost use Rattle.lms_tree.specs.LmsKind as lms_kind;
    ghost use Rattle.ar_founding.specs.FirstKeys.{Setup as Parts};

    ghost Value = { Parts };

    ghost view = { λ s. record {
      secret = s.secret;
      lms = s.lms;
      ots = s.ots;
      logs = s.logs;
      quorum = s.quorum;
    } };

    ghost invariant = { λ s. type_to_make (lms_kind.number_of s.lms) ≡ Some s.lms };
}

impl Setup {
    ghost use Rattle.std.specs.Prelude.{◌≡◌, Some};
    ghost use Rattle.lms_tree.specs.Key.{type_to_make};
    ghost use Rattle.lms_tree.specs.LmsKind as lms_kind;
    ghost use Rattle.ar_founding.specs.FirstKeys.{plain_setup};

    /// What holds where no line of the setup comes.
    pub fn plain() -> Setup
        ensures { result ≡ plain_setup }
    {
        Setup {
            secret: [0; 32],
            lms: LmsType::H5,
            ots: OtsType::W4,
            logs: 0,
            quorum: 0,
        }
    }

    /// All keys are made of this secret.
    pub fn tell_secret(&mut self, secret: [u8; 32])
        ensures { self.new ≡ record self.old { secret = secret } }
    {
        self.secret = secret;
    }

    /// The keys of logs and authorities have these types, of which keys are made.
    pub fn tell_types(&mut self, lms: LmsType, ots: OtsType)
        requires { type_to_make (lms_kind.number_of lms) ≡ Some lms }
        ensures { self.new ≡ record self.old { lms = lms; ots = ots } }
    {
        self.lms = lms;
        self.ots = ots;
    }

    /// There are so many logs, and so many of them are a quorum.
    pub fn tell_logs(&mut self, logs: u16, quorum: u16)
        ensures { self.new ≡ record self.old { logs = logs; quorum = quorum } }
    {
        self.logs = logs;
        self.quorum = quorum;
    }
}
