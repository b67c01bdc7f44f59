ghost use Rattle.std.specs.Prelude.{◌≡◌};
ghost use Rattle.ar_statement.specs.Claims.{has_party};

/// What a party does. Its number in texts is 1 to 4, in this order.
#[derive(Clone, Copy, Debug, PartialEq, Eq)]
pub enum Role {
    /// A server that keeps the table of certificates.
    LogServer = 1,
    /// An authority that endorses certificates and confirms what logs say.
    Authority = 2,
    /// The owner of domains.
    Owner = 3,
    /// A client that asks for confirmations.
    Client = 4,
}

/// One of the parties of its role. Numbers count from 0.
#[derive(Clone, Copy, Debug, PartialEq, Eq)]
pub struct Party {
    /// In texts one byte, in front of the number.
    pub role: Role,
    /// Its place among the parties of its role, from 0; 0 for an owner as signer, since its key names it.
    pub number: u16,
}

impl Role {
    ghost use Rattle.std.specs.Prelude.{◌≡◌};
    ghost use Rattle.ar_statement.specs.Claims.{party, role_number};
    ghost use Rattle.ar_statement.specs.Ranges.{is_witness};
    ghost use Rattle.ar_statement.specs.Texts.{role_with};

    /// The role with this number in texts.
    pub(crate) fn with_number(number: u8) -> Option<Role>
        ensures { result ≡ role_with number }
    {
        match number {
            1 => Some(Role::LogServer),
            2 => Some(Role::Authority),
            3 => Some(Role::Owner),
            4 => Some(Role::Client),
            _ => None,
        }
    }

    /// The number of the role in texts.
    pub fn number(self) -> u8
        ensures { result ≡ role_number self }
    {
        self as u8
    }

    /// The party of this role with the number.
    pub fn party(self, number: u16) -> Party
        ensures { result ≡ party self number }
    {
        Party { role: self, number }
    }

    /// Whether parties of this role confirm, and have keys of several generations: logs and authorities.
    pub fn is_witness(self) -> bool
        ensures { result ≡ is_witness self }
    {
        match self {
            Role::LogServer | Role::Authority => true,
            Role::Owner | Role::Client => false,
        }
    }
}

impl Party {
    ghost use Rattle.std.specs.Prelude.{◌≡◌};
    ghost use Rattle.ar_statement.specs.Claims.{is_party};

    /// Whether both are one party.
    pub fn is_same(&self, other: &Party) -> bool
        ensures { result ≡ is_party self.now other.now }
    {
        self.role.number() == other.role.number() && self.number == other.number
    }
}

/// Whether the party is one of these.
pub fn has_party(parties: &[Party], who: Party) -> bool
    ensures { result ≡ has_party parties.now who }
{
    parties.iter().any(|party| who.is_same(party))
}
