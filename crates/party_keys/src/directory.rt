ghost use Rattle.std.specs.Prelude.{◌≡◌, ◌+◌, ◌*◌, ◌<◌, ◌≤◌, length, slice_get, Ok, alloc_error};
ghost use Rattle.std.specs.Option.{option_copied};
ghost use Rattle.ar_base.specs.Gives.{GivesUnless};
ghost use Rattle.party_keys.specs.Directory.{IsDirectory, directory_of, is_party_count, is_quorum, keys_of};

use crate::fault::DirectoryFault;
use crate::role_keys::RoleKeys;
use ar_statement::{Party, Role};
use lms_tree::LmsPublic;
use std::alloc::{AllocError, Global};
use std::marker::Model;

/// The keys of all logs and authorities, of each from generation 0 on, and how many logs make a quorum.
///
/// There are 3 to 16 logs and 3 to 16 authorities, numbered from 0. A quorum q of N logs keeps q <= N and
/// 2q > N + 2, so any two quorums share at least three logs.
#[derive(Debug, Drop)]
pub struct Directory {
    pub(crate) logs: RoleKeys,
    pub(crate) authorities: RoleKeys,
    quorum: usize,
}

// Clauses see the keys and the quorum.
impl Model for Directory {
    ghost use Rattle.party_keys.specs.Directory.{Directory, IsDirectory};

    ghost Value = { Directory };

    ghost view = { λ d. record { logs = d.logs; authorities = d.authorities; quorum = d.quorum } };

    ghost invariant = { λ d. IsDirectory (record {
      logs = d.logs;
      authorities = d.authorities;
      quorum = d.quorum;
    }) };
}

/// Whether a directory may have so many logs, or so many authorities: 3 to 16.
pub fn is_party_count(n: usize) -> bool
    ensures { result ≡ is_party_count n }
{
    3 <= n && n <= 16
}

/// Whether `q` of so many logs may be a quorum: q of N logs with 2q > N + 2 and q <= N, so that any two
/// quorums share at least three logs.
pub fn is_quorum(q: usize, logs: usize) -> bool
    ensures { result ≡ is_quorum q logs }
{
    // 2q > N + 2, where neither side can be too large.
    q <= logs && q > logs / 2 + 1
}

impl Directory {
    /// The directory of these keys as those of generation 0, with quorums of `q` logs; or the first bound
    /// that is not kept. It takes no memory.
    pub fn new(
        logs: Vec<LmsPublic>,
        authorities: Vec<LmsPublic>,
        q: usize,
    ) -> Result<Directory, DirectoryFault>
        ensures { result ≡ directory_of logs.items authorities.items q }
    {
        if !is_party_count(logs.len()) {
            return Err(DirectoryFault::Logs);
        }
        if !is_party_count(authorities.len()) {
            return Err(DirectoryFault::Authorities);
        }
        if !is_quorum(q, logs.len()) {
            return Err(DirectoryFault::Quorum);
        }
        Ok(Directory {
            logs: RoleKeys::new(logs),
            authorities: RoleKeys::new(authorities),
            quorum: q,
        })
    }

    /// The same directory once more. The only error is want of memory.
    pub fn copy(&self, alloc: Global) -> Result<Directory, AllocError>
        ensures { GivesUnless alloc_error (λ copy. copy) result (Ok self.now) }
    {
        Ok(Directory {
            logs: self.logs.copy(alloc)?,
            authorities: self.authorities.copy(alloc)?,
            quorum: self.quorum,
        })
    }

    /// How many logs there are.
    pub fn logs(&self) -> usize
        ensures value { result ≡ length self.now.logs }
        ensures least { 3 ≤ result }
        ensures most { result ≤ 16 }
    {
        self.logs.len()
    }

    /// How many authorities there are.
    pub fn authorities(&self) -> usize
        ensures value { result ≡ length self.now.authorities }
        ensures least { 3 ≤ result }
        ensures most { result ≤ 16 }
    {
        self.authorities.len()
    }

    /// How many logs make a quorum.
    pub fn quorum(&self) -> usize
        ensures value { result ≡ self.now.quorum }
        ensures least { length self.now.logs + 2 < 2 * result }
        ensures most { result ≤ length self.now.logs }
    {
        self.quorum
    }

    /// Tells a proof the bounds that each directory keeps. It does nothing.
    pub fn told(&self)
        ensures { IsDirectory self.now }
    {
        let _logs = &self.logs;
    }

    /// The key of a generation of a log or an authority, of which the first is 0; `None` where it is not known, or the party is
    /// not in the directory.
    pub fn key(&self, party: Party, generation: usize) -> Option<&LmsPublic>
        ensures { option_copied result ≡ slice_get (keys_of self.now party) generation }
    {
        let number = party.number as usize;
        match party.role {
            Role::LogServer => self.logs.get(number, generation),
            Role::Authority => self.authorities.get(number, generation),
            Role::Owner | Role::Client => None,
        }
    }
}
