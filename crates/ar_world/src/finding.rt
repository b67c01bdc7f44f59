//! What the words of a line name.

ghost use Rattle.std.specs.Prelude.{◌≡◌, ◌&&◌, nat_lt};
ghost use Rattle.std.specs.List.{list_all};
ghost use Rattle.ar_world.specs.Finding.{existing, is_there, known_asks, room};

use crate::world::World;
use ar_nodes::WorldFault;
use ar_nodes::finding::has_owner;
use ar_statement::Role;
use owner_check::OwnerCheck;
use owner_core::Owner;

/// Whether all numbers are below this one, and have two bytes.
fn all_below(numbers: &[u64], count: usize) -> bool
    ensures { result ≡ list_all (λ number. nat_lt number 65536 && nat_lt number count) numbers.now }
{
    numbers
        .iter()
        .all(|number| *number < 65536 && *number < count as u64)
}

impl<C: OwnerCheck> World<C> {
    /// Whether there is such a party; each client is there.
    pub(crate) fn is_there(&self, role: Role, number: u16) -> bool
        ensures { result ≡ is_there self.now role number }
    {
        match role {
            Role::LogServer => (number as usize) < self.logs.len(),
            Role::Authority => (number as usize) < self.authorities.len(),
            Role::Owner => has_owner(&self.owners, number),
            Role::Client => true,
        }
    }

    /// Refuses a word that names such a party where there is none.
    pub(crate) fn need_there(&self, word: usize, role: Role, number: u16) -> Result<(), WorldFault>
        ensures { result ≡ existing self.now word role number }
    {
        if !self.is_there(role, number) {
            return Err(WorldFault::Absent(word));
        }
        Ok(())
    }

    /// Refuses a word that names others than authorities that are there.
    pub(crate) fn known_asks(&self, word: usize, asks: &[u64]) -> Result<(), WorldFault>
        ensures { result ≡ known_asks self.now word asks.now }
    {
        if !all_below(asks, self.authorities.len()) {
            return Err(WorldFault::Absent(word));
        }
        Ok(())
    }

    /// Refuses a line that may send where the pool is full.
    #[tactic(auto, unfolding(crate::specs::Finding::has_room))]
    pub(crate) fn need_room(&self) -> Result<(), WorldFault>
        ensures { result ≡ room self.now }
    {
        if !self.pool.has_room() {
            return Err(WorldFault::Limit);
        }
        Ok(())
    }
}
