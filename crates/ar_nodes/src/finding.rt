//! Who is named by a number: of logs and authorities the honest one, and the places of owners.

ghost use Rattle.std.specs.Prelude.{◌≡◌, is_some, find, position};
ghost use Rattle.std.specs.Option.{option_map};
ghost use Rattle.ar_nodes.specs.Finding.{honest_in, is_owner};

use owner_core::Owner;

/// Of logs or authorities, the honest one with this number.
pub fn honest<X>(parties: &[Option<X>], number: u16) -> Option<&X>
    ensures { option_map (λ node. node.now) result ≡ honest_in parties.now number }
{
    parties.get(number as usize)?.as_ref()
}

/// The place of the owner with this number.
pub fn owner_place(owners: &[Owner], number: u16) -> Option<usize>
    ensures { result ≡ position (is_owner number) owners.now }
{
    owners.iter().position(|owner| owner.number() == number)
}

/// Whether an owner has this number.
#[tactic(auto, using(crate::proofs::Found::owner_known))]
pub fn has_owner(owners: &[Owner], number: u16) -> bool
    ensures { result ≡ is_some (find (is_owner number) owners.now) }
{
    owner_place(owners, number).is_some()
}
