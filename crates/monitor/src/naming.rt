//! Who contradicts himself, and in which lines.
ghost use Rattle.std.specs.Prelude.{◌≡◌, ◌≤◌, ◌++◌, ◌∷◌, [], OnOk};
ghost use Rattle.std.specs.List.{filter_map};
ghost use Rattle.monitor.specs.Reports.{conflict_of, conflict_with, conflicts_of, first_against};

use crate::report::Conflict;
use crate::sworn::Sworn;
use ar_statement::{Party, Role};
use std::alloc::{AllocError, Global};

/// The first of these that a statement contradicts: its line, and the rule.
#[tactic(auto, unfolding(crate::specs::Reports::first_against))]
fn first_against(before: &[Sworn], second: &Sworn) -> Option<(u32, u8)>
    ensures { result ≡ first_against before.now second.now }
{
    for first in before {
        if let Some(rule) = first.rule_against(second) {
            return Some((first.line, rule));
        }
    }
    None
}

/// That pair, where the statement is the party's.
fn conflict_with(party: Party, before: &[Sworn], second: &Sworn) -> Option<Conflict>
    ensures { result ≡ conflict_with party before.now second.now }
{
    if !second.signer().is_same(&party) {
        return None;
    }
    let (first, rule) = first_against(before, second)?;
    Some(Conflict {
        party,
        first,
        second: second.line,
        rule,
    })
}

/// The pair that is printed of a party: of the first of its statements that contradicts one before it.
fn conflict_of(sworn: &[Sworn], party: Party) -> Option<Conflict>
    ensures { result ≡ conflict_of sworn.now party }
{
    for (place, second) in sworn.iter().enumerate() {
        if let Some(conflict) = conflict_with(party, &sworn[..place], second) {
            return Some(conflict);
        }
    }
    None
}

/// Puts the pair of a party behind the others, where it contradicts itself. The only error is want of memory.
fn name_one(party: Party, sworn: &[Sworn], conflicts: &mut Vec<Conflict>) -> Result<(), AllocError>
    ensures { OnOk result
        (conflicts.new.items
        ≡ conflicts.old.items ++ filter_map (conflict_of sworn.now) (party ∷ [])) }
{
    if let Some(conflict) = conflict_of(sworn, party) {
        conflicts.push(conflict)?;
    }
    Ok(())
}

/// Puts the pair of each party of a role that contradicts itself behind the others, in order of number.
/// The only error is want of memory.
pub(crate) fn name_all(
    role: Role,
    count: u16,
    sworn: &[Sworn],
    conflicts: &mut Vec<Conflict>,
) -> Result<(), AllocError>
    ensures { OnOk result
        (conflicts.new.items ≡ conflicts.old.items ++ conflicts_of role count sworn.now) }
{
    for number in 0..count {
        name_one(role.party(number), sworn, conflicts)?;
    }
    Ok(())
}
