//! The codes that are printed of refusals.

ghost use Rattle.std.specs.Prelude.{◌≡◌};
ghost use Rattle.report_text.specs.declared.happening.CodeValue.TheVariants as shown;
ghost use Rattle.report_text.specs.declared.happening.Values.TheVariants.{Nothing, One, Two};
ghost use Rattle.ar_nodes.specs.Codes.{authority_code, change_shown, code, log_code, owner_code, root_shown};
ghost use Rattle.log_core.below.log_sending.specs.declared.refusal.LogRefusal.TheVariants.{BadChange, CouldBeDecided};

use ar_statement::{Party, Role};
use authority_core::AuthorityRefusal;
use domain_table::ChangeRefusal;
use log_core::LogRefusal;
use owner_core::OwnerRefusal;
use report_text::{Code, CodeValue, Values};

/// The code of a log's refusal; want of memory has the number 0.
pub fn log_code(refusal: LogRefusal) -> Code
    ensures { result ≡ log_code refusal }
{
    let role = Role::LogServer;
    match refusal {
        LogRefusal::Form(place) => with_one(role, 1, CodeValue::Number(place as u64)),
        LogRefusal::NotForLog => plain(role, 2),
        LogRefusal::Unknown(party) => with_one(role, 3, CodeValue::Party(party)),
        LogRefusal::BadSignature(party, condition) => bad_signature(role, party, condition),
        LogRefusal::WrongEpoch(epoch) => with_one(role, 5, CodeValue::Number(epoch)),
        LogRefusal::NotCoordinator(turn) => with_one(role, 6, CodeValue::Number(turn as u64)),
        LogRefusal::AlreadyVoted(root) => with_one(role, 7, CodeValue::Digest(root)),
        LogRefusal::AlreadyStated => plain(role, 8),
        LogRefusal::WrongBase(base) => with_one(role, 9, CodeValue::Digest(base)),
        LogRefusal::BadChange(index, refusal) => bad_change(index, refusal),
        LogRefusal::WrongRoot(root) => with_one(role, 11, CodeValue::Digest(root)),
        LogRefusal::FewVotes(count) => with_one(role, 12, CodeValue::Number(count as u64)),
        LogRefusal::QueueFull => plain(role, 13),
        LogRefusal::Spent => plain(role, 14),
        LogRefusal::CouldBeDecided(root, count) => could_be_decided(root, count),
        LogRefusal::OtherRoll(party, generation) => other_roll(role, 16, party, generation),
        LogRefusal::LastGeneration => plain(role, 17),
        LogRefusal::Memory => plain(role, 0),
    }
}

/// The code of an authority's refusal; want of memory has the number 0.
pub fn authority_code(refusal: AuthorityRefusal) -> Code
    ensures { result ≡ authority_code refusal }
{
    let role = Role::Authority;
    match refusal {
        AuthorityRefusal::Form(place) => with_one(role, 1, CodeValue::Number(place as u64)),
        AuthorityRefusal::NotForAuthority => plain(role, 2),
        AuthorityRefusal::Unknown(party) => with_one(role, 3, CodeValue::Party(party)),
        AuthorityRefusal::BadSignature(party, condition) => bad_signature(role, party, condition),
        AuthorityRefusal::FewVotes(count) => with_one(role, 5, CodeValue::Number(count as u64)),
        AuthorityRefusal::BadPath => plain(role, 6),
        AuthorityRefusal::SameAuthority => plain(role, 7),
        AuthorityRefusal::CheckFault => plain(role, 8),
        AuthorityRefusal::NotOwner => plain(role, 9),
        AuthorityRefusal::Spent => plain(role, 10),
        AuthorityRefusal::OtherRoll(party, generation) => other_roll(role, 11, party, generation),
        AuthorityRefusal::LastGeneration => plain(role, 12),
        AuthorityRefusal::Memory => plain(role, 0),
    }
}

/// The code of an owner's refusal; want of memory has the number 0.
pub fn owner_code(refusal: OwnerRefusal) -> Code
    ensures { result ≡ owner_code refusal }
{
    let role = Role::Owner;
    match refusal {
        OwnerRefusal::Form(place) => with_one(role, 1, CodeValue::Number(place as u64)),
        OwnerRefusal::NotForOwner => plain(role, 2),
        OwnerRefusal::Unknown(party) => with_one(role, 3, CodeValue::Party(party)),
        OwnerRefusal::BadSignature(party, condition) => bad_signature(role, party, condition),
        OwnerRefusal::NoDraft => plain(role, 5),
        OwnerRefusal::Full => plain(role, 6),
        OwnerRefusal::Spent => plain(role, 7),
        OwnerRefusal::OtherRoll(party, generation) => other_roll(role, 8, party, generation),
        OwnerRefusal::Memory => plain(role, 0),
    }
}

// ---- codes with their values

/// A code without values.
fn plain(role: Role, number: u8) -> Code
    ensures { result ≡ code role number Nothing }
{
    Code {
        role,
        number,
        values: Values::Nothing,
    }
}

fn with_one(role: Role, number: u8, value: CodeValue) -> Code
    ensures { result ≡ code role number (One value) }
{
    Code {
        role,
        number,
        values: Values::One(value),
    }
}

fn with_two(role: Role, number: u8, first: CodeValue, second: CodeValue) -> Code
    ensures { result ≡ code role number (Two first second) }
{
    Code {
        role,
        number,
        values: Values::Two(first, second),
    }
}

/// A bad signature has the number 4 at each role.
fn bad_signature(role: Role, party: Party, condition: u8) -> Code
    ensures { result ≡ code role 4 (Two (shown.Party party) (shown.Number condition)) }
{
    with_two(
        role,
        4,
        CodeValue::Party(party),
        CodeValue::Number(condition as u64),
    )
}

fn other_roll(role: Role, number: u8, party: Party, generation: u32) -> Code
    ensures { result ≡ code role number (Two (shown.Party party) (shown.Number generation)) }
{
    with_two(
        role,
        number,
        CodeValue::Party(party),
        CodeValue::Number(generation as u64),
    )
}

fn bad_change(index: usize, refusal: ChangeRefusal) -> Code
    ensures { result ≡ log_code (BadChange index refusal) }
{
    with_two(
        Role::LogServer,
        10,
        CodeValue::Number(index as u64),
        change_shown(refusal),
    )
}

fn could_be_decided(root: Option<[u8; 32]>, count: usize) -> Code
    ensures { result ≡ log_code (CouldBeDecided root count) }
{
    with_two(
        Role::LogServer,
        15,
        root_shown(root),
        CodeValue::Number(count as u64),
    )
}

// ---- values

fn change_shown(refusal: ChangeRefusal) -> CodeValue
    ensures { result ≡ change_shown refusal }
{
    match refusal {
        ChangeRefusal::Policy(clause) => CodeValue::Number(clause.number() as u64),
        ChangeRefusal::Full => CodeValue::Full,
    }
}

fn root_shown(root: Option<[u8; 32]>) -> CodeValue
    ensures { result ≡ root_shown root }
{
    match root {
        Some(root) => CodeValue::Digest(root),
        None => CodeValue::NoRoot,
    }
}
