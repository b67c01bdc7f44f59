//! Logs and authorities of where they begin and their rings, without memory.

ghost use Rattle.std.specs.Prelude.{◌≡◌, ◌≤◌, ◌<◌, ◌+◌, ◌++◌, ◌∷◌, [], length, vec_len, vec_capacity, Some, drop, slice_get};
ghost use Rattle.std.specs.Option.{option_map};
ghost use Rattle.ar_nodes.specs.log_core.Keyed as log;
ghost use Rattle.ar_nodes.specs.authority_core.Keyed as authority;
ghost use Rattle.ar_founding.specs.Founded.{EachHasRing, IsAuthorityRing, IsLogRing, authorities_of, logs_of};
ghost use Rattle.ar_founding.specs.Founding.{authority_node, log_node};
ghost use Rattle.ar_nodes.specs.Parties.{check_told, checks_told};

use ar_nodes::{
    Authority, AuthorityCore, AuthorityState, HonestAuthority, HonestLog, Log, LogCore,
};
use key_roll::KeyRing;
use owner_check::OwnerCheck;
use std::alloc::Global;
use std::collections::VecDeque;

/// Takes the first of these items.
fn take_first<T>(items: &mut VecDeque<T>) -> T
    requires { 0 < length items.old.items }
    ensures { items.old.items ≡ result ∷ items.new.items }
{
    match items.pop_front() {
        Some(item) => item,
        None => unreachable!(),
    }
}

/// Takes the first of these items, where there is one.
#[tactic(auto, using(crate::proofs::FirstParties::first_taken))]
fn take_next<T>(items: &mut VecDeque<T>) -> Option<T>
    ensures first { result ≡ slice_get items.old.items 0 }
    ensures rest { items.new.items ≡ drop 1 items.old.items }
{
    items.pop_front()
}

/// Puts an item behind others, for which there is room.
fn put<T: Drop>(items: &mut Vec<T>, item: T)
    requires { vec_len items.old < vec_capacity items.old }
    ensures items { items.new.items ≡ items.old.items ++ item ∷ [] }
    ensures len { vec_len items.new ≡ vec_len items.old + 1 }
    ensures room { vec_capacity items.new ≡ vec_capacity items.old }
{
    items.push_reserved(item);
}

/// A log that stands here, with its ring.
fn log_node(alloc: Global, core: LogCore, ring: KeyRing) -> HonestLog
    requires { log.IsRingOf core ring.keys }
    ensures { result ≡ log_node core ring }
{
    HonestLog {
        log: Log::of(core, ring),
        taken: Vec::new(alloc),
    }
}

/// An authority that stands here, with its ring and its check.
fn authority_node<C: OwnerCheck>(
    state: AuthorityState,
    ring: KeyRing,
    check: Option<C>,
) -> HonestAuthority<C>
    requires own { authority.IsRingOf state ring.keys }
    ensures { result ≡ authority_node state ring (option_map (check_told C.told C.answers) check) }
{
    HonestAuthority {
        authority: Authority::of(AuthorityCore { state, check }, ring),
    }
}

/// Puts each log with its ring behind others, for which there is room.
pub fn join_logs(
    alloc: Global,
    logs: &mut Vec<Option<HonestLog>>,
    cores: Vec<LogCore>,
    rings: Vec<KeyRing>,
)
    requires own { EachHasRing IsLogRing cores.items rings.items }
    requires room { vec_len logs.old + length cores.items ≤ vec_capacity logs.old }
    ensures { logs.new.items ≡ logs.old.items ++ logs_of cores.items rings.items }
{
    let count = cores.len();
    let mut core_queue = VecDeque::from_vec(cores);
    let mut ring_queue = VecDeque::from_vec(rings);
    for _ in 0..count {
        join_log(alloc, logs, &mut core_queue, &mut ring_queue);
    }
}

/// The same of the first of them.
fn join_log(
    alloc: Global,
    logs: &mut Vec<Option<HonestLog>>,
    cores: &mut VecDeque<LogCore>,
    rings: &mut VecDeque<KeyRing>,
)
    requires some { 0 < length cores.old.items }
    requires own { EachHasRing IsLogRing cores.old.items rings.old.items }
    requires room { vec_len logs.old + length cores.old.items ≤ vec_capacity logs.old }
    ensures same { logs.new.items ++ logs_of cores.new.items rings.new.items
        ≡ logs.old.items ++ logs_of cores.old.items rings.old.items }
    ensures left { length cores.new.items + 1 ≡ length cores.old.items }
    ensures own { EachHasRing IsLogRing cores.new.items rings.new.items }
    ensures room { vec_len logs.new + length cores.new.items ≤ vec_capacity logs.new }
{
    let core = take_first(cores);
    let ring = take_first(rings);
    put(logs, Some(log_node(alloc, core, ring)));
}

/// Puts each authority with its ring and its check, while there are any, behind others, for which there is room.
pub fn join_authorities<C: OwnerCheck>(
    authorities: &mut Vec<Option<HonestAuthority<C>>>,
    states: Vec<AuthorityState>,
    rings: Vec<KeyRing>,
    checks: Vec<C>,
)
    requires own { EachHasRing IsAuthorityRing states.items rings.items }
    requires room { vec_len authorities.old + length states.items ≤ vec_capacity authorities.old }
    ensures { authorities.new.items
        ≡ authorities.old.items ++ authorities_of states.items rings.items
        (checks_told C.told C.answers checks.items) }
{
    let count = states.len();
    let mut state_queue = VecDeque::from_vec(states);
    let mut ring_queue = VecDeque::from_vec(rings);
    let mut check_queue = VecDeque::from_vec(checks);
    for _ in 0..count {
        join_authority(
            authorities,
            &mut state_queue,
            &mut ring_queue,
            &mut check_queue,
        );
    }
}

/// The same of the first of them.
fn join_authority<C: OwnerCheck>(
    authorities: &mut Vec<Option<HonestAuthority<C>>>,
    states: &mut VecDeque<AuthorityState>,
    rings: &mut VecDeque<KeyRing>,
    checks: &mut VecDeque<C>,
)
    requires some { 0 < length states.old.items }
    requires own { EachHasRing IsAuthorityRing states.old.items rings.old.items }
    requires room { vec_len authorities.old + length states.old.items
        ≤ vec_capacity authorities.old }
    ensures same { authorities.new.items
        ++ authorities_of states.new.items rings.new.items
        (checks_told C.told C.answers checks.new.items)
        ≡ authorities.old.items
        ++ authorities_of states.old.items rings.old.items
        (checks_told C.told C.answers checks.old.items) }
    ensures left { length states.new.items + 1 ≡ length states.old.items }
    ensures own { EachHasRing IsAuthorityRing states.new.items rings.new.items }
    ensures room { vec_len authorities.new + length states.new.items
        ≤ vec_capacity authorities.new }
{
    let state = take_first(states);
    let ring = take_first(rings);
    let check = take_next(checks);
    put(authorities, Some(authority_node(state, ring, check)));
}
