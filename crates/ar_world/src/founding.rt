//! The lines of the setup.

ghost use Rattle.std.specs.Prelude.{◌≡◌, ◌≤◌, ◌<◌, [], ◌∷◌, ◌++◌, length, slice_set, true, vec_len, vec_capacity, Ok, None, Some, MatchOption, option_and_then};
ghost use Rattle.ar_statement.specs.declared.party.Role.TheVariants.{Authority, LogServer};
ghost use Rattle.report_text.specs.declared.happening.Happening.TheVariants.{Dishonest};
ghost use Rattle.ar_nodes.specs.Finding.{honest_in};
ghost use Rattle.ar_founding.specs.Founded.{AreOwn};
ghost use Rattle.ar_world.specs.Founding.{authorities_line, dishonest_line, keys_line, led_to, logs_line, may_come, secret_line, with_parties};
ghost use Rattle.ar_founding.specs.FirstKeys.{first_key};
ghost use Rattle.ar_world.specs.Step.{StepsBy};
ghost use Rattle.ar_world.specs.declared.phase.Phase.TheVariants as phase;

use crate::phase::Phase;
use crate::world::World;
use ar_base::Items;
use ar_founding::{FirstKeys, Founded, found, join_authorities, join_logs, make_first_keys};
use ar_nodes::{Forger, HonestAuthority, HonestLog, WorldFault};
use ar_statement::{Party, Role};
use lm_ots::OtsType;
use lms_tree::{LmsKey, type_to_make};
use owner_check::OwnerCheck;
use party_keys::{is_party_count, is_quorum};
use report_text::Happening;
use std::alloc::Global;
use std::mem;

// ---- the secret, the types of keys and the logs

impl<C: OwnerCheck> World<C> {
    /// All keys are made of this secret. It takes no memory.
    pub(crate) fn secret_line(
        &mut self,
        alloc: Global,
        secret: [u8; 32],
    ) -> Result<Items<Happening>, WorldFault>
        ensures { StepsBy result self.old self.new
            (led_to phase.SecretTold (Ok (secret_line self.old secret))) }
    {
        self.setup.tell_secret(secret);
        self.phase = Phase::SecretTold;
        Ok(Items::new(alloc))
    }

    /// The keys of logs and authorities have the types with these numbers. It takes no memory.
    pub(crate) fn keys_line(
        &mut self,
        alloc: Global,
        lms: u32,
        ots: u32,
    ) -> Result<Items<Happening>, WorldFault>
        ensures { StepsBy result self.old self.new
            (led_to phase.KeysTold (keys_line self.old lms ots)) }
    {
        let Some(lms) = type_to_make(lms) else {
            return Err(WorldFault::Absent(1));
        };
        let Some(ots) = OtsType::of(ots) else {
            return Err(WorldFault::Absent(2));
        };
        self.setup.tell_types(lms, ots);
        self.phase = Phase::KeysTold;
        Ok(Items::new(alloc))
    }

    /// There are so many logs, whose keys are made, and so many of them are a quorum.
    pub(crate) fn logs_line(
        &mut self,
        alloc: Global,
        count: u16,
        quorum: u16,
    ) -> Result<Items<Happening>, WorldFault>
        ensures { StepsBy result self.old self.new
            (led_to phase.LogsMade (logs_line self.old count quorum)) }
    {
        if !is_party_count(count as usize) {
            return Err(WorldFault::Absent(1));
        }
        if !is_quorum(quorum as usize, count as usize) {
            return Err(WorldFault::Absent(2));
        }
        let (keys, said) = make_first_keys(alloc, &self.setup, Role::LogServer, count)?;
        self.setup.tell_logs(count, quorum);
        self.log_keys = keys;
        self.phase = Phase::LogsMade;
        Ok(Items::from_vec(said))
    }
}

// ---- the authorities

impl<C: OwnerCheck> World<C> {
    /// The logs are there, and so many authorities, whose keys are made; these take the checks.
    ///
    /// The last line made the logs' keys.
    #[tactic(auto, using(crate::proofs::FirstParties::line_steps))]
    pub(crate) fn authorities_line(
        &mut self,
        alloc: Global,
        count: u16,
    ) -> Result<Items<Happening>, WorldFault>
        requires { may_come self.old.phase phase.AuthoritiesMade ≡ true }
        ensures { StepsBy result self.old self.new
            (led_to phase.AuthoritiesMade (authorities_line self.old count)) }
    {
        let founded = found(alloc, &self.setup, &self.log_keys, count)?;
        let logs = Vec::with_capacity(alloc, founded.cores.len())?;
        let authorities = Vec::with_capacity(alloc, founded.states.len())?;
        Ok(self.people(alloc, founded, logs, authorities))
    }

    /// The logs and authorities are there, in these lists, which are empty and have room for them.
    fn people(
        &mut self,
        alloc: Global,
        founded: Founded,
        mut logs: Vec<Option<HonestLog>>,
        mut authorities: Vec<Option<HonestAuthority<C>>>,
    ) -> Items<Happening>
        requires phase { self.old.phase ≡ phase.LogsMade }
        requires own { AreOwn self.old.setup founded }
        requires logs { (logs.items ≡ []) × (length founded.cores ≤ vec_capacity logs) }
        requires authorities { (authorities.items ≡ [])
            × (length founded.states ≤ vec_capacity authorities) }
        ensures world { self.new ≡ with_parties self.old founded }
        ensures said { result ≡ founded.said }
    {
        let keys = mem::replace(&mut self.log_keys, FirstKeys::none(alloc));
        let checks = mem::replace(&mut self.checks, Vec::new(alloc));
        let Founded {
            directories,
            cores,
            states,
            rings,
            said,
        } = founded;
        join_logs(alloc, &mut logs, cores, keys.rings);
        join_authorities(&mut authorities, states, rings, checks);
        self.logs = logs;
        self.authorities = authorities;
        self.directories = Some(directories);
        self.phase = Phase::AuthoritiesMade;
        Items::from_vec(said)
    }
}

// ---- who is dishonest

/// Takes the log with a number away: its first key.
fn take_log(logs: &mut Vec<Option<HonestLog>>, number: u16) -> Option<LmsKey>
    ensures key { result ≡ option_and_then (λ node.
        first_key node.keys) (honest_in logs.old.items number) }
    ensures items { MatchOption result (logs.new.items ≡ logs.old.items)
        (λ _. logs.new.items ≡ slice_set logs.old.items number None) }
    ensures len { length logs.new.items ≡ length logs.old.items }
{
    let node = logs.get_mut(number as usize)?.take()?;
    let (_core, ring) = node.log.split();
    Some(ring.into_first())
}

/// Takes the authority with a number away: its first key.
fn take_authority<C: OwnerCheck>(
    authorities: &mut Vec<Option<HonestAuthority<C>>>,
    number: u16,
) -> Option<LmsKey>
    ensures key { result ≡ option_and_then (λ node.
        first_key node.keys) (honest_in authorities.old.items number) }
    ensures items { MatchOption result (authorities.new.items ≡ authorities.old.items)
        (λ _. authorities.new.items ≡ slice_set authorities.old.items number None) }
{
    let node = authorities.get_mut(number as usize)?.take()?;
    let (_core, ring) = node.authority.split();
    Some(ring.into_first())
}

/// A party signs by this key as it likes from here on: this is told. There is room for both.
fn turn(forgers: &mut Vec<Forger>, said: &mut Vec<Happening>, party: Party, key: LmsKey)
    requires forgers { vec_len forgers.old < vec_capacity forgers.old }
    requires said { vec_len said.old < vec_capacity said.old }
    ensures forgers { forgers.new.items ≡ forgers.old.items ++ record {
      party = party;
      key = key;
      next = 0;
    } ∷ [] }
    ensures said { said.new.items ≡ said.old.items ++ Dishonest party ∷ [] }
{
    let forger = Forger {
        party,
        key,
        next: 0,
    };
    forgers.push_reserved(forger);
    said.push_reserved(Happening::Dishonest { party });
}

impl<C: OwnerCheck> World<C> {
    /// The log or authority is dishonest from here on.
    ///
    /// The parties are there, and no line came that is none of the setup.
    pub(crate) fn dishonest_line(
        &mut self,
        alloc: Global,
        party: Party,
    ) -> Result<Items<Happening>, WorldFault>
        requires { may_come self.old.phase phase.DishonestTold ≡ true }
        ensures { StepsBy result self.old self.new
            (led_to phase.DishonestTold (dishonest_line self.old party)) }
    {
        match party.role {
            Role::LogServer => self.turn_log(alloc, party),
            Role::Authority => self.turn_authority(alloc, party),
            Role::Owner | Role::Client => Err(WorldFault::Absent(1)),
        }
    }

    /// The same of a log.
    fn turn_log(&mut self, alloc: Global, party: Party) -> Result<Items<Happening>, WorldFault>
        requires phase { may_come self.old.phase phase.DishonestTold ≡ true }
        requires role { party.role ≡ LogServer }
        ensures { StepsBy result self.old self.new
            (led_to phase.DishonestTold (dishonest_line self.old party)) }
    {
        let mut said = Vec::with_capacity(alloc, 1)?;
        self.forgers.reserve(1)?;
        let Some(key) = take_log(&mut self.logs, party.number) else {
            return Err(WorldFault::Absent(1));
        };
        turn(&mut self.forgers, &mut said, party, key);
        self.phase = Phase::DishonestTold;
        Ok(Items::from_vec(said))
    }

    /// The same of an authority.
    fn turn_authority(
        &mut self,
        alloc: Global,
        party: Party,
    ) -> Result<Items<Happening>, WorldFault>
        requires phase { may_come self.old.phase phase.DishonestTold ≡ true }
        requires role { party.role ≡ Authority }
        ensures { StepsBy result self.old self.new
            (led_to phase.DishonestTold (dishonest_line self.old party)) }
    {
        let mut said = Vec::with_capacity(alloc, 1)?;
        self.forgers.reserve(1)?;
        let Some(key) = take_authority(&mut self.authorities, party.number) else {
            return Err(WorldFault::Absent(1));
        };
        turn(&mut self.forgers, &mut said, party, key);
        self.phase = Phase::DishonestTold;
        Ok(Items::from_vec(said))
    }
}
