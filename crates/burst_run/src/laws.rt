//! Laws on bursts, over the definitions alone: each is the contract of a function with an empty body.
ghost use Rattle.std.specs.Prelude.{◌≡◌, ◌<◌, ℕ, List};
ghost use Rattle.ar_statement.specs.declared.party.Party.{Party};
ghost use Rattle.ar_world.specs.Settling.{with_parties};
ghost use Rattle.ar_world.specs.State.{World};
ghost use Rattle.node_crowd.specs.Along.{Abreast};
ghost use Rattle.station.specs.Station.{StationState};
ghost use Rattle.burst_run.specs.Bursts.{AreOrders, Sequence, burst_made};
ghost use Rattle.burst_run.specs.Laying.{Away, AreAway, VisitParts, all_back_in, visits_settled};
ghost use Rattle.burst_run.specs.Stations.{Deliveries};
ghost use Rattle.burst_run.specs.Visiting.{IsVisit, orders_of, stand_now};

/// Each burst has some orders, for any number of workers: as those in which each party takes its deliveries as they stand in the burst.
#[tactic(auto, using(crate::proofs::SomeOrders::some_orders))]
pub fn each_burst_has_orders()
    ensures { (workers : ℕ) (deliveries : Deliveries) → 0 < workers
        → (orders : List Sequence) × AreOrders workers deliveries orders }
{}

/// Parties of a world stood apart from it, each took some deliveries, and all came back: where what they replied is settled, party by
/// party, the world is what it is where the parties take the same deliveries in it, one after the other, in the same orders.
#[tactic(auto, using(crate::proofs::Visits::world_visited))]
pub fn visits_are_a_burst()
    ensures { (w : World) (workers : ℕ) (deliveries : Deliveries) (stations : List Party)
        (all : List Away) (now : List StationState) (visits : List VisitParts)
        → AreAway (record { logs = w.logs; authorities = w.authorities }) stations all
        → Abreast (IsVisit w workers deliveries) all now visits
        → burst_made deliveries w (orders_of visits) ≡ visits_settled (with_parties w
        (all_back_in (record { logs = w.logs; authorities = w.authorities })
        (stand_now all now)).logs
        (all_back_in (record { logs = w.logs; authorities = w.authorities })
        (stand_now all now)).authorities) visits }
{}
