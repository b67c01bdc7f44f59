//! Laws on stations, over the definitions alone: each is the contract of a function with an empty body.
ghost use Rattle.std.specs.Prelude.{◌≡◌, ◌++◌, ◌∷◌, [], ℕ, List, Option, unwrap_or};
ghost use Rattle.ar_base.specs.Bytes.{AreBytes};
ghost use Rattle.ar_statement.specs.Claims.{authority_party, log_party};
ghost use Rattle.lms_tree.specs.KeyParts.{KeyParts};
ghost use Rattle.node_core.specs.History.{IsLegal, reply_after, state_after};
ghost use Rattle.owner_check.specs.declared.answer.Outcome.{Outcome};
ghost use Rattle.owner_check.specs.declared.answer.Outcome.TheVariants.{No};
ghost use Rattle.report_text.specs.declared.happening.What.TheVariants.{Take};
ghost use Rattle.ar_nodes.specs.Acting.{Reply, acted, authority_delivered, bytes_of, log_delivered, noted_in};
ghost use Rattle.ar_nodes.specs.Parties.{AuthorityNode, LogNode};
ghost use Rattle.ar_nodes.specs.Pool.{Pooled, numbered};
ghost use Rattle.station.specs.Kept.{CanSign, IsStation};
ghost use Rattle.station.specs.Station.{IsNoted, StationState, a_log, an_authority, replied_at};
ghost use Rattle.station.specs.Worlds.{AuthorityBecomes, LogBecomes};
ghost use Rattle.station.specs.declared.delivery.Delivery.{Delivery};

/// Whatever is brought to a station, its keys stay those of its party, and can sign what it replies: so it is after a whole
/// history too, and whoever brings a message can sign the reply with the ring that the party had at first.
pub fn what_a_station_replies_can_be_signed()
    ensures stays { (s : StationState) (keys : List KeyParts) (d : Delivery) (note : Option Outcome)
        → IsStation s keys → IsNoted s d note
        → IsStation (replied_at s d note).1 keys }
    ensures signs { (s : StationState) (keys : List KeyParts) (d : Delivery) (note : Option Outcome)
        → IsStation s keys → IsNoted s d note
        → CanSign keys (replied_at s d note).0 }
    ensures after { (s : StationState) (keys : List KeyParts)
        (calls : List (Delivery × Option Outcome)) → IsStation s keys
        → IsLegal replied_at IsNoted s calls → IsStation (state_after replied_at s calls) keys }
    ensures answered { (s : StationState) (keys : List KeyParts)
        (before : List (Delivery × Option Outcome)) (d : Delivery) (note : Option Outcome)
        → IsStation s keys → IsLegal replied_at IsNoted s (before ++ (d, note) ∷ [])
        → CanSign keys (reply_after replied_at s before d note) }
{}

/// A station is the party of a world: what a delivery of a message makes there of a log or an authority, of the pool and of
/// what is printed is by the station's step on the bytes of the message, with the party's keys.
pub fn a_station_is_the_party_of_a_world()
    ensures log { (pool : List Pooled) (message number : ℕ) (node : LogNode) (d : Delivery)
        (note : Option Outcome) → d.bytes ≡ bytes_of (numbered pool message)
        → (after : LogNode × Reply)
        × (log_delivered pool message number node
        ≡ acted (noted_in pool message (log_party number)) (log_party number)
        (Take message) after)
        × LogBecomes node message (replied_at (a_log node.core) d note) after }
    ensures authority { (pool : List Pooled) (message number : ℕ) (node : AuthorityNode)
        (d : Delivery) (note : Option Outcome)
        → d.bytes ≡ bytes_of (numbered pool message)
        → (after : AuthorityNode × Reply)
        × (authority_delivered (unwrap_or note No) pool message number node
        ≡ acted (noted_in pool message (authority_party number)) (authority_party number)
        (Take message) after)
        × AuthorityBecomes node (replied_at (an_authority node.state node.check) d note) after }
    // Whatever a check says that tells nothing of itself, the delivery is that of a note which may come there.
    ensures noted { (says : Outcome) (pool : List Pooled) (message number : ℕ)
        (node : AuthorityNode) (d : Delivery) → AreBytes d.bytes
        → d.bytes ≡ bytes_of (numbered pool message)
        → (note : Option Outcome) × IsNoted (an_authority node.state node.check) d note
        × (authority_delivered says pool message number node
        ≡ authority_delivered (unwrap_or note No) pool message number node) }
{}
