//! Laws on the definitions of `specs/`: each is the contract of a function with an empty body.
ghost use Rattle.std.specs.Prelude.{◌≡◌, ℕ, Contains};
ghost use Rattle.ar_cert.specs.Certificate.{Certificate};
ghost use Rattle.ar_message.specs.Confirmation.{absent, present};
ghost use Rattle.client_rule.specs.Meaning.{IsTimely};
ghost use Rattle.hash_tree.specs.declared.bottom.Bottom.{Bottom};
ghost use Rattle.ar_safety.specs.Agreed.{HasNewest, HasNone};
ghost use Rattle.ar_safety.specs.Succession.{AreInOrder, accepted_by};
ghost use Rattle.ar_safety.specs.Theorem.{AreHonest, Few, NoCollision, NoForgery, Safe};
ghost use Rattle.table_map.specs.Digests.{directory_text};
ghost use Rattle.map_safety.specs.Example.{fresh_map};
ghost use Rattle.map_safety.specs.World.{IsTable, MapAcceptance, MapRecords, NoMapCollision, confirmed_by, records_in};

/// Whatever happens in other tables of a map: if at most two of the logs and authorities of one table are dishonest, no
/// signature of its honest ones was forged, and no two of the strings collide that are hashed for this table and on the paths
/// of its directory, then the theorem holds of it, where what was judged is what clients of the map accepted of its names.
pub fn each_table_of_a_map_is_safe()
    ensures { (r : MapRecords) (t : ℕ) → IsTable r t → NoMapCollision r t → Few (records_in r t)
        → NoForgery (records_in r t) → NoCollision (records_in r t) → Safe (records_in r t) }
{}

/// What a client of a map accepts, it accepts by the directory of the name's table: with its quorum, its numbers of logs and
/// authorities, and the texts of their first keys. So the records of the table, with what clients of the map accepted, are
/// those of honest parties in the theorem's sense.
pub fn a_client_of_a_map_goes_by_the_names_directory()
    ensures directory { (r : MapRecords) (t : ℕ) (a : MapAcceptance) → IsTable r t → NoMapCollision r t
        → Contains (r.accepted t) a
        → directory_text a.asked.keys ≡ directory_text (r.directories t) }
    ensures honest { (r : MapRecords) (t : ℕ) → IsTable r t → NoMapCollision r t
        → AreHonest (records_in r t) }
{}

/// What a client of a map accepts is the newest certificate of the name's one chain in the table that is agreed, in time, or
/// the name has none there, where its table is safe; and it never goes back.
pub fn what_a_client_of_a_map_accepts_is_newest()
    ensures newest { (r : MapRecords) (t : ℕ) (a : MapAcceptance) (certificate : Certificate)
        → Safe (records_in r t) → Contains (r.accepted t) a
        → a.confirmation.body ≡ present certificate
        → HasNewest (records_in r t) a.asked.name a.confirmation.about.epoch
        a.confirmation.about.root certificate
        × IsTimely a.asked a.confirmation.about.epoch a.confirmation.body }
    ensures absence { (r : MapRecords) (t : ℕ) (a : MapAcceptance) (bottom : Bottom)
        → Safe (records_in r t) → Contains (r.accepted t) a
        → a.confirmation.body ≡ absent bottom
        → HasNone (records_in r t) a.asked.name a.confirmation.about.epoch
        a.confirmation.about.root
        × IsTimely a.asked a.confirmation.about.epoch a.confirmation.body }
    ensures order { (r : MapRecords) (t : ℕ) (one other : MapAcceptance)
        → Safe (records_in r t) → Contains (r.accepted t) one → Contains (r.accepted t) other
        → one.asked.name ≡ other.asked.name
        → AreInOrder (accepted_by (confirmed_by one)) (accepted_by (confirmed_by other)) }
{}

/// The premises can be met: by a map of one table, whose parties have done nothing yet.
pub fn a_fresh_table_meets_the_premises()
    ensures table { IsTable fresh_map 0 × NoMapCollision fresh_map 0 }
    ensures premises { Few (records_in fresh_map 0) × NoForgery (records_in fresh_map 0)
        × NoCollision (records_in fresh_map 0) }
{}
