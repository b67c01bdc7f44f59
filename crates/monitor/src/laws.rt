//! What a report shows, over the definitions alone: each law is the contract of a function without a body.

ghost use Rattle.std.specs.Prelude.{◌≡◌, ℕ, List, Contains};
ghost use Rattle.ar_council.specs.Council.{Council};
ghost use Rattle.ar_statement.specs.Claims.{authority_party, log_party};
ghost use Rattle.ar_statement.specs.declared.party.Party.{Party};
ghost use Rattle.authority_core.specs.Honest.{IsOfHonestAuthority};
ghost use Rattle.authority_core.specs.Record.{AuthorityRecord};
ghost use Rattle.epoch_log.specs.Honest.{IsOfHonestLog};
ghost use Rattle.epoch_log.specs.Record.{LogRecord};
ghost use Rattle.monitor.specs.Items.{AscendByLine};
ghost use Rattle.monitor.specs.Reports.{Names, report_of};
ghost use Rattle.monitor.specs.Standing.{Contradicts, IsNoLater, IsPair, StandIn};
ghost use Rattle.monitor.specs.declared.item.Item.{Item};
ghost use Rattle.monitor.specs.declared.report.Conflict.{Conflict};
ghost use Rattle.party_keys.specs.Directory.{Directory};

/// Who is named contradicts himself in two valid items.
pub fn who_is_named_contradicts_himself()
    ensures { (keys : Directory) (items : List Item) (who : Party)
        → Names (report_of keys items) who → Contradicts keys items who }
{}

/// Whoever contradicts himself in two valid items is named.
pub fn who_contradicts_himself_is_named()
    ensures { (keys : Directory) (items : List Item) (who : Party)
        → AscendByLine items → Contradicts keys items who → Names (report_of keys items) who }
{}

/// What is told of a party is a pair of its valid items that contradict each other, in the order of their lines, by this rule.
pub fn what_is_told_is_a_pair()
    ensures { (keys : Directory) (items : List Item) (c : Conflict)
        → AscendByLine items → Contains (report_of keys items).conflicts c → IsPair keys items c }
{}

/// Of all such pairs of a party it is the one with the least second line, and of those with it the one with the least first.
pub fn the_least_pair_is_told()
    ensures { (keys : Directory) (items : List Item) (c d : Conflict)
        → AscendByLine items → Contains (report_of keys items).conflicts c
        → IsPair keys items d → d.party ≡ c.party → IsNoLater c d }
{}

/// Of each party one pair is told.
pub fn one_pair_is_told_of_a_party()
    ensures { (keys : Directory) (items : List Item) (c d : Conflict)
        → AscendByLine items → Contains (report_of keys items).conflicts c
        → Contains (report_of keys items).conflicts d → c.party ≡ d.party → c ≡ d }
{}

/// No honest log is named whose valid items stand in its book at the generations and leaves of their signatures.
pub fn an_honest_log_is_not_named()
    ensures { (keys : Directory) (items : List Item) (council : Council) (me : ℕ) (r : LogRecord)
        → IsOfHonestLog council me r → StandIn r.signed keys items (log_party me)
        → ¬ Names (report_of keys items) (log_party me) }
{}

/// No honest authority is named, in the same way.
pub fn an_honest_authority_is_not_named()
    ensures { (keys : Directory) (items : List Item) (council : Council) (me : ℕ)
        (r : AuthorityRecord) → IsOfHonestAuthority council me r
        → StandIn r.signed keys items (authority_party me)
        → ¬ Names (report_of keys items) (authority_party me) }
{}
