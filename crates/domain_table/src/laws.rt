//! Laws on tables, over the definitions alone: each is the contract of a function without a body.
//!
//! The premises `IsEpochOf` and `IsChange` say that each number and each change has a text, as in the
//! program each has by its type.

ghost use Rattle.std.specs.Prelude.{◌≡◌, ◌<◌, ◌^◌, ◌+◌, ◌++◌, ◌∷◌, [], ◌↔◌, List, ℕ, All, Contains, Some, None, true, false, IsSome, IsTrue, option_and_then};
ghost use Rattle.std.specs.FinMap.{get};
ghost use Rattle.std.specs.Option.{option_map};
ghost use Rattle.ar_base.specs.Prefixes.{BeginsWith};
ghost use Rattle.ar_names.specs.Names.{name_digest_of, name_string};
ghost use Rattle.hash_tree.specs.Entries.{HoldsDigests};
ghost use Rattle.hash_tree.specs.Strings.{pending_key, pending_key_string};
ghost use Rattle.ar_base.specs.Apart.{none_collide};
ghost use Rattle.ar_cert.specs.Changes.{Change, IsChange};
ghost use Rattle.ar_cert.specs.Judging.{IsChain};
ghost use Rattle.domain_table.specs.Tables.{Pending, SameTable, Table, chain_of, no_table};
ghost use Rattle.domain_table.specs.Applying.{Epoch, after_epochs, apply, changes_of, is_ripe, ripen, IsRipe};
ghost use Rattle.domain_table.specs.Sound.{AllCameBy, IsEpochOf, IsSound};
ghost use Rattle.domain_table.specs.Waiting.{EachWaited, Leads};
ghost use Rattle.domain_table.specs.Tree.{pending_value, root_of, table_strings, tree_entries, value_of};

/// The table without names is sound, and stays so by ripening and by each list of changes that is applied.
pub fn tables_are_sound()
    ensures none { IsSound no_table }
    ensures ripening { (table : Table) (epoch : ℕ) → IsSound table → IsSound (ripen table epoch) }
    ensures applying { (table after : Table) (epoch : ℕ) (changes : List Change) → IsSound table
        → epoch < 2 ^ 64
        → All IsChange changes → apply table epoch changes ≡ Some after → IsSound after }
{}

/// Whatever is applied to the table without names, each name has a chain: its first change registers the
/// name, and each next one is accepted behind the one before it.
pub fn each_name_has_a_chain()
    ensures { (epochs : List Epoch) (table : Table) → All IsEpochOf epochs
        → after_epochs no_table epochs ≡ Some table
        → (name : List ℕ) (chain : List Change) → get table.chains name ≡ Some chain
        → IsChain chain }
{}

/// A chain changes only at its end: each begins with what it was, whatever ripens and whatever is applied.
pub fn chains_only_grow()
    ensures ripening { (table : Table) (epoch : ℕ) (name : List ℕ) → IsSound table
        → BeginsWith (chain_of (ripen table epoch) name) (chain_of table name) }
    ensures applying { (table after : Table) (epoch : ℕ) (changes : List Change) (name : List ℕ)
        → IsSound table → epoch < 2 ^ 64
        → All IsChange changes → apply table epoch changes ≡ Some after
        → BeginsWith (chain_of after name) (chain_of table name) }
{}

/// Each change of a table that comes from the one without names, in a chain or waiting, was applied in one of
/// its epochs, and stands under the name of its certificate.
pub fn each_change_was_applied()
    ensures { (epochs : List Epoch) (table : Table) → All IsEpochOf epochs
        → after_epochs no_table epochs ≡ Some table
        → AllCameBy (changes_of epochs) table }
{}

/// What is ripe for a name is appended to its chain and waits no longer; for each other name all stays.
pub fn what_is_ripe_is_appended()
    ensures ripe { (table : Table) (epoch : ℕ) (name : List ℕ) (p : Pending) → IsSound table
        → get table.waiting name ≡ Some p
        → is_ripe table epoch name ≡ true
        → (chain_of (ripen table epoch) name ≡ chain_of table name ++ p.change ∷ [])
        × (get (ripen table epoch).waiting name ≡ None) }
    ensures others { (table : Table) (epoch : ℕ) (name : List ℕ) → is_ripe table epoch name ≡ false
        → (get (ripen table epoch).chains name ≡ get table.chains name)
        × (get (ripen table epoch).waiting name ≡ get table.waiting name) }
    ensures when { (table : Table) (epoch : ℕ) (name : List ℕ)
        → IsTrue (is_ripe table epoch name) ↔ IsRipe table epoch name }
{}

/// The tree has under the key of a name the value of its newest certificate, and under the key of what waits
/// for it the value of that; and nothing under the key of a name that has none. The premise is that no two of
/// the strings collide that are hashed for the table and for the key.
pub fn the_tree_has_each_name()
    ensures names { (table : Table) (name : List ℕ)
        → IsTrue (none_collide (name_string name ∷ table_strings table))
        → get (tree_entries table) (name_digest_of name)
        ≡ option_map value_of (get table.chains name) }
    ensures pending { (table : Table) (name : List ℕ)
        → IsTrue (none_collide (pending_key_string name ∷ table_strings table))
        → get (tree_entries table) (pending_key name)
        ≡ option_map pending_value (get table.waiting name) }
    ensures digests { (table : Table) → IsSound table → HoldsDigests (tree_entries table) }
{}

/// Two tables with one root are equal, where none of the strings that are hashed for the two collide: each
/// name has the same certificates back to the first, and the same certificate waits since the same epoch.
pub fn equal_roots_are_of_equal_tables()
    ensures { (one other : Table) → IsSound one → IsSound other
        → IsTrue (none_collide (table_strings one ++ table_strings other))
        → root_of one ≡ root_of other → SameTable one other }
{}

/// Changes are applied one by one as they are together: what an epoch has ripened and what begins to wait in
/// it does not ripen in the epoch again.
pub fn changes_are_applied_one_by_one()
    ensures { (table : Table) (epoch : ℕ) (change : Change) (changes : List Change) → IsSound table
        → apply table epoch (change ∷ changes) ≡ option_and_then (λ t.
        apply t epoch changes) (apply table epoch (change ∷ [])) }
{}

/// Of tables one behind another, the first without names, where each epoch applied changes or left the table as it is: each
/// change of a chain that stands behind another is a full update of that one's certificate, or waited, in the tables behind
/// the epochs, as long as the policy of that certificate says. An epoch that left the table as it is counts for the wait.
pub fn recoveries_have_waited()
    ensures { (behind : ℕ → Table) (last : ℕ) → behind 0 ≡ no_table
        → ((e : ℕ) → e < last
        → Leads (λ epoch table. table ≡ behind epoch) (e + 1) (behind e) (behind (e + 1)))
        → (name : List ℕ) → EachWaited (λ epoch table.
        table ≡ behind epoch) last name (chain_of (behind last) name) }
{}

/// An objection ends the wait: behind the changes of its epoch nothing waits for its name, unless it began to wait in that
/// epoch.
pub fn an_objection_ends_the_wait()
    ensures { (table after : Table) (epoch : ℕ) (changes : List Change) (objection : Change)
        → apply table epoch changes ≡ Some after → Contains changes objection
        → IsSome objection.objection → (p : Pending)
        → get after.waiting objection.cert.name ≡ Some p → p.since ≡ epoch }
{}
