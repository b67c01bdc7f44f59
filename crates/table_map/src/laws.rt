//! Laws on the definitions of `specs/`: each is the contract of a function with an empty body.
ghost use Rattle.std.specs.Prelude.{◌≡◌, ◌≢◌, ◌↔◌, ℕ, ◌+◌, ◌*◌, ◌<◌, ◌≤◌, ◌^◌, ◌++◌, List, IsTrue};
ghost use Rattle.ar_base.specs.Apart.{none_collide};
ghost use Rattle.ar_names.specs.Names.{name_digest_of};
ghost use Rattle.client_rule.specs.Meaning.{learnt};
ghost use Rattle.client_rule.specs.Rule.{Asked, judgement};
ghost use Rattle.client_rule.specs.declared.judgement.Judgement.{Judgement};
ghost use Rattle.hash_tree.specs.Entries.{Agree, bit};
ghost use Rattle.party_keys.specs.Directory.{Directory, IsDirectory};
ghost use Rattle.party_keys.specs.Learning.{Announced, after_all};
ghost use Rattle.table_map.specs.Digests.{AreWide, OneDirectory, directory_digest, directory_text};
ghost use Rattle.table_map.specs.Judging.{judgement_in};
ghost use Rattle.table_map.specs.Maps.{IsPlaced, TableMap, is_placed, placed_strings};
ghost use Rattle.table_map.specs.Recalling.{lessons_under, recalled};
ghost use Rattle.table_map.specs.declared.recalling.Lesson.{Lesson};
ghost use Rattle.table_map.specs.Tables.{table_key, table_of};
ghost use Rattle.table_map.specs.declared.judging.MapJudgement.TheVariants.{Judged, OtherRoot, OtherTable};

/// Each name has one table of 2 ^ bits, and two names have the same one exactly where their keys agree in the first bits. The
/// key of a table agrees with those of its names in these bits.
pub fn a_name_has_one_table()
    ensures range { (bits : ℕ) (name : List ℕ) → table_of bits name < 2 ^ bits }
    ensures same { (bits : ℕ) (one other : List ℕ) → (table_of bits one ≡ table_of bits other)
        ↔ Agree bits (name_digest_of one) (name_digest_of other) }
    ensures key { (bits : ℕ) (name : List ℕ) → bits ≤ 24
        → Agree bits (table_key bits (table_of bits name)) (name_digest_of name) }
{}

/// Under one root a name has one directory, whoever shows it and by whatever path, or two strings collide: two clients that
/// were shown a directory as that of the name's table, under maps with one root, were shown the same quorum, the same numbers
/// of logs and authorities, and the same texts of their first keys. So their maps have the same number of bits too.
pub fn under_one_root_a_name_has_one_directory()
    ensures { (one other : TableMap) (name : List ℕ) (keys others : Directory) (path way : List ℕ)
        → one.bits ≤ 24 → other.bits ≤ 24 → one.root ≡ other.root
        → IsPlaced one (table_of one.bits name) keys path
        → IsPlaced other (table_of other.bits name) others way
        → IsTrue (none_collide (placed_strings one.bits (table_of one.bits name) keys path
        ++ placed_strings other.bits (table_of other.bits name) others way))
        → (one.bits ≡ other.bits) × (directory_text keys ≡ directory_text others) }
{}

/// Directories with one text are one in what they began with: the size of a quorum, how many logs and authorities there are,
/// and the first key of each. (Keys are as wide as the program has them.)
pub fn a_text_is_of_one_directory()
    ensures { (keys others : Directory) → IsDirectory keys → IsDirectory others
        → AreWide keys.logs → AreWide keys.authorities
        → AreWide others.logs → AreWide others.authorities
        → directory_text keys ≡ directory_text others → OneDirectory keys others }
{}

/// From 2 ^ bits tables to twice as many, the names of table t go to the tables 2t and 2t + 1, by their next bit.
pub fn a_map_that_grows_parts_each_table()
    ensures { (bits : ℕ) (name : List ℕ) → table_of (bits + 1) name
        ≡ 2 * table_of bits name + bit (name_digest_of name) bits }
{}

/// Under a map a client's rule judges exactly where the directory was shown as that of the name's table, and the path shows
/// it so; else the answer says which of the two is not so.
pub fn a_map_judges_by_the_tables_directory()
    ensures judged { (m : TableMap) (table : ℕ) (path : List ℕ) (asked : Asked) (bytes : List ℕ)
        (v : Judgement) → judgement_in m table path asked bytes ≡ Judged v
        → (table ≡ table_of m.bits asked.name) × IsPlaced m table asked.keys path
        × (judgement asked bytes ≡ v) }
    ensures only { (m : TableMap) (table : ℕ) (path : List ℕ) (asked : Asked) (bytes : List ℕ)
        → table ≡ table_of m.bits asked.name → IsPlaced m table asked.keys path
        → judgement_in m table path asked bytes ≡ Judged (judgement asked bytes) }
    ensures other_table { (m : TableMap) (table : ℕ) (path : List ℕ) (asked : Asked)
        (bytes : List ℕ) → judgement_in m table path asked bytes ≡ OtherTable
        → table ≢ table_of m.bits asked.name }
    ensures other_root { (m : TableMap) (table : ℕ) (path : List ℕ) (asked : Asked)
        (bytes : List ℕ) → judgement_in m table path asked bytes ≡ OtherRoot
        → (table ≡ table_of m.bits asked.name) × (IsPlaced m table asked.keys path → ⊥) }
{}

/// What a directory learns moves neither its text nor its digest, so it is that of its table, or of none, as it was: what was
/// learnt under the directory of one table is no key under that of another. Of lessons, a directory recalls those that were
/// learnt under it, and no others.
pub fn what_is_learnt_moves_no_directory()
    ensures text { (keys : Directory) (announced : List Announced) → IsDirectory keys
        → directory_text (after_all keys announced) ≡ directory_text keys }
    ensures digest { (keys : Directory) (announced : List Announced) → IsDirectory keys
        → directory_digest (after_all keys announced) ≡ directory_digest keys }
    ensures placed { (m : TableMap) (table : ℕ) (path : List ℕ) (asked : Asked)
        (announced : List Announced) → IsDirectory asked.keys
        → is_placed m table (learnt asked announced).keys path ≡ is_placed m table asked.keys path }
    ensures recalled { (keys : Directory) (lessons : List Lesson)
        → recalled keys lessons ≡ after_all keys (lessons_under (directory_digest keys) lessons) }
    ensures recalled_digest { (keys : Directory) (lessons : List Lesson) → IsDirectory keys
        → directory_digest (recalled keys lessons) ≡ directory_digest keys }
{}
