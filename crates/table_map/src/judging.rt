ghost use Rattle.std.specs.Prelude.{◌≡◌};
ghost use Rattle.table_map.specs.Judging.{judgement_in};

use crate::{TableMap, table_of};
use client_rule::{Judgement, judge};
use party_keys::Directory;

/// What a client answers to a confirmation under a map.
#[derive(Debug, Drop)]
pub enum MapJudgement<'a> {
    /// The directory is that of the name's table, and this is what the client's rule answers under it.
    Judged(Judgement<'a>),
    /// The directory was shown as that of another table than the name's.
    OtherTable,
    /// The path does not lead from the directory to the root of the map.
    OtherRoot,
}

/// Judges the bytes of a confirmation of a name, in epoch `now`, for a client of a map that accepts what is at most `age`
/// epochs old. The directory is shown as that of the table with this number, by this path; it may have learnt keys. It takes
/// no memory.
#[tactic(auto, unfolding(crate::specs::Judging::judgement_in))]
pub fn judge_in<'a>(
    map: &TableMap,
    table: u32,
    directory: &Directory,
    path: &[u8],
    name: &[u8],
    bytes: &'a [u8],
    now: u64,
    age: u64,
) -> MapJudgement<'a>
    ensures { result ≡ judgement_in map.now table path.now (record {
      keys = directory.now;
      name = name.now;
      epoch = now;
      age = age;
    }) bytes.now }
{
    if table != table_of(map.bits(), name) {
        return MapJudgement::OtherTable;
    }
    if !map.is_placed(table, directory, path) {
        return MapJudgement::OtherRoot;
    }
    MapJudgement::Judged(judge(directory, name, bytes, now, age))
}
