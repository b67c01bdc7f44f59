ghost use Rattle.std.specs.Prelude.{◌≡◌, IfOk, length};
ghost use Rattle.monitor.specs.Items.{AscendByLine, sworn_of};
ghost use Rattle.monitor.specs.Reports.{report_of};

use crate::item::Item;
use crate::naming::name_all;
use crate::report::Report;
use crate::sworn::{Sworn, sort};
use ar_base::Items;
use ar_statement::Role;
use party_keys::Directory;
use std::alloc::{AllocError, Global};

/// How many items are evidence.
fn count(sworn: &[Sworn], _directory: &Directory, items: &[Item]) -> u32
    requires ascend { AscendByLine items.now }
    requires sworn { sworn.now ≡ sworn_of _directory.now items.now }
    ensures { result ≡ length sworn.now }
{
    if items.is_empty() {
        return 0;
    }
    // The lines ascend, so that the last is no less than how many items there are.
    let _most = items[items.len() - 1].line;
    sworn.len() as u32
}

/// Who contradicts himself in these items, whose lines count from 1 and ascend, under the keys of the directory.
/// The only error is want of memory.
#[tactic(auto, unfolding(crate::specs::Reports::report_of))]
pub fn audit(alloc: Global, directory: &Directory, items: &[Item]) -> Result<Report, AllocError>
    requires ascend { AscendByLine items.now }
    ensures { IfOk result (λ report. report ≡ report_of directory.now items.now) }
{
    let sorted = sort(alloc, directory, items)?;
    let mut conflicts = Vec::new(alloc);
    name_all(
        Role::LogServer,
        directory.logs() as u16,
        &sorted.sworn,
        &mut conflicts,
    )?;
    name_all(
        Role::Authority,
        directory.authorities() as u16,
        &sorted.sworn,
        &mut conflicts,
    )?;
    let valid = count(&sorted.sworn, directory, items);
    Ok(Report {
        ignored: Items::from_vec(sorted.ignored),
        conflicts: Items::from_vec(conflicts),
        valid,
    })
}
