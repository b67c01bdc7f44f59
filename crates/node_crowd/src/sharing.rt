ghost use Rattle.std.specs.Prelude.{◌≡◌, ◌<◌, [], IfOk, OnOk, length, map};
ghost use Rattle.std.specs.List.{AllByRecursion, range_with_len};
ghost use Rattle.node_crowd.specs.Bringing.{own_of};

use crate::errand::Errand;
use crate::row::Row;
use crate::working::Task;
use node_core::Core;
use std::alloc::{AllocError, Global};

/// An empty list for each worker.
fn empty_lists<I: Drop>(alloc: Global, workers: usize) -> Result<Vec<Vec<Errand<I>>>, AllocError>
    ensures many { IfOk result (λ lists. length lists.items ≡ workers) }
    ensures empty { IfOk result (λ lists. AllByRecursion (λ list. list.items ≡ []) lists.items) }
{
    let mut lists = Vec::new(alloc);
    for _ in 0..workers {
        let list = Vec::new(alloc);
        lists.push(list)?;
    }
    Ok(lists)
}

/// Gives each errand to the list of its worker, behind those that it has.
fn give_all<I: Drop>(
    lists: &mut [Vec<Errand<I>>],
    errands: Vec<Errand<I>>,
) -> Result<(), AllocError>
    requires some { 0 < length lists.old }
    requires empty { AllByRecursion (λ list. list.items ≡ []) lists.old }
    ensures { OnOk result (map (λ list. list.items) lists.new
        ≡ map (λ worker. own_of (length lists.old) worker errands.items)
        (range_with_len 0 (length lists.old))) }
{
    let workers = lists.len() as u64;
    for errand in errands {
        let worker = (errand.number % workers) as usize;
        lists[worker].push(errand)?;
    }
    Ok(())
}

/// The errands of each worker, in their order.
pub(crate) fn lists_of<I: Drop>(
    alloc: Global,
    errands: Vec<Errand<I>>,
    workers: usize,
) -> Result<Vec<Vec<Errand<I>>>, AllocError>
    requires some { 0 < workers }
    ensures { IfOk result (λ lists. map (λ list. list.items) lists.items
        ≡ map (λ worker. own_of workers worker errands.items) (range_with_len 0 workers)) }
{
    let mut lists = empty_lists(alloc, workers)?;
    give_all(lists.as_mut_slice(), errands)?;
    Ok(lists)
}

/// Each row with the errands of its worker.
pub(crate) fn tasks_of<C: Core, T: Drop>(
    alloc: Global,
    rows: Vec<Row<C, T>>,
    lists: Vec<Vec<Errand<C::Input>>>,
) -> Result<Vec<Task<C, T>>, AllocError>
    requires many { length lists.items ≡ length rows.items }
    ensures rows { IfOk result (λ tasks. map (λ task. task.row.stalls.items) tasks.items ≡ map
        (λ row. row.stalls.items) rows.items) }
    ensures lists { IfOk result (λ tasks.
        map (λ task. task.errands.items) tasks.items ≡ map (λ list. list.items) lists.items) }
{
    let mut tasks = Vec::new(alloc);
    let mut rest = lists.into_iter();
    for row in rows {
        let Some(errands) = rest.next() else {
            unreachable!()
        };
        tasks.push(Task { row, errands })?;
    }
    Ok(tasks)
}
