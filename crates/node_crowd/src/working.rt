ghost use Rattle.std.specs.Prelude.{◌≡◌, All, IfOk, Ok, map};
ghost use Rattle.std.specs.List.{AllByRecursion, AllZip};
ghost use Rattle.node_crowd.specs.Working.{HasWorked, IsReady};

use crate::booth::Booth;
use crate::errand::Errand;
use crate::finish::Finish;
use crate::gate::Gate;
use crate::row::Row;
use crate::serving::serve;
use node_core::Core;
use std::alloc::{AllocError, Global};
use std::sync::Wait;
use std::thread::{Threads, map_vec};

/// What a worker has before it begins: a row at which nothing was done, and its errands.
#[derive(Drop)]
pub(crate) struct Task<C: Core, T> {
    pub(crate) row: Row<C, T>,
    pub(crate) errands: Vec<Errand<C::Input>>,
}

/// A worker brings its errands, and gives its row back.
fn work<C: Core, F: Finish<C, T>, T: Drop, R: Wait, G: Gate>(
    rt: &R,
    alloc: Global,
    gate: &G,
    booths: &[Booth<C, F>],
    task: Task<C, T>,
) -> Result<Row<C, T>, AllocError>
    requires fits { AllByRecursion (λ booth. F.fits booth.finish booth.node.first) booths.now }
    requires ready { IsReady (λ booth.
        booth.node) booths.now task.row.stalls.items task.errands.items }
    ensures { IfOk result (λ row.
        HasWorked (λ booth. booth.node) C.next (λ booth. F.finished booth.finish) booths.now
        task.row.stalls.items row.stalls.items task.errands.items) }
{
    let Task { mut row, errands } = task;
    serve(rt, alloc, gate, booths, row.stalls.as_mut_slice(), errands)?;
    Ok(row)
}

/// The rows that came back, where no worker ran out of memory.
fn each_row<C: Core, T: Drop>(
    alloc: Global,
    results: Vec<Result<Row<C, T>, AllocError>>,
) -> Result<Vec<Row<C, T>>, AllocError>
    ensures { IfOk result (λ rows. results.items ≡ map Ok rows.items) }
{
    let mut rows = Vec::new(alloc);
    for result in results {
        rows.push(result?)?;
    }
    Ok(rows)
}

/// All workers bring their errands, each from a thread of its own where one can be made, and give their rows back. The nodes are lent as
/// a vector, since a slice of them cannot be lent to threads where the core is a type parameter.
pub(crate) fn work_all<C: Core, F: Finish<C, T>, T: Send + Drop, R: Threads + Wait + Sync, G: Gate>(
    rt: &R,
    alloc: Global,
    gate: &G,
    nodes: &Vec<Booth<C, F>>,
    tasks: Vec<Task<C, T>>,
) -> Result<Vec<Row<C, T>>, AllocError>
    requires fits { AllByRecursion (λ booth.
        F.fits booth.finish booth.node.first) nodes.now.items }
    requires ready { All (λ task. IsReady (λ booth. booth.node) nodes.now.items
        task.row.stalls.items task.errands.items) tasks.items }
    ensures { IfOk result (λ rows. AllZip (λ task row. HasWorked (λ booth. booth.node) C.next
        (λ booth. F.finished booth.finish) nodes.now.items task.row.stalls.items
        row.stalls.items task.errands.items) tasks.items rows.items) }
{
    let results = map_vec(
        rt,
        tasks,
        &|task: Task<C, T>| -> Result<Row<C, T>, AllocError>
            requires { AllByRecursion (λ booth.
                F.fits booth.finish booth.node.first) nodes.now.items
                × IsReady (λ booth. booth.node) nodes.now.items task.row.stalls.items
                task.errands.items }
            ensures { IfOk result (λ row. HasWorked (λ booth. booth.node) C.next
                (λ booth. F.finished booth.finish) nodes.entry.now.items
                task.row.stalls.items row.stalls.items task.errands.items) }
        { work(rt, alloc, gate, nodes.as_slice(), task) },
    )?;
    let rows = each_row(alloc, results)?;
    Ok(rows)
}
