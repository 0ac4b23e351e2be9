//! A session of a process that ends at once, shared by callers on threads of their own. The first report of tick is accepted, and
//! each further one rejected.

ghost use Rattle.std.specs.Prelude.{[], ◌≡◌, IfSome};

use crate::callers::{Answers, Caller, Task, run_all};
use crate::ends::put_receipts;
use crate::held::{Gate, HeldDisk};
use disk::Disk;
use memory_disks::MemoryDisk;
use rows::{Output, first_word, number_of};
use shared::{Entry, Naming, Opened, Recorder, Session, SessionOn, Share, Shared, Sharing};
use std::alloc::{AllocError, Global};
use std::marker::Brand;
use std::sync::Wait;
use std::sync::ledger::Blank;
use std::thread::Threads;
use std::time::Clock;

/// What is done on threads, and how many of the shares are handed in at the end.
#[derive(Drop)]
struct Plan {
    tasks: Vec<Task, Global>,
    shares: usize,
}

impl Plan {
    /// What the row `SHARES TASK TASK ..` asks for.
    fn read(alloc: Global, row: &str) -> Result<Plan, AllocError> {
        let (shares, words) = first_word(row);
        let mut tasks = Vec::new(alloc);
        for word in words.split(' ') {
            tasks.push(match word {
                "look" => Task::Look,
                times => Task::Report(number_of(times) as usize),
            })?;
        }
        Ok(Plan {
            tasks,
            shares: number_of(shares) as usize,
        })
    }
}

/// A place for each task.
fn callers_of<J: Recorder, N: Sharing<J>, T: Wait>(
    rt: &T,
    alloc: Global,
    shared: &Shared<J, Global, N>,
    tasks: &[Task],
) -> Result<Vec<Caller<N>, Global>, AllocError> {
    let mut callers = Vec::new(alloc);
    for task in tasks {
        match shared.seat(rt, alloc) {
            Ok(seat) => callers.push(Caller {
                share: seat.end(),
                task: *task,
            })?,
            Err(_) => return Err(AllocError),
        }
    }
    Ok(callers)
}

/// Gives each task its place, arms the gate, and runs them all.
fn done_at<J: Recorder + Send, N: Sharing<J> + Send + Sync, T: Threads + Wait + Clock + Sync>(
    rt: &T,
    alloc: Global,
    gate: &Gate,
    shared: &Shared<J, Global, N>,
    tasks: &[Task],
) -> Result<Vec<(Share<N, Global>, Answers), Global>, AllocError> {
    let callers = callers_of(rt, alloc, shared, tasks)?;
    gate.arm();
    run_all(rt, alloc, gate, shared, callers)
}

/// Parts what was done into so many of the shares, and all answers.
fn part<N: Naming>(
    done: Vec<(Share<N, Global>, Answers), Global>,
    kept: usize,
    shares: &mut Vec<Share<N, Global>, Global>,
    all: &mut Vec<Answers, Global>,
) -> Result<(), AllocError> {
    for (share, answers) in done {
        if shares.len() < kept {
            shares.push(share)?;
        }
        all.push(answers)?;
    }
    Ok(())
}

/// Runs all tasks. Their answers, and so many of their shares, are appended to the lists.
fn run_plan<J: Recorder + Send, N: Sharing<J> + Send + Sync, T: Threads + Wait + Clock + Sync>(
    rt: &T,
    alloc: Global,
    gate: &Gate,
    shared: &Shared<J, Global, N>,
    plan: &Plan,
    shares: &mut Vec<Share<N, Global>, Global>,
    all: &mut Vec<Answers, Global>,
) -> Result<(), AllocError> {
    let done = done_at(rt, alloc, gate, shared, &plan.tasks)?;
    part(done, plan.shares, shares, all)
}

/// Appends how many reports were answered with a receipt, judged and rejected, whether the history explains all answers, and how many
/// reports the status had that was looked at.
fn put_end<J: Recorder>(
    count: Option<u64>,
    session: &SessionOn<J, Global>,
    all: &[Answers],
    out: &mut Output,
) {
    let summary = session.summary();
    put_receipts(count, out);
    out.put(",");
    out.put_word(&summary.judged);
    out.put(" judged,");
    out.put_word(&summary.rejected);
    out.put(" rejected, ");
    out.put(if are_explained(all, session.history()) {
        "explained"
    } else {
        "not explained"
    });
    for answers in all {
        if let Some(seen) = answers.seen {
            out.put(", a look at");
            out.put_word(&seen);
        }
    }
}

/// Whether the history has the answers of all callers.
fn are_explained(all: &[Answers], history: &[Entry]) -> bool {
    for answers in all {
        if !answers.are_in(history) {
            return false;
        }
    }
    true
}

/// Appends what comes of the tasks at the seats of this shared session.
fn put_shared<
    J: Recorder + Drop + Send,
    N: Sharing<J> + Send + Sync,
    T: Threads + Wait + Clock + Sync,
>(rt: &T, alloc: Global, shared: Shared<J, Global, N>, gate: &Gate, plan: &Plan, out: &mut Output)
    requires { N.all ≡ N.parts }
{
    let (mut shares, mut all) = (Vec::new(alloc), Vec::new(alloc));
    let done = run_plan(rt, alloc, gate, &shared, plan, &mut shares, &mut all);
    out.is_cut = out.is_cut || done.is_err();
    let (session, count) = shared.finish(rt, shares);
    put_end(count, &session, &all, out);
    drop(session);
    drop(all);
}

/// Appends what comes of the tasks at the seats of this session. The caller picks the names.
fn share<J: Recorder + Drop + Send, N: Sharing<J> + Send + Sync, T: Threads + Wait + Clock + Sync>(
    rt: &T,
    alloc: Global,
    session: SessionOn<J, Global>,
    opened: Opened,
    blank: Blank,
    gate: &Gate,
    plan: &Plan,
    out: &mut Output,
)
    requires story { (session.spec ≡ N.spec) × (session.history ≡ N.opening) × (session.offered ≡ []) }
    requires before { IfSome N.before (λ before. before ≡ session) }
    requires book { opened.seen.book ≡ N.book }
    requires ledger { (blank.name ≡ N.name) × (blank.parts ≡ N.parts) × (N.all ≡ N.parts) × (N.all ≡ 65) }
{
    match Shared::<J, Global, N>::new(rt, alloc, session, opened, blank, 4) {
        Ok(shared) => put_shared(rt, alloc, shared, gate, plan, out),
        Err(_) => out.is_cut = true,
    }
}

/// Appends what comes of the tasks at the seats of a new session on this disk.
fn on_disk<D: Disk + Drop + Send, T: Threads + Wait + Clock + Sync>(
    rt: &T,
    alloc: Global,
    disk: D,
    gate: &Gate,
    plan: &Plan,
    out: &mut Output,
) {
    match Session::create(alloc, disk, b"P = SKIP\n", b"P") {
        Ok(session) => {
            share::<_, Brand, _>(
                rt,
                alloc,
                session,
                Opened::new(),
                Blank::new(65),
                gate,
                plan,
                out,
            );
        }
        Err((error, _)) => out.put_shown(&error),
    }
}

/// Appends what comes of the plan on a disk in memory; where it is `held`, with a gate before each sync.
fn put_plan<T: Threads + Wait + Clock + Sync>(
    rt: &T,
    alloc: Global,
    kind: &str,
    plan: &Plan,
    out: &mut Output,
) {
    let gate = Gate::new();
    let disk = MemoryDisk::new(Vec::new(alloc));
    if kind == "held" {
        on_disk(rt, alloc, HeldDisk::new(disk, &gate, rt), &gate, plan, out);
    } else {
        on_disk(rt, alloc, disk, &gate, plan, out);
    }
}

/// Plays a row of these kinds. Whether it is one is answered.
pub(crate) fn play<T: Threads + Wait + Clock + Sync>(
    rt: &T,
    alloc: Global,
    row: &str,
    out: &mut Output,
) -> bool {
    let (kind, row) = first_word(row);
    if !matches!(kind, "threads" | "held") {
        return false;
    }
    match Plan::read(alloc, row) {
        Ok(plan) => put_plan(rt, alloc, kind, &plan, out),
        Err(_) => out.is_cut = true,
    }
    true
}
