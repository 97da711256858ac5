//! Placings by several workers, and their gates.
ghost use Rattle.std.specs.Prelude.{◌≡◌, false, IfErr};
ghost use Rattle.candidate_workers.specs.WorkerFaults.{is_shut};

use crate::gates::{CrowdGate, OnceGate, ShutOne};
use crate::sets::{is_best, lowest_level};
use assignment::Placing;
use candidate_workers::{AssayFault, Crew, OpenGate, assay, share_out};
use ceilings::LockTable;
use example_sets::{A_OVER_B, THREE_TASKS, again, shared_set};
use std::alloc::Global;
use std::process::Abort;
use std::sync::atomic::Ordering;
use std::sync::{Arc, Wait};
use std::test::*;
use std::thread::Threads;
use task_sheet::TaskSet;

// By the open gate no task is shut out.
fn assay_openly<R: Threads + Wait>(
    rt: &R,
    alloc: Global,
    set: Arc<TaskSet>,
    workers: usize,
) -> Result<Placing, AssayFault>
    ensures { IfErr result (λ fault. is_shut fault ≡ false) }
{
    assay(rt, alloc, set, workers, &OpenGate)
}

#[test]
fn too_few_or_too_many_workers(rt: HostRuntime) -> Result<(), Fail> {
    for workers in [0usize, 9] {
        let set = shared_set(rt.alloc(), THREE_TASKS)?;
        let answer = assay_openly(&rt, rt.alloc(), set, workers);
        assert!(rt; matches!(answer, Err(AssayFault::BadWorkers)));
    }
    Ok(())
}

// Whether so many workers find a task shut out where the gate shuts out this one.
fn is_shut_out<R: Threads + Wait>(
    rt: &R,
    alloc: Global,
    document: &str,
    workers: usize,
    shut: usize,
) -> Result<bool, Fail> {
    let set = shared_set(alloc, document)?;
    let answer = again!(
        assay(rt, alloc, set.clone()?, workers, &ShutOne { task: shut }),
        AssayFault::OutOfMemory | AssayFault::ThreadRefused
    );
    match answer {
        Err(AssayFault::GateShut { task }) => Ok(task == shut),
        _ => Ok(false),
    }
}

// A document, and a task of it that a gate shuts out: each, and one that must stand above another at the lowest level.
const SHUT: [(&str, usize); 4] = [
    (THREE_TASKS, 0),
    (THREE_TASKS, 1),
    (THREE_TASKS, 2),
    (A_OVER_B, 0),
];

#[test]
fn one_task_is_shut_out(rt: HostRuntime) -> Result<(), Fail> {
    for workers in [1usize, 2, 8] {
        for (document, task) in &SHUT {
            assert!(rt; is_shut_out(&rt, rt.alloc(), *document, workers, *task)?);
        }
    }
    Ok(())
}

// Whether so many workers find the best order of the three tasks, where this many questions of the lowest level have to be
// at the gate at the same time.
fn is_crowded<R: Threads + Wait>(
    rt: &R,
    alloc: Global,
    workers: usize,
    wanted: u64,
) -> Result<bool, Fail> {
    let set = shared_set(alloc, THREE_TASKS)?;
    let gate = CrowdGate::new(wanted, 3);
    gate.goes_on.store(1, Ordering::SeqCst);
    match assay(rt, alloc, set, workers, &gate) {
        Ok(placing) => Ok(is_best(&placing)),
        Err(_) => Ok(false),
    }
}

// How many workers there are, how many questions have to come, and whether so many do.
const CROWDS: [(usize, u64, bool); 7] = [
    (1, 1, true),
    (2, 2, true),
    (3, 3, true),
    (8, 3, true),
    (1, 2, false),
    (2, 3, false),
    (8, 4, false),
];

#[test]
fn workers_at_the_same_time(rt: HostRuntime) -> Result<(), Fail> {
    for (workers, wanted, want) in &CROWDS {
        let found = is_crowded(&rt, rt.alloc(), *workers, *wanted)?;
        assert!(rt; found == *want);
    }
    Ok(())
}

// How many questions about the three tasks so many workers ask, each once.
fn asked_by<R: Threads + Wait>(rt: &R, alloc: Global, workers: usize) -> Result<u64, Fail> {
    let set = shared_set(alloc, THREE_TASKS)?;
    let gate = OnceGate::new();
    match assay(rt, alloc, set, workers, &gate) {
        Ok(_) => Ok(gate.came.load(Ordering::SeqCst)),
        Err(AssayFault::OutOfMemory | AssayFault::ThreadRefused) => Err("memory")?,
        Err(_) => Ok(0),
    }
}

#[test]
fn each_question_once(rt: HostRuntime) -> Result<(), Fail> {
    for (workers, most) in [(1usize, 5u64), (2, 6), (8, 6)] {
        let asked = asked_by(&rt, rt.alloc(), workers)?;
        assert!(rt; 5 <= asked && asked <= most);
    }
    Ok(())
}

// What came of so many workers at the lowest level of the three tasks.
fn lowest_crew<R: Threads + Wait + Abort>(
    rt: &R,
    alloc: Global,
    workers: usize,
) -> Result<Crew, Fail> {
    assert!(rt; 0 < workers && workers <= 8);
    let level = lowest_level(&shared_set(alloc, THREE_TASKS)?)?;
    let table = again!(LockTable::new(alloc, level.set()))?;
    Ok(again!(share_out(rt, alloc, &OpenGate, &table, &level, workers))?)
}

// The least number of a crew's table, and how many were drawn.
fn drawn_by(crew: &Crew) -> Result<(u64, u64), Fail> {
    let claimed = crew.claimed.as_ref().ok_or("an end")?;
    Ok((claimed.least, claimed.counter))
}

#[test]
fn draws_of_a_crew(rt: HostRuntime) -> Result<(), Fail> {
    for (workers, most) in [(1usize, 3u64), (2, 4), (8, 10)] {
        let crew = lowest_crew(&rt, rt.alloc(), workers)?;
        let (least, drawn) = drawn_by(&crew)?;
        assert!(rt; crew.handed.len() == workers && least == 2);
        assert!(rt; 3 <= drawn && drawn <= most);
    }
    Ok(())
}
