//! What a certificate says.

use std::marker::Model;
use task_sheet::Name;

/// Why a task fails.
#[derive(Drop)]
pub enum CertReason {
    /// Numbers, in microseconds, that show that it doesn't pass.
    Chain(Vec<u64>),
    /// It must stand above the task of this name.
    Over(Name),
}

/// A task that fails, and why.
#[derive(Drop)]
pub struct CertFail {
    pub name: Name,
    pub reason: CertReason,
}

impl Model for CertFail {
    ghost use Rattle.certificate.specs.Body.{Fail};
    ghost use Rattle.certificate.specs.ReasonOf.{reason_seen};

    ghost Value = { Fail };

    ghost view = { λ f. record { name = f.name; reason = reason_seen f.reason } };
}

/// A chain of tasks, by its name, and a number that is no less than its bound.
#[derive(Clone, Copy)]
pub struct CertChain {
    pub name: Name,
    /// In microseconds.
    pub number: u64,
}

/// A level's task, a time that covers its demand, and the tasks that fail there.
#[derive(Drop)]
pub struct CertLevel {
    pub name: Name,
    /// In microseconds.
    pub t: u64,
    pub fails: Vec<CertFail>,
}

impl Model for CertLevel {
    ghost use Rattle.certificate.specs.Body.{CertLevelData};

    ghost Value = { CertLevelData };

    ghost view = { λ l. record { name = l.name; time = l.t; fails = l.fails.items } };
}
