//! The lab.
use crate::children::{end, started};
use crate::commands::target_command;
use crate::control::configure;
use crate::hosts::run_hosts;
use std::io::{self, Eprint};
use std::net::Net;
use std::process::{Child, Processes};
use std::rt::Clock;
use thiserror::Error;

/// Something went otherwise than it has to. What the processes printed says what.
#[derive(Clone, Copy, Debug, PartialEq, Eq, Error)]
#[error("lab")]
pub struct LabFault;

/// What is run, and where it meets.
#[derive(Clone, Copy)]
pub struct LabPlan<'a> {
    /// The program of the target, and that of the hosts.
    pub target: &'a str,
    pub host: &'a str,
    /// The ports of 127.0.0.1 for hosts and for edits.
    pub port: u16,
    pub control: u16,
    /// Each process takes at most so many turns, and the first connection as many tries.
    pub turns: u64,
}

/// Starts the target, and has two hosts write and read beside each other.
pub fn lab<R: Processes + Net + Clock + Eprint + AllocGlobal>(
    rt: &R,
    plan: &LabPlan<'_>,
) -> Result<(), LabFault> {
    let mut target = started(start_target(rt, plan))?;
    let ran = with_target(rt, plan, &mut target);
    end(rt, "target", &mut target)?;
    ran
}

fn start_target<R: Processes + AllocGlobal>(
    rt: &R,
    plan: &LabPlan<'_>,
) -> io::Result<Child<R::Started>> {
    target_command(rt.alloc(), plan)?.spawn(rt)
}

fn with_target<R: Processes + Net + Clock + Eprint + AllocGlobal>(
    rt: &R,
    plan: &LabPlan<'_>,
    target: &mut Child<R::Started>,
) -> Result<(), LabFault> {
    configure(rt, plan, target)?;
    run_hosts(rt, plan)
}
