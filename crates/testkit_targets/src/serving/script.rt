//! Scripts of what ports hand out, with bytes that are lent.
use nvt_ports::PortStep;
use std::alloc::{AllocError, Global};

/// A step of a script.
#[derive(Clone, Copy)]
pub enum Step<'a> {
    Open { slot: usize, port: u16 },
    Bytes { slot: usize, bytes: &'a [u8] },
    End { slot: usize },
    Line { text: &'a [u8] },
    Tick { ms: u64 },
}

/// Adds a step to a script.
pub fn add<'a>(steps: &mut Vec<Step<'a>>, step: Step<'a>) -> Result<(), AllocError> {
    match steps.push(step) {
        Ok(()) => Ok(()),
        Err(_) => Err(AllocError),
    }
}

fn port_step(alloc: Global, step: &Step<'_>) -> Result<PortStep, AllocError> {
    Ok(match step {
        Step::Open { slot, port } => PortStep::Open {
            slot: *slot,
            port: *port,
        },
        Step::Bytes { slot, bytes } => PortStep::Bytes {
            slot: *slot,
            bytes: Vec::from_slice(alloc, bytes)?,
        },
        Step::End { slot } => PortStep::End { slot: *slot },
        Step::Line { text } => PortStep::Line {
            bytes: Vec::from_slice(alloc, text)?,
        },
        Step::Tick { ms } => PortStep::Tick { ms: *ms },
    })
}

/// The steps, with bytes of their own.
pub(crate) fn port_steps(alloc: Global, steps: &[Step<'_>]) -> Result<Vec<PortStep>, AllocError> {
    let mut script = Vec::with_capacity(alloc, steps.len())?;
    push_steps(alloc, &mut script, steps)?;
    Ok(script)
}

fn push_steps(
    alloc: Global,
    script: &mut Vec<PortStep>,
    steps: &[Step<'_>],
) -> Result<(), AllocError> {
    for step in steps {
        script.push(port_step(alloc, step)?)?;
    }
    Ok(())
}
