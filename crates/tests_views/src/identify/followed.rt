//! A configuration and the view that follows its edits.
use change_lists::{ActiveView, ChangedSet, Plan};
use nvt_config::{Config, Edit, EditFault};
use std::alloc::{AllocError, Global};
use testkit_edits::growths::edit_of;
use testkit_edits::{A, B, H0, H1, H2, Line, config_over};

// More disks than a test has namespaces at a time.
const UNITS: &[u64] = &[8; 12];

/// Two hosts, and a stranger, which is never added.
pub const HOSTS: [&[u8]; 3] = [H0, H1, H2];

/// A configuration and its view.
#[derive(Drop)]
pub struct Followed {
    pub config: Config,
    pub view: ActiveView,
    /// Of each host whether the latest edit that was planned changes a namespace of A that it sees, and one of B.
    pub changed: [[bool; 2]; 3],
}

pub fn start(alloc: Global) -> Result<Followed, AllocError> {
    let config = config_over(alloc, UNITS)?;
    let view = ActiveView::new(alloc, &config)?;
    Ok(Followed {
        config,
        view,
        changed: [[false; 2]; 3],
    })
}

fn changed(plan: &Plan, host: &[u8]) -> [bool; 2] {
    let mut set = ChangedSet::new();
    [
        set.note_planned(plan, host, A),
        set.note_planned(plan, host, B),
    ]
}

/// Makes an edit; whether the configuration accepts it.
pub fn follow(alloc: Global, followed: &mut Followed, line: Line<'_>) -> Result<bool, AllocError> {
    match edit_of(alloc, line)? {
        Some(edit) => follow_edit(followed, &edit),
        None => Ok(false),
    }
}

fn follow_edit(followed: &mut Followed, edit: &Edit) -> Result<bool, AllocError> {
    if followed.config.check(edit).is_err() {
        return Ok(false);
    }
    let plan = followed.view.prepare(&followed.config, edit)?;
    followed.changed = [changed(&plan, H0), changed(&plan, H1), changed(&plan, H2)];
    match followed.config.apply(edit) {
        Ok(()) => followed.view.commit(plan),
        Err(EditFault::Memory) => return Err(AllocError),
        Err(_) => return Ok(false),
    }
    Ok(true)
}
