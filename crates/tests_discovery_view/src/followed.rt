//! A configuration and the view that follows its edits.
ghost use Rattle.discovery_view.specs.Ready.{AreOf};

use discovery_view::{DiscoveryView, RecordFormer};
use nvt_config::{Config, Edit};
use std::alloc::{AllocError, Global};
use testkit_edits::{Line, config_over, edit};

pub const UNITS: &[u64] = &[2048, 2048];

/// A configuration and its view.
#[derive(Drop)]
pub struct Followed {
    pub config: Config,
    pub view: DiscoveryView,
    ghost shows: { AreOf config view.slots view.rows },
}

pub fn start(alloc: Global) -> Result<Followed, AllocError> {
    let config = config_over(alloc, UNITS)?;
    let view = DiscoveryView::new(alloc, &config, RecordFormer::new())?;
    Ok(Followed { config, view })
}

/// Makes an edit, unless it is refused; whether it is accepted.
pub fn follow(followed: &mut Followed, edit: &Edit) -> Result<bool, AllocError> {
    if followed.config.check(edit).is_err() {
        return Ok(false);
    }
    let plan = followed.view.prepare(&followed.config, edit)?;
    if followed.config.apply(edit).is_err() {
        return Err(AllocError);
    }
    followed.view.commit(plan);
    Ok(true)
}

/// Makes an edit; whether it is accepted.
pub fn is_made(alloc: Global, followed: &mut Followed, line: Line<'_>) -> bool {
    match edit(alloc, line) {
        Ok(edit) => follow(followed, &edit) == Ok(true),
        Err(_) => false,
    }
}

/// The host's page, whole.
pub fn page(alloc: Global, view: &DiscoveryView, host: &[u8]) -> Result<Vec<u8>, AllocError> {
    let len = view.len(host).min(1 << 20) as usize;
    let mut page = vec![in alloc; 0xA5; len]?;
    view.window(host, 0, &mut page);
    Ok(page)
}
