//! A configuration and the view that follows its edits.
ghost use Rattle.std.specs.Prelude.{IfOk, IfSome};
ghost use Rattle.ana_view.specs.View.{IsPlannedFor};

use ana_view::{AnaView, Plan};
use nvt_config::{Config, Edit};
use std::alloc::{AllocError, Global};
use testkit_edits::config_over;

// More disks than a test has namespaces at a time.
const UNITS: &[u64] = &[64; 12];

/// A configuration and its view.
#[derive(Drop)]
pub struct Followed {
    pub config: Config,
    pub view: AnaView,
}

pub fn start(alloc: Global) -> Result<Followed, AllocError> {
    let config = config_over(alloc, UNITS)?;
    let view = AnaView::new(alloc, &config)?;
    Ok(Followed { config, view })
}

/// The plan of an edit that the configuration accepts, where it does, by the configuration after the edit.
pub fn plan(followed: &mut Followed, edit: &Edit) -> Result<Option<Plan>, AllocError>
    ensures { IfOk result (λ plan. IfSome plan (IsPlannedFor followed.new.view)) }
{
    if followed.config.check(edit).is_err() {
        return Ok(None);
    }
    let next = followed.config.edited(edit)?;
    let plan = followed.view.prepare_to(&followed.config, &next, edit)?;
    Ok(Some(plan))
}

/// Makes an edit that was planned; whether the configuration makes it too.
pub fn make(followed: &mut Followed, edit: &Edit, plan: Plan) -> bool
    requires { IsPlannedFor followed.old.view plan }
{
    let applied = followed.config.apply(edit).is_ok();
    followed.view.commit(plan);
    applied
}
