//! Whose records an edit can change.
ghost use Rattle.discovery_view.specs.Reach.{Reaches};

use crate::allowed::Allowance;
use nvt_config::Edit;

/// Whose records an edit can change.
#[derive(Clone, Copy)]
pub(crate) enum Reach<'e> {
    Nobody,
    /// Those of the host of this allowance alone: which of the records that are there it is shown.
    Host(Allowance<'e>),
    /// What records tell, and not which of them a host is shown.
    Records,
    Anybody,
}

/// Whose records an edit can change, where it is accepted.
pub(crate) fn reach_of(edit: &Edit) -> Reach<'_>
    ensures { Reaches edit.now result }
{
    match edit {
        Edit::NamespaceAdd(_)
        | Edit::NamespaceSize { .. }
        | Edit::NamespaceGroup { .. }
        | Edit::NamespaceDel { .. }
        | Edit::NamespaceView { .. }
        | Edit::NamespaceShow { .. }
        | Edit::NamespaceHide { .. }
        | Edit::HostDel { .. }
        | Edit::AnaSet { .. } => Reach::Nobody,
        Edit::AllowAdd { subsystem, host } => Reach::Host(Allowance::Given { subsystem, host }),
        Edit::AllowDel { subsystem, host } => Reach::Host(Allowance::Taken { subsystem, host }),
        Edit::PortSet(_) | Edit::HostAdd { .. } | Edit::ReferralSet(_) => Reach::Records,
        _ => Reach::Anybody,
    }
}
