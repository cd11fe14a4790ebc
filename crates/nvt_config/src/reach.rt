//! The subsystem that an edit reaches, and the host.
ghost use Rattle.std.specs.Prelude.{◌≡◌};
ghost use Rattle.std.specs.Option.{option_copied};
ghost use Rattle.nvt_config.specs.Reach.{OthersStay, host_reached, subsystem_reached};

use config_lists::Edit;

/// The name of the subsystem whose namespaces, or whose ANA states, an edit may change, or of which it
/// changes who sees a namespace: there is at most one.
pub fn subsystem_reached(edit: &Edit) -> Option<&[u8]>
    ensures { option_copied result ≡ subsystem_reached edit.now }
{
    match edit {
        Edit::NamespaceAdd(namespace) => Some(namespace.subsystem.as_bytes()),
        Edit::NamespaceSize { subsystem, .. }
        | Edit::NamespaceGroup { subsystem, .. }
        | Edit::NamespaceDel { subsystem, .. }
        | Edit::NamespaceView { subsystem, .. }
        | Edit::NamespaceShow { subsystem, .. }
        | Edit::NamespaceHide { subsystem, .. }
        | Edit::LinkDel { subsystem, .. }
        | Edit::AnaSet { subsystem, .. } => Some(subsystem.as_bytes()),
        Edit::SubsystemAdd { .. }
        | Edit::SubsystemSet { .. }
        | Edit::SubsystemDel { .. }
        | Edit::PortAdd(_)
        | Edit::PortSet(_)
        | Edit::PortDel { .. }
        | Edit::LinkAdd { .. }
        | Edit::HostAdd { .. }
        | Edit::HostDel { .. }
        | Edit::AllowAdd { .. }
        | Edit::AllowDel { .. }
        | Edit::ReferralAdd(_)
        | Edit::ReferralSet(_)
        | Edit::ReferralDel { .. } => None,
    }
}

/// The name of the one host to which alone an edit changes what is seen of that subsystem, where there
/// is one: an edit that shows a namespace, or hides one, changes nothing that another host sees.
pub fn host_reached(edit: &Edit) -> Option<&[u8]>
    ensures { option_copied result ≡ host_reached edit.now }
{
    match edit {
        Edit::NamespaceShow { host, .. } | Edit::NamespaceHide { host, .. } => {
            Some(host.as_bytes())
        }
        _ => None,
    }
}

/// Whatever edit a configuration accepts, each host sees of every subsystem but the one that the edit
/// reaches the namespaces that it saw, and so does each host but the one that the edit reaches, where it
/// reaches one alone. The ANA states are what they were. This is a fact of the definitions; a call does
/// nothing.
pub fn others_stay()
    ensures { OthersStay }
{}
