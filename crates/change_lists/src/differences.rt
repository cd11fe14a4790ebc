//! What a host is told to have changed of a namespace (Base 2.0, section 5.16.1.5).
ghost use Rattle.std.specs.Prelude.{◌≡◌, ◌++◌, List, IfOk, OnOk, Some};
ghost use Rattle.std.specs.Option.{option_copied, option_map};
ghost use Rattle.config_lists.specs.Numbered.{nsids_where};
ghost use Rattle.config_lists.specs.declared.show.Show.{Show};
ghost use Rattle.nvt_config.specs.SeenBy.{seen_by_strangers};
ghost use Rattle.nvt_config.specs.Viewers.{AreOwnOf};
ghost use Rattle.change_lists.specs.Changes.{are_same, attributes_of, changes_namespace};
ghost use Rattle.change_lists.specs.Reached.{AreChangesFor};
ghost use Rattle.change_lists.specs.Tables.{differs, noted};

use config_lists::{NamespaceTable, NsidSet, Nsids};
use nvt_config::{Config, Namespace, Seen, Show};
use std::alloc::{AllocError, Global};
use tables::Variants;

/// The identifiers of the subsystem's namespaces whose size, block size, UUID or presence an edit changes,
/// from one configuration to the next, as a host sees both. They are compared once, as an edit is
/// prepared, and each controller of the subsystem whose host sees the same notes them.
pub(crate) fn changed_nsids(old: &Seen<'_>, new: &Seen<'_>, subsystem: &[u8]) -> NsidSet
    ensures { result ≡ nsids_where (changes_namespace old.now new.now subsystem.now) }
{
    let before = old.table(subsystem);
    let after = new.table(subsystem);
    differing(&before, &after)
}

/// Those of strangers, and of each host that is shown a namespace of the subsystem before or after.
pub(crate) fn changes_of(
    alloc: Global,
    old: &Config,
    new: &Config,
    subsystem: &[u8],
) -> Result<Variants<NsidSet>, AllocError>
    ensures common { IfOk result (λ changed. changed.common ≡ nsids_where
        (changes_namespace (seen_by_strangers old.now) (seen_by_strangers new.now) subsystem.now)) }
    ensures own { IfOk result (λ changed. AreOwnOf (old.now.shows ++ new.now.shows) subsystem.now
        (AreChangesFor old.now new.now subsystem.now) changed.own) }
{
    let (before, after) = (old.seen_by_strangers(), new.seen_by_strangers());
    let mut changed = Variants::new(alloc, changed_nsids(&before, &after, subsystem));
    add_changes(&mut changed, alloc, old.shows(), old, new, subsystem)?;
    add_changes(&mut changed, alloc, new.shows(), old, new, subsystem)?;
    Ok(changed)
}

// Adds those of each host to which one of these shows a namespace of the subsystem.
fn add_changes(
    changed: &mut Variants<NsidSet>,
    alloc: Global,
    shows: &[Show],
    old: &Config,
    new: &Config,
    subsystem: &[u8],
) -> Result<(), AllocError>
    ensures own { (before : List Show)
        → AreOwnOf before subsystem.now (AreChangesFor old.now new.now subsystem.now) changed.old.own
        → OnOk result (AreOwnOf (before ++ shows.now) subsystem.now
        (AreChangesFor old.now new.now subsystem.now) changed.new.own) }
    ensures common { changed.new.common ≡ changed.old.common }
{
    for show in shows {
        let host = show.host.as_bytes();
        if show.subsystem.as_bytes() == subsystem && changed.own(host).is_none() {
            let nsids = changed_nsids(&old.seen_by(host), &new.seen_by(host), subsystem);
            changed.put(alloc, host, nsids)?;
        }
    }
    Ok(())
}

// The identifiers whose namespaces are others after than before. Each of them is in a table.
fn differing(before: &NamespaceTable<'_>, after: &NamespaceTable<'_>) -> NsidSet
    ensures { result ≡ nsids_where (differs before.now after.now) }
{
    let mut changed = NsidSet::new();
    add_differing(&mut changed, before.nsids(), before, after);
    add_differing(&mut changed, after.nsids(), before, after);
    changed
}

// Adds those of these identifiers whose namespaces are others after than before.
fn add_differing(
    changed: &mut NsidSet,
    nsids: Nsids<'_>,
    before: &NamespaceTable<'_>,
    after: &NamespaceTable<'_>,
)
    ensures { changed.new ≡ noted (differs before.now after.now) nsids.entry changed.old }
{
    for nsid in nsids {
        if !is_same(before.get(nsid), after.get(nsid)) {
            changed.insert(nsid);
        }
    }
}

/// Whether two namespaces have the same size, block size and UUID, or neither is there.
pub(crate) fn is_same(before: Option<&Namespace>, after: Option<&Namespace>) -> bool
    ensures { result ≡ are_same (option_map attributes_of (option_copied before.entry))
        (option_map attributes_of (option_copied after.entry)) }
{
    match (before, after) {
        (Some(before), Some(after)) => has_same_attributes(before, after),
        (None, None) => true,
        _ => false,
    }
}

fn has_same_attributes(before: &Namespace, after: &Namespace) -> bool
    ensures { result ≡ are_same (Some (attributes_of before.now)) (Some (attributes_of after.now)) }
{
    before.blocks == after.blocks
        && before.block_size.bytes() == after.block_size.bytes()
        && before.uuid == after.uuid
}
