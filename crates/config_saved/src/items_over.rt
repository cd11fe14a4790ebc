//! How far a walk over the items of a configuration is.
ghost use Rattle.std.specs.Prelude.{◌≡◌, drop};
ghost use Rattle.std.specs.List.{flat_map};
ghost use Rattle.config_saved.specs.Saved.{saved_edits};
ghost use Rattle.nvt_config.specs.Configuration.{Configuration};
ghost use Rattle.config_saved.specs.Walk.{TakesItem, edits_behind};

use crate::item_edits::ItemEdits;
use crate::saved_list::{
    Allows, Hosts, Links, Namespaces, Ports, Referrals, SavedList, Shows, States, Subsystems,
};
use nvt_config::Config;
use std::alloc::AllocError;

/// How many items of each list of a configuration are over, in a walk over all of them.
#[derive(Clone, Copy)]
pub(crate) struct ItemsOver {
    subsystems: usize,
    namespaces: usize,
    ports: usize,
    links: usize,
    states: usize,
    hosts: usize,
    allows: usize,
    shows: usize,
    referrals: usize,
}

impl ItemsOver {
    /// None yet.
    pub(crate) fn none() -> ItemsOver
        ensures { (config : Configuration) → edits_behind config result ≡ saved_edits config }
    {
        ItemsOver {
            subsystems: 0,
            namespaces: 0,
            ports: 0,
            links: 0,
            states: 0,
            hosts: 0,
            allows: 0,
            shows: 0,
            referrals: 0,
        }
    }

    /// The edits of the next item of the configuration that the walk goes over.
    pub(crate) fn next(&mut self, config: &Config) -> Result<Option<ItemEdits>, AllocError>
        ensures { TakesItem (edits_behind config.now self.old) (edits_behind config.now self.new) result }
    {
        if let Some(edits) = next_of::<Subsystems>(config.subsystems(), &mut self.subsystems)? {
            return Ok(Some(edits));
        }
        if let Some(edits) = next_of::<Namespaces>(config.namespaces(), &mut self.namespaces)? {
            return Ok(Some(edits));
        }
        if let Some(edits) = next_of::<Ports>(config.ports(), &mut self.ports)? {
            return Ok(Some(edits));
        }
        if let Some(edits) = next_of::<Links>(config.links(), &mut self.links)? {
            return Ok(Some(edits));
        }
        if let Some(edits) = next_of::<States>(config.states(), &mut self.states)? {
            return Ok(Some(edits));
        }
        if let Some(edits) = next_of::<Hosts>(config.hosts(), &mut self.hosts)? {
            return Ok(Some(edits));
        }
        if let Some(edits) = next_of::<Allows>(config.allows(), &mut self.allows)? {
            return Ok(Some(edits));
        }
        if let Some(edits) = next_of::<Shows>(config.shows(), &mut self.shows)? {
            return Ok(Some(edits));
        }
        next_of::<Referrals>(config.referrals(), &mut self.referrals)
    }
}

// The edits of the first item that is not over, which then is.
fn next_of<L: SavedList>(
    items: &[L::Item],
    over: &mut usize,
) -> Result<Option<ItemEdits>, AllocError>
    ensures { TakesItem (flat_map L.edits (drop over.old items.now))
        (flat_map L.edits (drop over.new items.now)) result }
{
    let Some(item) = items.get(*over) else {
        return Ok(None);
    };
    let edits = L::edits_of(item)?;
    *over += 1;
    Ok(Some(edits))
}
