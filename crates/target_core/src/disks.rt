//! The disks that a target is made with.
ghost use Rattle.std.specs.Prelude.{◌≡◌, ◌^◌, IfOk, length, map, nat_le};
ghost use Rattle.std.specs.List.{list_all};
ghost use Rattle.block_store.specs.Stored.{Stored};
ghost use Rattle.nvt_config.specs.Configuration.{are_disks};
ghost use Rattle.target_core.specs.Faithful.{AreFaithful};

use block_store::{Disk, Faithful, Store};
use nvt_config::{DISK_UNITS_MAX, DISKS_MAX};
use std::alloc::{AllocError, Global};

/// Whether a target may have these disks.
pub(crate) fn are_disks<D: Disk>(disks: &[D]) -> bool
    ensures { result ≡ are_disks (map length (map D.contents disks.now)) }
{
    disks.len() <= DISKS_MAX && are_disk_sizes(disks)
}

fn are_disk_sizes<D: Disk>(disks: &[D]) -> bool
    ensures { let units = map length (map D.contents disks.now) in
        result ≡ list_all (λ n. nat_le n (2 ^ 40)) units }
{
    match disks.split_first() {
        Some((disk, others)) => disk.blocks() <= DISK_UNITS_MAX && are_disk_sizes(others),
        None => true,
    }
}

/// What the disks promise: no read of them found other bytes than were written. It does nothing beside asking each.
pub(crate) fn promise_of<D: Faithful>(stores: &[Store<D>])
    ensures { AreFaithful stores.now }
{
    if let Some((store, others)) = stores.split_first() {
        store.promise();
        promise_of(others);
    }
}

/// How many units each disk has.
pub(crate) fn units_of<D: Disk>(alloc: Global, disks: &[D]) -> Result<Vec<u64>, AllocError>
    ensures { IfOk result (λ units.
        units.items ≡ map length (map D.contents disks.now)) }
{
    let mut units = Vec::with_capacity(alloc, disks.len())?;
    for disk in disks {
        units.push(disk.blocks())?;
    }
    Ok(units)
}

/// A store over each disk.
pub(crate) fn stores_over<D: Disk + Drop>(
    alloc: Global,
    disks: Vec<D>,
) -> Result<Vec<Store<D>>, AllocError>
    ensures { IfOk result (λ stores.
        map (λ (s : Stored). s.contents) stores.items ≡ map D.contents disks.items) }
{
    stores_of(alloc, disks)
}

fn stores_of<D: Disk + Drop>(alloc: Global, disks: Vec<D>) -> Result<Vec<Store<D>>, AllocError>
    ensures { IfOk result (λ stores. stores.items ≡ map (λ disk. record {
      contents = D.contents disk;
      synced = D.synced disk;
      faults = D.faults disk;
      strays = D.strays disk;
    }) disks.items) }
{
    let mut stores = Vec::with_capacity(alloc, disks.len())?;
    for disk in disks {
        stores.push(Store::new(disk))?;
    }
    Ok(stores)
}
