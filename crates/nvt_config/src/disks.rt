//! The disks that a configuration may have.
ghost use Rattle.std.specs.Prelude.{◌≡◌, ◌^◌, nat_le};
ghost use Rattle.std.specs.List.{list_all};
ghost use Rattle.nvt_config.specs.Configuration.{are_disks};

/// The most disks.
pub const DISKS_MAX: usize = 256;

/// The most units of a disk, of 512 bytes each.
pub const DISK_UNITS_MAX: u64 = 1 << 40;

/// Whether a configuration may have disks of these sizes, in units of 512 bytes.
pub fn are_disks(units: &[u64]) -> bool
    ensures { result ≡ are_disks units.now }
{
    units.len() <= DISKS_MAX && are_disk_sizes(units)
}

fn are_disk_sizes(units: &[u64]) -> bool
    ensures { result ≡ list_all (λ n. nat_le n (2 ^ 40)) units.now }
{
    units.iter().all(|n| *n <= DISK_UNITS_MAX)
}
