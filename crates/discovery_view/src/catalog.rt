//! The catalog of a configuration: its records, whoever is shown them.
ghost use Rattle.std.specs.Prelude.{◌≡◌, ◌≤◌, ◌-◌, ◌∷◌, ◌++◌, [], All, IfOk, IsTrue, OnOk};
ghost use Rattle.std.specs.Prelude.{drop, length, map, take};
ghost use Rattle.std.specs.List.{AllByRecursion, flat_map};
ghost use Rattle.config_lists.specs.Port.{is_port};
ghost use Rattle.discovery_view.specs.Catalog.{catalog_of, is_for_all, linked_among};
ghost use Rattle.discovery_view.specs.Order.{entries_of};
ghost use Rattle.discovery_view.specs.Plan.{common_first, common_last};
ghost use Rattle.discovery_view.specs.Ready.{AreReady};
ghost use Rattle.discovery_view.specs.Record.{record_of};
ghost use Rattle.discovery_view.specs.Records.{referral_of};

use crate::entry::Entry;
use crate::kept::KeptRecord;
use crate::open::OpenSubsystems;
use crate::order::in_order;
use config_lists::link::has_link;
use nvt_config::{Config, Port, Subsystem};
use std::alloc::{AllocError, Global};
use std::marker::Model;

/// The catalog of a configuration: a record for each link, by the port's number and then by the
/// subsystem's name, and then one for each referral, by its number. A contract sees the configuration.
#[derive(Drop)]
pub(crate) struct Catalog<'a> {
    config: &'a Config,
    entries: Vec<Entry<'a>>,
    // Whether each is shown to every host.
    for_all: Vec<bool>,
}

impl<'a> Model for Catalog<'a> {
    ghost use Rattle.std.specs.Prelude.{◌≡◌, map};
    ghost use Rattle.nvt_config.specs.Configuration.{Configuration};
    ghost use Rattle.discovery_view.specs.Catalog.{catalog_of, is_for_all};
    ghost use Rattle.discovery_view.specs.Ready.{AreReady};

    ghost Value = { Configuration };

    ghost view = { λ c. c.config.now };

    ghost invariant = { λ c. (c.entries.items ≡ catalog_of c.config.now)
        × AreReady (catalog_of c.config.now)
        × (c.for_all.items ≡ map (is_for_all c.config.now) (catalog_of c.config.now)) };
}

impl<'a> Catalog<'a> {
    /// That of a configuration.
    pub(crate) fn new(alloc: Global, config: &'a Config) -> Result<Catalog<'a>, AllocError>
        ensures { IfOk result (λ catalog. catalog ≡ config.now) }
    {
        let entries = listed(alloc, config)?;
        let for_all = are_for_all(alloc, config, &entries)?;
        Ok(Catalog {
            config,
            entries,
            for_all,
        })
    }

    /// That of a configuration with these records.
    pub(crate) fn of_kept(
        alloc: Global,
        config: &'a Config,
        kept: &'a [KeptRecord],
    ) -> Result<Catalog<'a>, AllocError>
        requires same { kept.now ≡ catalog_of config.now }
        requires ready { AreReady kept.now }
        ensures { IfOk result (λ catalog. catalog ≡ config.now) }
    {
        let entries = entries_of(alloc, kept)?;
        let for_all = are_for_all(alloc, config, &entries)?;
        Ok(Catalog {
            config,
            entries,
            for_all,
        })
    }

    /// The configuration.
    pub(crate) fn config(&self) -> &'a Config
        ensures { result.now ≡ self.now }
    {
        self.config
    }

    /// Its records.
    pub(crate) fn entries(&self) -> &[Entry<'a>]
        ensures same { result.now ≡ catalog_of self.now }
        ensures ready { AreReady (catalog_of self.now) }
    {
        &self.entries
    }

    /// Whether each is shown to every host.
    pub(crate) fn for_all(&self) -> &[bool]
        ensures { result.now ≡ map (is_for_all self.now) (catalog_of self.now) }
    {
        &self.for_all
    }
}

// Whether each of these records is shown to every host.
fn are_for_all(
    alloc: Global,
    config: &Config,
    entries: &[Entry<'_>],
) -> Result<Vec<bool>, AllocError>
    ensures { IfOk result (λ flags. flags.items ≡ map (is_for_all config.now) entries.now) }
{
    let subsystems = OpenSubsystems::of(alloc, config)?;
    let mut flags = Vec::new(alloc);
    for entry in entries {
        flags.push(is_for_all(&subsystems, entry))?;
    }
    Ok(flags)
}

// Whether every host is shown a record.
fn is_for_all(subsystems: &OpenSubsystems<'_>, entry: &Entry<'_>) -> bool
    ensures { result ≡ is_for_all subsystems.now entry.now }
{
    entry.is_referral() || subsystems.has(entry.nqn())
}

// What these records tell.
fn entries_of<'a>(alloc: Global, kept: &'a [KeptRecord]) -> Result<Vec<Entry<'a>>, AllocError>
    ensures { IfOk result (λ entries. entries.items ≡ kept.now) }
{
    let mut entries = Vec::new(alloc);
    for record in kept {
        entries.push(record.entry())?;
    }
    Ok(entries)
}

// The records of a configuration.
fn listed(alloc: Global, config: &Config) -> Result<Vec<Entry<'_>>, AllocError>
    ensures same { IfOk result (λ entries. entries.items ≡ catalog_of config.now) }
    ensures ready { OnOk result (AreReady (catalog_of config.now)) }
{
    let mut entries = Vec::new(alloc);
    let ports = in_order(config.ports());
    let subsystems = in_order(config.subsystems());
    push_ports(
        &mut entries,
        config,
        ports.as_slice(),
        subsystems.as_slice(),
    )?;
    let referrals = in_order(config.referrals());
    push_referrals(&mut entries, referrals.as_slice())?;
    Ok(entries)
}

// Adds the links of these ports to these subsystems.
fn push_ports<'a>(
    entries: &mut Vec<Entry<'a>>,
    config: &Config,
    ports: &[Option<&'a Port>],
    subsystems: &[Option<&'a Subsystem>],
) -> Result<(), AllocError>
    requires { AllByRecursion (λ port. IsTrue (is_port port)) (entries_of ports.now) }
    ensures entries { OnOk result (entries.new.items ≡ entries.old.items
        ++ flat_map (λ port. linked_among config.now port (entries_of subsystems.now))
        (entries_of ports.now)) }
    ensures whole { OnOk result (All (λ p. length (record_of p) ≡ 1024) entries.old.items
        → All (λ p. length (record_of p) ≡ 1024) entries.new.items) }
{
    match ports.split_first() {
        Some((Some(port), rest)) => {
            push_links(entries, config, port, subsystems)?;
            push_ports(entries, config, rest, subsystems)
        }
        Some((None, rest)) => push_ports(entries, config, rest, subsystems),
        None => Ok(()),
    }
}

// Adds the links of a port to these subsystems.
fn push_links<'a>(
    entries: &mut Vec<Entry<'a>>,
    config: &Config,
    port: &'a Port,
    subsystems: &[Option<&'a Subsystem>],
) -> Result<(), AllocError>
    requires { IsTrue (is_port port.now) }
    ensures entries { OnOk result (entries.new.items ≡ entries.old.items
        ++ linked_among config.now port.now (entries_of subsystems.now)) }
    ensures whole { OnOk result (All (λ p. length (record_of p) ≡ 1024) entries.old.items
        → All (λ p. length (record_of p) ≡ 1024) entries.new.items) }
{
    match subsystems.split_first() {
        Some((Some(subsystem), rest)) => {
            push_link(entries, config, port, subsystem)?;
            push_links(entries, config, port, rest)
        }
        Some((None, rest)) => push_links(entries, config, port, rest),
        None => Ok(()),
    }
}

// Adds the link of a port to a subsystem, where there is one.
fn push_link<'a>(
    entries: &mut Vec<Entry<'a>>,
    config: &Config,
    port: &'a Port,
    subsystem: &'a Subsystem,
) -> Result<(), AllocError>
    requires { IsTrue (is_port port.now) }
    ensures entries { OnOk result (entries.new.items ≡ entries.old.items
        ++ linked_among config.now port.now (subsystem.now ∷ [])) }
    ensures whole { OnOk result (All (λ p. length (record_of p) ≡ 1024) entries.old.items
        → All (λ p. length (record_of p) ≡ 1024) entries.new.items) }
{
    if has_link(config.links(), u64::from(port.id), subsystem.nqn.as_bytes()) {
        entries.push(Entry::new(port, subsystem))?;
    }
    Ok(())
}

// Adds these referrals.
fn push_referrals<'a>(
    entries: &mut Vec<Entry<'a>>,
    referrals: &[Option<&'a Port>],
) -> Result<(), AllocError>
    requires { AllByRecursion (λ port. IsTrue (is_port port)) (entries_of referrals.now) }
    ensures entries { OnOk result (entries.new.items
        ≡ entries.old.items ++ map referral_of (entries_of referrals.now)) }
    ensures whole { OnOk result (All (λ p. length (record_of p) ≡ 1024) entries.old.items
        → All (λ p. length (record_of p) ≡ 1024) entries.new.items) }
{
    match referrals.split_first() {
        Some((Some(referral), rest)) => {
            entries.push(Entry::referral(referral))?;
            push_referrals(entries, rest)
        }
        Some((None, rest)) => push_referrals(entries, rest),
        None => Ok(()),
    }
}

/// These records, as a view keeps them.
pub(crate) fn kept(alloc: Global, entries: &[Entry<'_>]) -> Result<Vec<KeptRecord>, AllocError>
    ensures { IfOk result (λ records. records.items ≡ entries.now) }
{
    let mut records = Vec::new(alloc);
    for entry in entries {
        records.push(entry.kept(alloc)?)?;
    }
    Ok(records)
}

/// How many records are the same at the beginning of both.
pub(crate) fn same_at_first(records: &[KeptRecord], entries: &[Entry<'_>]) -> usize
    ensures within { (result ≤ length records.now) × (result ≤ length entries.now) }
    ensures same { take result records.now ≡ take result entries.now }
    ensures all { result ≡ common_first records.now entries.now }
{
    let end = records.len().min(entries.len());
    let mut same = 0;
    while same < end && records[same].entry() == entries[same] {
        same += 1;
    }
    same
}

/// How many are the same at the end of both.
pub(crate) fn same_at_last(records: &[KeptRecord], entries: &[Entry<'_>]) -> usize
    ensures within { (result ≤ length records.now) × (result ≤ length entries.now) }
    ensures same { drop (length records.now - result) records.now
        ≡ drop (length entries.now - result) entries.now }
    ensures all { result ≡ common_last records.now entries.now }
{
    let end = records.len().min(entries.len());
    let mut same = 0;
    while same < end
        && records[records.len() - 1 - same].entry() == entries[entries.len() - 1 - same]
    {
        same += 1;
    }
    same
}
