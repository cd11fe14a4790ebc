//! The reasons against an edit of the ports and the referrals.
ghost use Rattle.std.specs.Prelude.{◌≡◌, not};
ghost use Rattle.config_lists.specs.Port.{is_address, is_port_number};
ghost use Rattle.nvt_config.specs.Accept.{accept, refuse, verdict};

use super::refuse;
use crate::lists::Lists;
use config_lists::link::is_port_linked;
use config_lists::port::{has_port, is_address, is_port_number};
use config_lists::{Edit, EditFault, Endpoint, Item, Value};

const PORTS_MAX: usize = 16;

const REFERRALS_MAX: usize = 16;

impl Lists<'_> {
    pub(super) fn check_port_add(&self, endpoint: &Endpoint) -> Result<(), EditFault>
        ensures { result ≡ verdict (accept self.now (Edit.PortAdd endpoint.now)) }
    {
        check_values(endpoint)?;
        refuse(
            has_port(self.ports, endpoint.id),
            EditFault::Exists(Item::Port),
        )?;
        refuse(self.ports.len() >= PORTS_MAX, EditFault::Full(Item::Port))
    }

    pub(super) fn check_port_set(&self, endpoint: &Endpoint) -> Result<(), EditFault>
        ensures { result ≡ verdict (accept self.now (Edit.PortSet endpoint.now)) }
    {
        check_values(endpoint)?;
        self.wants_port(endpoint.id)
    }

    pub(super) fn check_port_del(&self, id: u64) -> Result<(), EditFault>
        ensures { result ≡ verdict (accept self.now (Edit.PortDel id)) }
    {
        self.wants_port(id)?;
        refuse(is_port_linked(self.links, id), EditFault::InUse(Item::Link))
    }

    pub(super) fn check_referral_add(&self, endpoint: &Endpoint) -> Result<(), EditFault>
        ensures { result ≡ verdict (accept self.now (Edit.ReferralAdd endpoint.now)) }
    {
        check_values(endpoint)?;
        refuse(
            has_port(self.referrals, endpoint.id),
            EditFault::Exists(Item::Referral),
        )?;
        refuse(
            self.referrals.len() >= REFERRALS_MAX,
            EditFault::Full(Item::Referral),
        )
    }

    pub(super) fn check_referral_set(&self, endpoint: &Endpoint) -> Result<(), EditFault>
        ensures { result ≡ verdict (accept self.now (Edit.ReferralSet endpoint.now)) }
    {
        check_values(endpoint)?;
        self.check_referral_del(endpoint.id)
    }

    pub(super) fn check_referral_del(&self, id: u64) -> Result<(), EditFault>
        ensures { result ≡ verdict (accept self.now (Edit.ReferralDel id)) }
    {
        refuse(
            !has_port(self.referrals, id),
            EditFault::NoSuch(Item::Referral),
        )
    }
}

fn check_values(endpoint: &Endpoint) -> Result<(), EditFault>
    ensures { result ≡
        refuse (not (is_port_number endpoint.now.id)) (EditFault.BadValue Value.Port) (
        refuse (not (is_address endpoint.now.address)) (EditFault.BadValue Value.Address) (
        refuse (not (is_port_number endpoint.now.service)) (EditFault.BadValue Value.Service)
        (Ok tt))) }
{
    refuse(
        !is_port_number(endpoint.id),
        EditFault::BadValue(Value::Port),
    )?;
    refuse(
        !is_address(&endpoint.address),
        EditFault::BadValue(Value::Address),
    )?;
    refuse(
        !is_port_number(endpoint.service),
        EditFault::BadValue(Value::Service),
    )
}
