//! Fabrics commands on a queue (Base 2.0, section 6), by their type.
ghost use Rattle.std.specs.Prelude.{◌≡◌};
ghost use Rattle.target_decision.specs.Capsule.{fabrics_command, property_get_of, property_set_of};

use crate::capsule::{Outcome, done, refused};
use crate::consequence::{ConfigurationSet, Consequence, Update};
use nvt_fields::Status;
use pdu_codec::{Property, Sqe};
use property_regs::{InvalidField, Regs, configuration_set};

/// The opcode of all Fabrics commands.
pub(crate) const FABRICS: u8 = 0x7F;

// The types of Fabrics commands.
const PROPERTY_SET: u8 = 0x00;

pub(crate) const CONNECT: u8 = 0x01;

const PROPERTY_GET: u8 = 0x04;

/// Answers a Fabrics command on the admin queue of a controller with these properties.
pub(crate) fn command(registers: &Regs, cntlid: u16, sqe: &Sqe<'_>) -> Outcome
    ensures { result ≡ fabrics_command registers.now cntlid sqe.now.entry.now }
{
    match sqe.fctype() {
        PROPERTY_SET => property_set(registers, cntlid, &Property::read(sqe)),
        PROPERTY_GET => property_get(registers, &Property::read(sqe)),
        CONNECT => refused(Status::COMMAND_SEQUENCE_ERROR),
        _ => refused(Status::INVALID_FIELD),
    }
}

fn property_get(registers: &Regs, property: &Property) -> Outcome
    ensures { result ≡ property_get_of registers.now property.now }
{
    match registers.get(property.ofst, property.attrib) {
        Ok(value) => done(value, Consequence::Nothing),
        Err(InvalidField) => refused(Status::INVALID_FIELD),
    }
}

fn property_set(registers: &Regs, cntlid: u16, property: &Property) -> Outcome
    ensures { result ≡ property_set_of registers.now cntlid property.now }
{
    match configuration_set(property.ofst, property.attrib, property.value) {
        Ok(cc) => {
            let change = registers.change_by(cc);
            let update = Update::Configuration(ConfigurationSet { cc, change });
            done(0, Consequence::Update { cntlid, update })
        }
        Err(InvalidField) => refused(Status::INVALID_FIELD),
    }
}
