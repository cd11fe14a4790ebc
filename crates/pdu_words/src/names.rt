//! Names that the standards give to numbers, in lower case but for abbreviations.
ghost use Rattle.std.specs.Prelude.{◌≡◌, MatchOption, None, Some};
ghost use Rattle.pdu_words.specs.Names.{command_specific_name, fatal_error_name, generic_name};
ghost use Rattle.pdu_words.specs.Names.{ana_state_name, identify_name, log_page_name};
ghost use Rattle.pdu_words.specs.Names.{media_name, notice_name, path_name, property_name, status_name};

use nvt_fields::Status;

/// The feature Asynchronous Event Configuration (Base 2.0, section 5.27.1.8).
pub(crate) const EVENT_CONFIGURATION: u8 = 0x0B;

/// The name of a status code of its type (Base 2.0, section 3.3.3.2.1; Fabrics Connect, section 6.3),
/// of those that this target sends or that reads and writes may have.
pub(crate) fn status_name(status: Status) -> Option<&'static str>
    ensures { MatchOption result (status_name status ≡ None) (λ name. status_name status ≡ Some name.now) }
{
    match status.sct {
        0 => generic_name(status.sc),
        1 => command_specific_name(status.sc),
        2 => media_name(status.sc),
        3 => path_name(status.sc),
        _ => None,
    }
}

#[tactic(auto, unfolding(crate::specs::Names::generic_name))]
fn generic_name(sc: u8) -> Option<&'static str>
    ensures { MatchOption result (generic_name sc ≡ None) (λ name. generic_name sc ≡ Some name.now) }
{
    Some(match sc {
        0x00 => "success",
        0x01 => "invalid command opcode",
        0x02 => "invalid field in command",
        0x03 => "command ID conflict",
        0x06 => "internal error",
        0x0B => "invalid namespace or format",
        0x0C => "command sequence error",
        0x0F => "data SGL length invalid",
        0x11 => "SGL descriptor type invalid",
        0x16 => "SGL offset invalid",
        0x80 => "LBA out of range",
        _ => return None,
    })
}

#[tactic(auto, unfolding(crate::specs::Names::command_specific_name))]
fn command_specific_name(sc: u8) -> Option<&'static str>
    ensures { MatchOption result (command_specific_name sc ≡ None) (λ name. command_specific_name sc ≡ Some name.now) }
{
    Some(match sc {
        0x05 => "asynchronous event request limit exceeded",
        0x09 => "invalid log page",
        0x0D => "feature identifier not saveable",
        0x80 => "connect incompatible format",
        0x81 => "connect controller busy",
        0x82 => "connect invalid parameters",
        0x84 => "connect invalid host",
        _ => return None,
    })
}

#[tactic(auto, unfolding(crate::specs::Names::media_name))]
fn media_name(sc: u8) -> Option<&'static str>
    ensures { MatchOption result (media_name sc ≡ None) (λ name. media_name sc ≡ Some name.now) }
{
    Some(match sc {
        0x80 => "write fault",
        0x81 => "unrecovered read error",
        0x85 => "compare failure",
        _ => return None,
    })
}

#[tactic(auto, unfolding(crate::specs::Names::path_name))]
fn path_name(sc: u8) -> Option<&'static str>
    ensures { MatchOption result (path_name sc ≡ None) (λ name. path_name sc ≡ Some name.now) }
{
    Some(match sc {
        0x01 => "asymmetric access persistent loss",
        0x02 => "asymmetric access inaccessible",
        0x03 => "asymmetric access transition",
        _ => return None,
    })
}

/// The name of a fatal error status (TCP Transport 1.0, section 3.6).
#[tactic(auto, unfolding(crate::specs::Names::fatal_error_name))]
pub(crate) fn fatal_error_name(fes: u16) -> Option<&'static str>
    ensures { MatchOption result (fatal_error_name fes ≡ None) (λ name. fatal_error_name fes ≡ Some name.now) }
{
    Some(match fes {
        1 => "invalid header field",
        2 => "sequence error",
        3 => "header digest error",
        4 => "data out of range",
        5 => "limit exceeded",
        6 => "unsupported parameter",
        _ => return None,
    })
}

/// The name of the property at an offset (Base 2.0, section 3.1.3).
#[tactic(auto, unfolding(crate::specs::Names::property_name))]
pub(crate) fn property_name(offset: u32) -> Option<&'static str>
    ensures { MatchOption result (property_name offset ≡ None) (λ name. property_name offset ≡ Some name.now) }
{
    Some(match offset {
        0x00 => "CAP",
        0x08 => "VS",
        0x14 => "CC",
        0x1C => "CSTS",
        0x20 => "NSSR",
        0x68 => "CRTO",
        _ => return None,
    })
}

/// What the data of an Identify command are, by CNS (Base 2.0, section 5.17).
#[tactic(auto, unfolding(crate::specs::Names::identify_name))]
pub(crate) fn identify_name(cns: u8) -> Option<&'static str>
    ensures { MatchOption result (identify_name cns ≡ None) (λ name. identify_name cns ≡ Some name.now) }
{
    Some(match cns {
        0x00 => "Identify Namespace",
        0x01 => "Identify Controller",
        0x02 => "Active Namespace ID list",
        0x03 => "Namespace Identification Descriptor list",
        _ => return None,
    })
}

/// The name of a log page (Base 2.0, section 5.16).
#[tactic(auto, unfolding(crate::specs::Names::log_page_name))]
pub(crate) fn log_page_name(lid: u8) -> Option<&'static str>
    ensures { MatchOption result (log_page_name lid ≡ None) (λ name. log_page_name lid ≡ Some name.now) }
{
    Some(match lid {
        0x04 => "changed namespace list",
        0x0C => "ANA log",
        0x70 => "discovery log",
        _ => return None,
    })
}

/// The name of a notice, by its Asynchronous Event Information (Base 2.0, section 5.2.1).
#[tactic(auto, unfolding(crate::specs::Names::notice_name))]
pub(crate) fn notice_name(information: u64) -> Option<&'static str>
    ensures { MatchOption result (notice_name information ≡ None) (λ name. notice_name information ≡ Some name.now) }
{
    Some(match information {
        0x00 => "namespace attribute changed",
        0x03 => "asymmetric namespace access change",
        0xF0 => "discovery log page change",
        _ => return None,
    })
}

/// The name of an Asymmetric Namespace Access state (Base 2.0, section 8.1.1).
#[tactic(auto, unfolding(crate::specs::Names::ana_state_name))]
pub(crate) fn ana_state_name(state: u8) -> Option<&'static str>
    ensures { MatchOption result (ana_state_name state ≡ None) (λ name. ana_state_name state ≡ Some name.now) }
{
    Some(match state {
        0x1 => "optimized",
        0x2 => "non-optimized",
        0x3 => "inaccessible",
        0x4 => "persistent loss",
        0xF => "change",
        _ => return None,
    })
}
