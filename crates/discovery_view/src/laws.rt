//! Laws of the records, in the words of the subject. Each of these functions does nothing: its
//! contract is the law, whatever the configurations and the hosts are.
ghost use Rattle.discovery_view.specs.Listing.{RecordsAreListed};
ghost use Rattle.discovery_view.specs.Told.{RecordsDifferWithTheirParts};

/// Whatever a configuration holds, the records that it shows to a host are those of the subsystems
/// and ports that the host may use, and of the referrals, one each: the subsystems' by rising port
/// number and then by rising name, and the referrals' after them.
pub fn records_are_listed()
    ensures { RecordsAreListed }
{}

/// Two lists of records tell the same exactly where their bytes are the same, record by record and
/// all in a row. So an edit counts for a host exactly where it changes the bytes of its records.
#[tactic(auto, using(crate::proofs::Told::records_differ_with_their_parts))]
pub fn records_differ_with_their_parts()
    ensures { RecordsDifferWithTheirParts }
{}
