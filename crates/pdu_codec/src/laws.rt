//! Laws of what a host writes: its readers read it. Each of these functions does nothing: its contract is
//! the law.
ghost use Rattle.pdu_codec.specs.Laws.{RequestsAreReadBack, TerminationsAreReadBack};
ghost use Rattle.pdu_codec.specs.Laws.{EntriesAreReadBack, CapsulesAreReadBack, DataAreReadBack};
ghost use Rattle.pdu_codec.specs.Laws.{ConnectsAreReadBack, ConnectDataAreReadBack};

/// The fields of an ICReq are read back.
pub fn requests_are_read_back()
    ensures { RequestsAreReadBack }
{}

/// The fields of an H2CTermReq are read back, and the header in error stands behind its own.
pub fn terminations_are_read_back()
    ensures { TerminationsAreReadBack }
{}

/// The fields of a submission queue entry are read back.
pub fn entries_are_read_back()
    ensures { EntriesAreReadBack }
{}

/// The fields of a Connect are read back from an entry with its dwords.
pub fn connects_are_read_back()
    ensures { ConnectsAreReadBack }
{}

/// The entry of a capsule is read back. The data that it carries stands at PDO, the first multiple of the
/// alignment that is not inside the header, and goes to its end.
pub fn capsules_are_read_back()
    ensures { CapsulesAreReadBack }
{}

/// The header of an H2CData is read back. Its data stands at PDO, the first multiple of the alignment that
/// is not inside the header, and goes to its end.
pub fn data_are_read_back()
    ensures { DataAreReadBack }
{}

/// The fields of a Connect's data are read back, the names with zeros after them.
pub fn connect_data_are_read_back()
    ensures { ConnectDataAreReadBack }
{}
