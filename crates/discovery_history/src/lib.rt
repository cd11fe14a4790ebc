//! What a host learns of a target by its discovery log page: the page as it is shown at each moment of a
//! target's history is one by whose generation counter a host can tell that it changed. Laws alone; nothing here
//! runs.
#![tactic(auto)]

pub mod laws;
