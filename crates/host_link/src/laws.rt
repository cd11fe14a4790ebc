//! Laws of conversations. Each of these functions does nothing: its contract is the law, for whatever a session does.
ghost use Rattle.host_link.specs.Laws.{ConversationsAgree, LinksTell};

/// A queue received what its link handed out, but for what is held, and the link took what the queue gave: the ICReq,
/// the Connect, a capsule for each command that was submitted, and what the PDUs that were taken ask for.
pub fn conversations_agree()
    ensures { ConversationsAgree }
{}

/// A link that tells says of a turn what it took and handed out in it.
pub fn links_tell()
    ensures { LinksTell }
{}
