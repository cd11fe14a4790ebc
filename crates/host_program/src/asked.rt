//! What a command asks a controller for. Each answer is taken apart here, so that what asks owns its bytes alone.
ghost use Rattle.std.specs.Prelude.{Err, MatchResult, Ok};
ghost use Rattle.host_program.specs.Asking.{Asks, payload_of, result_of};

use host_driver::HostCommand;
use host_link::{Link, LinkSession, SessionFault};

/// The data of the answer to a command.
pub(crate) fn ask<L: Link + Drop>(
    session: &mut LinkSession<L>,
    command: &HostCommand,
) -> Result<Vec<u8>, SessionFault>
    ensures { MatchResult result
        (λ bytes. Asks payload_of command.now (Ok bytes.items) session.old session.new)
        (λ fault. Asks payload_of command.now (Err fault) session.old session.new) }
{
    match session.execute(command) {
        Ok(answer) => Ok(answer.payload),
        Err(fault) => Err(fault),
    }
}

/// The result of a command, whose answer has no data.
pub(crate) fn ask_result<L: Link + Drop>(
    session: &mut LinkSession<L>,
    command: &HostCommand,
) -> Result<u64, SessionFault>
    ensures { Asks result_of command.now result session.old session.new }
{
    match session.execute(command) {
        Ok(answer) => Ok(answer.result),
        Err(fault) => Err(fault),
    }
}
