//! Laws of histories, in the words of the subject. Each of these functions does nothing: its contract is
//! the law.
ghost use Rattle.host_driver.specs.Behaved.{Understands};
ghost use Rattle.host_driver.specs.Keeping.{RepliesAreTold};
ghost use Rattle.host_driver.specs.Latest.{CommandsAreTheLatest};
ghost use Rattle.host_driver.specs.HistoryLaws.{AnswersAreWhole};

/// A command that succeeds is answered with exactly as many bytes as it wanted, whatever happened before.
pub fn answers_are_whole()
    ensures { AnswersAreWhole }
{}

/// A controller that keeps the rules of the transport is understood: its ICResp, the reply to the Connect,
/// its R2Ts and data, and its replies, each to the command that it names. It is never at fault.
pub fn controllers_are_understood()
    ensures { Understands }
{}

/// Where the controller keeps the rules, the host is told its replies in their order and nothing else: the
/// first response connects it or is a refusal, and each other is the answer to its command, with the data
/// that came for that.
pub fn replies_are_told()
    ensures { RepliesAreTold }
{}

/// The data that are sent as a controller asks for them, and the bytes that are wanted of it, are those of
/// the command that was submitted last under its identifier.
pub fn commands_are_the_latest()
    ensures { CommandsAreTheLatest }
{}
