//! What the help tells beside the arguments: what each command prints, and examples.

/// What ends a command, and where to begin.
pub const HELP: &str =
    "Each command connects to the controller at ADDR and PORT, asks it, and prints what it answers.
A command that does not come to its end prints why on standard error, and ends with status 1:
  error: status SCT SC   the controller refused a command, or the connection, with this status
                         (its type and its code in hex, as `00 80`: LBA out of range)
  error: fault FES FEI   the controller broke a rule of the transport, and was told so
  error: term FES FEI    the controller says that the host did
  error: bad page        an answer is not what it has to be
  error: unsettled       the discovery log page changed in each of eight tries to read it
  error: too large       more than 131072 bytes of data
  error: io              the connection was refused, or ended, or the output cannot be written
  error: turns           so many turns passed
  error: memory
Bad arguments end it with status 2.

Examples, with a target that `nvt_target run` serves:
  nvt_host discover 127.0.0.1 4420 nqn.2026-01.test:h1
  nvt_host list 127.0.0.1 4420 nqn.2026-01.test:a nqn.2026-01.test:h1
  nvt_host write 127.0.0.1 4420 nqn.2026-01.test:a nqn.2026-01.test:h1 1 0 1 5
  nvt_host read 127.0.0.1 4420 nqn.2026-01.test:a nqn.2026-01.test:h1 1 0 1";

pub const DISCOVER: &str =
    "Prints `genctr G records N`, with the generation of the page, and a line for each record:
  record TRTYPE ADRFAM SUBTYPE PORTID TRADDR TRSVCID NQN
The records are those of one moment: a page that changes while it is read is read again. TRTYPE is
3 for TCP, ADRFAM 1 for IPv4 and 2 for IPv6, SUBTYPE 1 for another discovery controller and 2 for
a subsystem. A byte of a text that no word has is printed as `?`.

Example:
  nvt_host discover 127.0.0.1 4420 nqn.2026-01.test:h1
prints
  genctr 1 records 1
  record 3 1 2 1 127.0.0.1 4420 nqn.2026-01.test:a";

pub const LIST: &str = "Example:
  nvt_host list 127.0.0.1 4420 nqn.2026-01.test:a nqn.2026-01.test:h1
prints `1` where namespace 1 is the only one.";

pub const ANA: &str =
    "Prints `change C groups N`, with the change count of the page, and a line for each group:
  group ID STATE COUNT NSID..
STATE is 1 for optimized, 2 for non-optimized, 3 for inaccessible, 4 for persistent loss and 15
for change; COUNT is the group's change count; then the namespaces of the group follow.

Example:
  nvt_host ana 127.0.0.1 4420 nqn.2026-01.test:a nqn.2026-01.test:h1
prints
  change 0 groups 1
  group 1 1 0 1";

pub const CHANGED: &str =
    "Prints `changed NSID..`, with the namespaces that changed, or `changed all` where more than 1024 did.

Example:
  nvt_host changed 127.0.0.1 4420 nqn.2026-01.test:a nqn.2026-01.test:h1 --turns 60000
waits up to a minute, and prints `changed 1` once namespace 1 is made larger.";

pub const READ: &str = "Example:
  nvt_host read 127.0.0.1 4420 nqn.2026-01.test:a nqn.2026-01.test:h1 1 0 2
prints a line of hex for block 0 of namespace 1, and one for block 1.";

pub const WRITE: &str =
    "Up to 8192 bytes go with the command; more, up to 131072, as the controller asks for them, and with
--hold all do.

Example:
  nvt_host write 127.0.0.1 4420 nqn.2026-01.test:a nqn.2026-01.test:h1 1 0 16 5
writes the byte 5 to all of blocks 0 to 15 of namespace 1, and prints `ok`.";

pub const LAB: &str =
    "The target serves a disk of zeros at 127.0.0.1. Host 1 writes to it, and is held before it sends its
data; host 2 reads the same block, which is still of zeros; then host 1 sends them, and is done. What the
processes print is echoed on standard error. Prints `lab ok`, or ends by `error: lab`.

Example:
  nvt_host lab nvt_target --port 4420 --control 4419 --turns 2000000";
