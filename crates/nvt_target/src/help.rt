//! What the help tells beside the arguments: the lines of files and of the control port, and what is printed.

/// The lines of edits, their replies in words, the lines of a script, and an example.
pub const HELP: &str = "EDITS has one edit a line, words with one space between:
  subsys add NQN SERIAL ACCESS     ACCESS: open (to each host) or closed
  subsys set NQN ACCESS
  subsys del NQN
  ns add NQN NSID DISK BLOCKS BLOCKSIZE UUID GROUP
                                   a namespace on a disk of its own; NSID: 1 to 4096;
                                   DISK: its number, from 0 on; BLOCKSIZE: 512 or 4096
  ns size NQN NSID BLOCKS
  ns group NQN NSID GROUP          GROUP: its ANA group, 1 to 32
  ns del NQN NSID
  ns view NQN NSID WHO             WHO: all (each host sees it) or named (those it is shown to)
  ns show NQN NSID HOSTNQN         the host is one of those that the namespace is shown to
  ns hide NQN NSID HOSTNQN
  port add ID FAMILY ADDR SERVICE  FAMILY: ipv4 or ipv6; SERVICE: the TCP port
  port set ID FAMILY ADDR SERVICE
  port del ID
  link add ID NQN                  the subsystem is served on the port
  link del ID NQN
  host add NQN
  host del NQN
  allow add SUBNQN HOSTNQN         the host may use the closed subsystem
  allow del SUBNQN HOSTNQN
  ana set ID NQN GROUP STATE       STATE: optimized, non-optimized, inaccessible,
                                   persistent-loss or change
  ref add ID FAMILY ADDR SERVICE   a referral to another discovery controller
  ref set ID FAMILY ADDR SERVICE
  ref del ID

An edit is accepted (`ok`), or refused and changes nothing:
  refused BadValue WHICH   a value is out of its range
  refused NoSuch WHICH     what it names is not there
  refused Exists WHICH     what it adds is there already
  refused DiskInUse        a namespace is on the disk already
  refused InUse WHICH      something that is there names what it removes
  refused Full WHICH       as many are there as there may be
A line that is no edit has its first faulty word named, by the number of bytes before it:
  line 0 TooLong           the line has more than 1,024 bytes
  line COLUMN Empty        there is no byte in the word
  line COLUMN UnknownWord  no edit begins so
  line COLUMN Missing      the line ends before the edit does
  line COLUMN BadNumber    no decimal number below 2^64 without leading zeros
  line COLUMN BadNqn       no `nqn.` and 1 to 219 bytes from 21h to 7Eh after it
  line COLUMN BadUuid      no 36 characters of a UUID, hyphenated and in lower case
  line COLUMN BadWord      none of the words that may stand here
  line COLUMN Extra        the line goes on after the edit's end

Disks are in memory, of zeros at first. They are of one size, as many as --disks says; or --memory
is given once for each, up to 256 times, and the first of them is disk 0.

STREAM has these lines:
  open PORT   a host connects to the port; prints `K open`, with the connection's number,
              or `open refused KIND`: NoSuchPort (no port has the number) or Full (64
              connections are open)
  rx K HEX    bytes come on connection K; prints `K pdu HEX` for each PDU that is sent, and
              `K closed` where the target ends the connection
  end K       the host ends connection K
  tick MS     the clock is set, in ms; it never goes back
  edit LINE   an edit while the target runs; prints `edit ok`, or why there is none
After each line `J closed` is printed for each connection J that the target ended by then: a
controller's I/O queues end with its admin queue and by its reset, and all of its queues where
its Keep Alive Timer runs out or an edit takes its host's permission or its port away.
A line on a connection that is not open prints `K none`.

Example:
  printf 'port add 1 ipv4 127.0.0.1 4420\\n' > EDITS
  printf 'open 1\\nend 0\\n' > STREAM
  nvt_target replay EDITS STREAM --disks 1 --units 2048
prints `0 open`.";

/// Where hosts and lines of edits come from, what is printed, and a first session.
pub const RUN_HELP: &str =
    "EDITS has one edit a line; `nvt_target help replay` lists them, and the replies to them. A line that
is refused ends the program before it listens to anything.

Disks are in memory, of zeros at first, and what is written to them is lost at the end. They are of
one size, as many as --disks says; or there is one for each --memory and --file, up to 256, and the
first of these is disk 0. A --file is a regular file or a block device that is there, of whole units
of 512 bytes. What is written to it stays, and it is locked against a second target.

Hosts connect to the address of each port of the edits. At 127.0.0.1, on the control port, any
local user can send further edits, one a line; each is answered by a line, `ok` or why it is
refused. Ports that are added are listened to from then on, those that are deleted no more, and
a host that is connected learns what an edit changed from its log pages.

The line `show` is answered by the edits, one a line, that make a configuration equal to the one
that stands, on a new target with the same disks, and then by `ok`; or by `refused Memory`. It is
the configuration of that moment, whatever edits come while it is sent, and it changes nothing.

On standard error there is a line for each listener, as `listening on 127.0.0.1:4420, port 1`; for
each host that connects, for its Connect as it is answered, and for the end of its connection:
  connection 1: 127.0.0.1:50152 connected to port 1
  connection 1: Connect of nqn.2026-01.test:h1 to nqn.2026-01.test:a, queue 0: success, CNTLID 1
  connection 1: closed by the host
and for each line of edits with its reply, as `edit \"port del 2\": ok`. At most 100 of these are
printed in a second; the others are counted, as `lines left out: 12`. Standard error has to be
read, or these are lost; it stops nobody. With --quiet nothing is printed there but an error.
On standard output there is `port ID: cannot listen` for a port whose address cannot be listened
to, once; it is tried again at each edit.

A host is given up that connects to no controller within 30 seconds, or takes no byte of what it
is sent for 30 seconds, 2 once its connection is ended. Of 16 connections to the control port
the one that was silent longest gives way to a new one. At the end of its turns the program
sends what it kept, for 2 seconds at most, and says on standard error how many hosts were given up.

A first session, with a Linux host beside it:
  printf 'port add 1 ipv4 127.0.0.1 4420\\n' > EDITS
  printf 'subsys add nqn.2026-01.test:a SN-A open\\n' >> EDITS
  printf 'link add 1 nqn.2026-01.test:a\\n' >> EDITS
  nvt_target run EDITS --control 4419 --disks 2 --units 262144 &
  nvme discover -t tcp -a 127.0.0.1 -s 4420
  nvme connect -t tcp -a 127.0.0.1 -s 4420 -n nqn.2026-01.test:a
  nc 127.0.0.1 4419
and then, to nc, the line
  ns add nqn.2026-01.test:a 1 0 262144 512 11111111-1111-4111-8111-111111111111 1
which is answered `ok`: the host has a disk of 128 MiB.";

/// What a file of edits is checked against.
pub const CHECK_HELP: &str =
    "EDITS has one edit a line; `nvt_target help replay` lists them, and the replies to them. They are
applied, in their order, to the configuration of these disks and nothing else, as `run` and
`replay` apply them. Where each is accepted, `ok` is printed, and the exit status is 0. Else it is
1, and on standard error the first line that is refused is named with its reply, as these do it:
  error: line 17: refused Exists Port

Disks are of one size, as many as --disks says; or there is one for each --memory and --file, up to
256, and the first of these is disk 0. Of a file only its size is asked, and it is not locked. No
disk is made, no port is opened, and no host is served.

Example:
  printf 'port add 1 ipv4 127.0.0.1 4420\\n' > EDITS
  nvt_target check EDITS --disks 256 --units 1048576
prints `ok`.";
