//! What the help of the subcommands for programs says.

/// What the help of `pipe` says below its options.
pub(crate) const PIPE_HELP: &str = "\
Input, of at most 16777216 bytes:
  Key lines: `key NAME SECRET`, the secret in hexadecimal. A line that begins with # says nothing.
  A name may have two lines: the first one's key mints, and a verify takes either.
  An empty line.
  Requests: a line each, its bytes in hexadecimal. One of more than 65536 bytes is answered and
  ends the run.

Output, once the whole input is read, a line for each request:
  granted         the token is good for what was stated of the request
  granted to DIGITS at DIGITS
                  the same, with the token's identifier and location in hexadecimal
  token TEXT      the token that was asked for; token hex:DIGITS if it is binary
  refused 24 N    caveat N, counted from 0, is the first that isn't satisfied
  refused N       16 no request, 17 too long, 18 no such key, 19 no base64 text, 20 no token,
                  21 a third-party caveat, 22 past a limit, 23 a wrong signature,
                  26 a caveat with a location, 28 a clock that tells no moment,
                  29 a token that was taken back

Exit status:
  0  every request was answered, be it granted or refused
  1  a key line has a fault; standard error names it as `keys: line L kind K`: 1 a bad name,
     2 a secret that isn't hexadecimal, 3 an empty secret, 4 a name that stands on two earlier
     lines, 5 more than 1000 names, 6 a line that is no key line; or a line of the list has one,
     which is named as `error: FILE: line L:` and what is wrong
  2  a bad command line
  3  reading or writing failed, or the input or the list is longer than it may be
  4  memory ran out";

/// What the help of `serve` says below its options.
pub(crate) const SERVE_HELP: &str = "\
Prints `listening` once clients can connect. Prints `served N faults M` once N connections have
ended, M of them in a fault. PATH must not be there yet, and stays when the run ends. The key file
has key lines, as `macaroond pipe` reads them, and at most 16777216 bytes.

Example:
  macaroond serve --socket /tmp/macaroond.sock --keys keys --workers 2 --accept 3

Exit status:
  0  all connections were served
  1  a key line has a fault; standard error names it as `keys: line L kind K`; or a line of the list
     has one, which is named as `error: FILE: line L:` and what is wrong
  2  a bad command line
  3  a file or the socket failed, or a file is longer than it may be
  4  memory ran out";

/// What the help of `listen` says below its options.
pub(crate) const LISTEN_HELP: &str = "\
Prints one line once clients can connect. Standard error is a log: a line for the start and the end,
for each connection that ended in a fault, and for each change of the key file. A socket at PATH on
which nobody listens is taken over; anything else at PATH is left alone, and the run ends with
status 3. A socket that systemd hands over (LISTEN_FDS) is served in place of one at PATH. The key
file has key lines, as `macaroond pipe` reads them, and at most 16777216 bytes.

Without --idle a connection is ended that has sent nothing whole for 300 seconds: one that was never
answered, or that began a request since. One that rests, or that is owed replies, stays.

Where there are as many connections as there may be, the one that has rested longest gives way to a
further one: of the second socket at --verify-connections, else of the socket that has more. Without
--verify-connections the second socket may have as many as --connections.

Runs until SIGTERM or SIGINT. Then it takes no more connections, answers what has come, closes each
connection once its replies are sent, and ends. A second signal ends it at once. The key file and
the list of --revoked are looked at twice a second, and at SIGHUP. A changed one is taken where it
has no fault. Each has to belong to root or the daemon's user, be closed to others, and its group
may read it at most, where that is the daemon's own.

Over HTTP a gateway asks for /verify/NAME with the field `Authorization: Bearer TOKEN`. It gets 200
where the token is granted, and else 401, 403 or 404. /healthz tells whether the daemon is well.

The socket PATH.status is for its owner: `macaroond status` asks there how the daemon is.

Example:
  macaroond listen --socket /run/macaroond/socket --keys /etc/macaroond/keys --mode 660 --idle 60

Exit status:
  0  it was told to end
  1  a line of the key file or of the list has a fault; standard error names it as
     `error: FILE: line L:` and what is wrong
  2  a bad command line
  3  a file or the socket failed, or a file is longer than it may be
  4  memory ran out";

/// What the help of `page` says below its options.
pub(crate) const PAGE_HELP: &str = "\
Prints the URL of the page once a browser can open it, and serves it until the process is ended.
The page tells what a macaroon says, which of its caveats hold with facts at a moment, and adds
caveats. With --keys it mints and verifies too, for whoever has the URL: behind its # stands a
secret, fresh at each start, and a request that doesn't bring it is refused. So is one that another
page makes, or that names another address. The key file is read once, as the run begins.

Example:
  macaroond page --keys keys

Exit status:
  1  a line of the key file or of the list has a fault; standard error names it as
     `error: FILE: line L:` and what is wrong
  2  a bad command line, or an address that other machines may reach
  3  a file, the socket or standard output failed, or a file is longer than it may be
  4  memory ran out";
