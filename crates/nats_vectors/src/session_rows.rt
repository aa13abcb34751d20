//! Rows of scripts with what a session answers, and with what its links carry.
use crate::driven::answers;
use crate::sent::carried;
use crate::through::carried_through;
use nats_names::NoMemory;
use nats_row_words::words::agrees;
use std::alloc::Global;
use std::sync::Wait;
use std::thread::Threads;

/// Scripts, and what a session answers to each, behind a `=`.
const SESSIONS: &str = "config 1 65536 check _INBOX MUX1
pub a ~ hi
pub a ~ hi
up 1048576
up 1048576
take 1
sub .a ~
sub a g%20h
=accepted
full
up handled (connected)
out of turn
out of turn
invalid-subject
invalid-queue-name
link 1 up most 1048576 said 1048576 reads 0 in 0 0 out 1 3 links 1 pending 13 none PUB a 2\r\nhi\r\n\
|config 2048 65536 check _INBOX MUX1
up 1048576
sub FOO.BAR ~
piece MSG%20FOO.BAR%201%2011%0D%0AHello%20World%0D%0A
take 1
write 100
=up (connected)
numbered 1 handled
fed put 1
message Hello World
written
link 1 up most 1048576 said 1048576 reads 1 in 1 18 out 0 0 links 1 pending 0 none\
|config 2048 65536 check _INBOX MUX1
pub a ~ hi
request svc T1 hi
=accepted
numbered 1
link 0 none yet most 1048576 unsaid reads 0 in 0 0 out 0 0 links 0 pending 0 none\
|config 2048 65536 check _INBOX MUX1
up 5
piece INFO%20{\"max_payload\":2}%0D%0A
pub a ~ abc
piece INFO%20{}%0D%0A
pub a ~ abc
pub a ~ ab
lost
up 5
pub a ~ abc
=up (connected)
fed read
max-payload 2 3
fed read
max-payload 2 3
accepted handled
lost (disconnected)
up (connected)
accepted handled
link 2 up most 5 said 5 infos 2 reads 2 in 0 0 out 2 7 links 2 pending 14 none PUB a 3\r\nabc\r\n\
|config 2048 65536 check _INBOX MUX1
up 1048576
hpub a r hi X y
request svc T1 hi
write 1000
piece MSG%20_INBOX.MUX1.T1%200%202%0D%0Aok%0D%0A
=up (connected)
accepted handled
numbered 1 handled
written
fed read ticket 1 replied ok
link 1 up most 1048576 said 1048576 reads 1 in 1 16 out 2 41 links 1 pending 0 none\
|config 2048 65536 check _INBOX MUX1
sub FOO.BAR ~
up 33
piece MSG%20FOO.BAR%201%2011%0D%0AHello%20World%0D%0A
hpub FOO.BAR INBOX.67 Hello%20World Header X
write 4
=numbered 1
up handled (connected)
fed put 1
max-payload 33 34
written
link 1 up most 33 said 33 reads 1 in 1 18 out 0 0 links 1 pending 11 last Hello World FOO.BAR 1\r\n\
|config 2048 1 check _INBOX MUX1
up 1048576
sub a ~
piece MSG%20a%201%201%0D%0A1%0D%0AMSG%20a%201%201%0D%0A2%0D%0A
take 1
take 1
unsub 1
take 1
drop 1
take 1
=up (connected)
numbered 1 handled
fed put 1 dropped 1 2 (slow consumers for subscription 1)
message 1
empty
accepted handled
ended
accepted handled
out of turn
link 1 up most 1048576 said 1048576 reads 2 in 2 4 out 0 0 links 1 pending 18 none SUB a 1\r\nUNSUB 1\r\n\
|config 2048 1 check _INBOX MUX1
up 1048576
sub a ~
limit 1 1
piece MSG%20a%201%201%0D%0A1%0D%0AMSG%20a%201%201%0D%0A2%0D%0A
piece INFO%20{\"ldm\":true}%0D%0A-ERR%20'x'%0D%0A
piece NO%0D%0APING%0D%0A
piece PING%0D%0A
=up (connected)
numbered 1 handled
accepted handled
fed put 1 read
fed read read (lame duck mode detected) (server error: nats: x)
fed ended (disconnected)
out of turn
link 1 down most 1048576 said 0 infos 1 reads 4 in 2 4 out 0 0 links 1 pending 0 last 1\
|config 1 65536 check _INBOX MUX1
sub a ~
pub a ~ hi
up 100
tick
tick
tick
tick
up 200
write 3
reconnect
giveup
pub a ~ hi
take 1
hangup
=numbered 1
full
up handled (connected)
ticked
ticked
ticked (disconnected)
out of turn
up (connected)
written
accepted ended (disconnected)
given up (closed)
closed
ended
out of turn
link 2 down closed most 200 said 200 reads 0 in 0 0 out 0 0 links 2 pending 0 none\
|config 1 65536 check _INBOX MUX1
up 5
hangup
=up (connected)
hung up (closed)
link 1 down closed most 5 said 5 reads 0 in 0 0 out 0 0 links 1 pending 0 none\
|config 1 65536 check _INBOX MUX1
up 5
lost
=up (connected)
lost (disconnected)
link 1 down most 5 said 5 reads 0 in 0 0 out 0 0 links 1 pending 0 none\
|config 2048 65536 check _INBOX MUX1
up 1048576
sub a ~
drain 1
piece MSG%20a%201%201%0D%0Ax%0D%0APONG%0D%0AMSG%20a%201%201%0D%0Ay%0D%0A
take 1
take 1
=up (connected)
numbered 1 handled
accepted handled
fed put 1 read read
message x
ended
link 1 up most 1048576 said 1048576 reads 3 in 2 4 out 0 0 links 1 pending 24 none SUB a 1\r\nUNSUB 1\r\nPING\r\n\
|config 2048 65536 check _INBOX MUX1
up 1048576
drain 1
sub a ~
drain 1
lost
up 1048576
take 1
=up (connected)
out of turn
numbered 1 handled
accepted handled
lost (disconnected)
up (connected)
ended
link 2 up most 1048576 said 1048576 reads 0 in 0 0 out 0 0 links 2 pending 0 none\
|config 2048 65536 check _INBOX MUX1
up 1048576
drainall
pub a ~ x
piece PONG%0D%0A
=up (connected)
accepted handled (draining)
closed
fed ended (closed)
link 1 down closed most 1048576 said 1048576 reads 1 in 0 0 out 0 0 links 1 pending 0 none\
|config 1 65536 check _INBOX MUX1
giveup
=given up (closed)
link 0 none yet closed most 1048576 unsaid reads 0 in 0 0 out 0 0 links 0 pending 0 none\
|config 1 65536 check _INBOX MUX1
up 5
piece PING%0D%0A
lost
up 6
piece PONG%0D%0A+OK%0D%0A
=up (connected)
fed read
lost (disconnected)
up (connected)
fed read read
link 2 up most 6 said 6 reads 3 in 0 0 out 0 0 links 2 pending 0 none\
|config 2048 65536 check _INBOX MUX1
up 1048576
flush
pub a ~ hi
flush
write 12
pub a ~ x
flush
write 1
lost
flush
giveup
flush
=up (connected)
numbered 1 handled ticket 1 flushed
accepted handled
numbered 2 handled
written
accepted handled
numbered 3 handled
written ticket 2 flushed
lost (disconnected) ticket 3 flush-failed
numbered 4
given up (closed) ticket 4 flush-failed
closed
link 1 down closed most 1048576 said 1048576 reads 0 in 0 0 out 2 5 links 1 pending 0 none";

fn is_answered(alloc: Global, out: &mut Vec<u8>, row: &str) -> Result<bool, NoMemory> {
    let (script, want) = row.split_once('=').unwrap_or((row, ""));
    let answer = answers(alloc, script)?;
    agrees(out, script, answer.as_slice(), want.as_bytes())
}

/// Whether sessions answer as their rows say.
pub fn are_answered(alloc: Global, out: &mut Vec<u8>) -> Result<bool, NoMemory> {
    let mut holds = true;
    for row in SESSIONS.split('|') {
        holds = is_answered(alloc, out, row)? && holds;
    }
    Ok(holds)
}

/// Scripts of calls that would carry other commands, and behind a `=` what is answered and what the links carry,
/// read back.
const HOSTILE: &str = "config 2048 65536 check _INBOX MUX1
up 1048576
pub a%0D%0APUB%20b%201%0D%0Ax ~ hi
pub a%20b ~ hi
pub a%09b ~ hi
pub % ~ hi
pub a r%0D%0APING hi
pub a % hi
sub a%0D%0APING ~
sub a%20b ~
sub % ~
sub a g%0D%0APING
sub a g%20h
sub a g%09h
sub a %
request svc%0D%0APING T1 hi
request % T1 hi
=invalid-subject
invalid-subject
invalid-subject
invalid-subject
invalid-subject
invalid-subject
invalid-subject
invalid-subject
invalid-subject
invalid-queue-name
invalid-queue-name
invalid-queue-name
invalid-queue-name
invalid-subject
invalid-subject
whole
|config 2048 65536 check _INBOX MUX1
up 1048576
pub a%00b ~ %0D%0APING%0D%0A
pub %E3%80%80 ~ PUB%20b%201%0D%0Ax%0D%0A
sub %C2%A0 %E2%80%83
request svc T1 SUB%20a%201%0D%0A
hpub a ~ %0D%0A%0D%0A K :%20v
hpub a ~ x % v
write 40
lost
up 1048576
=accepted
accepted
numbered 1
numbered 1
accepted
accepted
pub <a\0b> - - <\r\nPING\r\n>
pub <\u{3000}> - - <PUB b 1\r\nx\r\n>
sub 1 <\u{a0}> <\u{2003}>
sub 0 <_INBOX.MUX1.*> -
pub <svc> <_INBOX.MUX1.T1> - <SUB a 1\r\n>
pub <a> - <: v> <\r\n\r\n>
pub <a> - + <x>
whole
sub 1 <\u{a0}> <\u{2003}>
sub 0 <_INBOX.MUX1.*> -
whole
|config 2048 65536 check a%0D%0APING MUX1
up 1048576
request svc T1 hi
=invalid-subject
whole
|config 2048 65536 check _INBOX MUX1
up 1048576
hpub a ~ x K v%0D%0APING
=script line 3
|config 2048 65536 check _INBOX MUX1
hpub a ~ x K%20J v
=script line 2
|config 2048 65536 check _INBOX MUX1
hpub a ~ x K%09J v
=script line 2
|config 2048 65536 check _INBOX MUX1
hpub a ~ x K: v
=script line 2
|config 2048 65536 check _INBOX M%0D%0A
=script line 1
|config 2048 65536 check _INBOX MUX1
request svc T%20 hi
=script line 2
|config 2048 65536 skip _INBOX MUX1
up 1048576
pub a%201%0D%0Ax%0D%0APUB%20b ~ hi
=accepted
pub <a> - - <x>
pub <b> - - <hi>
whole
|config 2048 65536 check _INBOX MUX1
up 33
pub a%0D%0APUB%20b%200 ~ %
sub .a ~
sub a g%20h
hpub FOO.BAR INBOX.67 Hello%20World Header X
lost
up 34
hpub FOO.BAR INBOX.67 Hello%20World Header X
=invalid-subject
invalid-subject
invalid-queue-name
max-payload 33 34
accepted
whole
pub <FOO.BAR> <INBOX.67> + <Hello World>
whole
|config 2048 65536 check _INBOX MUX1
up 1048576
request svc T1 hi
piece MSG%20_INBOX.MUX1.T1%200%202%0D%0Aok%0D%0A
request svc T2 hi
piece HMSG%20_INBOX.MUX1.T2%200%2016%2016%0D%0ANATS/1.0%20503%0D%0A%0D%0A%0D%0A
request svc T3 hi
request svc T3 hi
=numbered 1
numbered 2
numbered 3
numbered 4
sub 0 <_INBOX.MUX1.*> -
pub <svc> <_INBOX.MUX1.T1> - <hi>
pub <svc> <_INBOX.MUX1.T2> - <hi>
pub <svc> <_INBOX.MUX1.T3> - <hi>
pub <svc> <_INBOX.MUX1.T3> - <hi>
whole
";

fn is_carried<R: Threads + Wait + Sync>(
    rt: &R,
    alloc: Global,
    out: &mut Vec<u8>,
    row: &str,
) -> Result<bool, NoMemory> {
    let (script, want) = row.split_once('=').unwrap_or((row, ""));
    let inside = carried(alloc, script)?;
    let holds = agrees(out, script, inside.as_slice(), want.as_bytes())?;
    let outside = carried_through(rt, alloc, script)?;
    Ok(agrees(out, script, outside.as_slice(), want.as_bytes())? && holds)
}

/// Whether links carry the accepted commands alone.
pub fn are_carried<R: Threads + Wait + Sync>(
    rt: &R,
    alloc: Global,
    out: &mut Vec<u8>,
) -> Result<bool, NoMemory> {
    let mut holds = true;
    for row in HOSTILE.split('|') {
        holds = is_carried(rt, alloc, out, row)? && holds;
    }
    Ok(holds)
}
