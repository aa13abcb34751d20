//! Rows of lists of turns with their transcripts. Each goes through `run`, and as a script through `replay`.
use crate::driven::transcript;
use crate::through::printed;
use nats_names::NoMemory;
use nats_row_words::words::agrees;
use std::alloc::Global;
use std::sync::Wait;
use std::thread::Threads;

/// Lists of turns, and the transcript of each or why there is none, behind a `=`.
const LISTS: &str = "config 2048 65536 check _INBOX MUX1
up 1048576
sub FOO.BAR ~
piece MSG%20FOO.BAR%201%2011%0D%0AHello%20World%0D%0A
take 1
write 100
=link 1 up
out SUB%20FOO.BAR%201%0D%0A
left %
sub 1
put 3 FOO.BAR ~ Hello%20World ~ ~ 18 ~
take 4 message FOO.BAR ~ Hello%20World ~ ~ 18 ~
event 1 connected
call 2 numbered 1
|config 2048 65536 check _INBOX MUX1
up 1048576
piece ONE%0D%0APING%0D%0A
=link 1 fault
out %
left %
event 1 connected
event 2 disconnected
|config 2048 65536 check _INBOX MUX1
up 1048576
piece ONE%0D%0APING%0D%0A
piece %
=turn 3 may not come there\
|config 2048 65536 skip _INBOX MUX1
up 34
pub a%0D%0APUB%20b%200 ~ %
sub .a ~
sub a g%20h
hpub FOO.BAR INBOX.67 Hello%20World Header X
=link 1 up
out %
left PUB%20a%0D%0APUB%20b%200%200%0D%0A%0D%0AHPUB%20FOO.BAR%20INBOX.67%2023%2034%0D%0ANATS/1.0%0D%0A\
Header:%20X%0D%0A%0D%0AHello%20World%0D%0A
event 1 connected
call 2 accepted
call 3 invalid-subject
call 4 invalid-queue-name
call 5 accepted
|config 2048 65536 check _INBOX MUX1
hpub a ~ % K v%0D%0Aw
=line 2|config 2048 65536 check _INBOX MUX1
up 1048576
drainall
pub a ~ x
lost
=link 1 lost
out %
left PING%0D%0A
event 1 connected
event 2 draining
event 4 disconnected
event 4 closed
call 2 accepted
call 3 closed
|config 2048 65536 check _INBOX MUX1
up 1048576
drainall
pub a ~ x
piece PONG%0D%0A
=link 1 drained
out %
left PING%0D%0A
event 1 connected
event 2 draining
event 4 closed
call 2 accepted
call 3 closed
|config 2048 65536 check _INBOX MUX1
up 1048576
sub a ~
drain 1
piece MSG%20a%201%201%0D%0Ax%0D%0APONG%0D%0AMSG%20a%201%201%0D%0Ay%0D%0A
take 1
take 1
=link 1 up
out %
left SUB%20a%201%0D%0AUNSUB%201%0D%0APING%0D%0A
sub 1
put 4 a ~ x ~ ~ 2 ~
take 5 message a ~ x ~ ~ 2 ~
take 6 ended
event 1 connected
call 2 numbered 1
call 3 accepted
|config 2048 65536 check _INBOX MUX1
up 1048576
drain 1
=turn 2 may not come there\
|config 2048 65536 check _INBOX MUX1
up 1048576
sub a ~
drain 1
lost
up 1048576
take 1
=link 1 lost
out %
left SUB%20a%201%0D%0AUNSUB%201%0D%0APING%0D%0A
link 2 up
out %
left %
sub 1
take 6 ended
event 1 connected
event 4 disconnected
event 5 connected
call 2 numbered 1
call 3 accepted
|config 2048 65536 check _INBOX MUX1
up 1048576
pub a ~ hi
write 0
write 3
=link 1 up
out PUB
left %20a%202%0D%0Ahi%0D%0A
event 1 connected
call 2 accepted
|config 2048 65536 check _INBOX MUX1
open {\"server_id\":\"NA\",\"server_name\":\"s1\",\"version\":\"2.10.18\",\"proto\":1,\"git_commit\":\"57d23ac\",\
\"go\":\"go1.22.6\",\"host\":\"0.0.0.0\",\"port\":4222,\"headers\":true,\"max_payload\":1048576,\"client_id\":5,\
\"client_ip\":\"127.0.0.1\",\"xkey\":\"XA\"}
piece PING%0D%0A
sub a ~
sub b ~
request svc T1 hi
piece MSG%20a%201%201%0D%0Ax%0D%0AMSG%20b%202%201%0D%0Ay%0D%0AMSG%20_INBOX.MUX1.T1%200%202%0D%0Aok%0D%0A
take 1
take 2
=link 1 up
out %
left PONG%0D%0ASUB%20a%201%0D%0ASUB%20b%202%0D%0ASUB%20_INBOX.MUX1.*%200%0D%0A\
PUB%20svc%20_INBOX.MUX1.T1%202%0D%0Ahi%0D%0A
sub 1
put 6 a ~ x ~ ~ 2 ~
take 7 message a ~ x ~ ~ 2 ~
sub 2
put 6 b ~ y ~ ~ 2 ~
take 8 message b ~ y ~ ~ 2 ~
event 1 connected
call 3 numbered 1
call 4 numbered 2
call 5 numbered 1
ticket 1 6 replied _INBOX.MUX1.T1 ~ ok ~ ~ 16 ~
|config 2048 65536 check _INBOX MUX1
up 1048576
pub a ~ hi
flush
write 3
write 10
flush
=link 1 up
out PUB%20a%202%0D%0Ahi%0D%0A
left %
event 1 connected
call 2 accepted
call 3 numbered 1
call 6 numbered 2
ticket 1 5 flushed
ticket 2 6 flushed
|config 2048 65536 check _INBOX MUX1
up 1048576
pub a ~ hi
flush
write 3
lost
flush
=link 1 lost
out PUB
left %20a%202%0D%0Ahi%0D%0A
event 1 connected
event 5 disconnected
call 2 accepted
call 3 numbered 1
call 6 numbered 2
ticket 1 5 flush-failed
ticket 2 waiting
|config 2048 65536 check _INBOX MUX1
up 1048576
request svc T1 hi
piece MSG%20_INBOX.MUX1.T1%200%202%0D%0Aok%0D%0A
piece MSG%20_INBOX.MUX1.T1%200%202%0D%0Aok%0D%0A
request svc T2 hi
piece HMSG%20_INBOX.MUX1.T2%200%2016%2016%0D%0ANATS/1.0%20503%0D%0A%0D%0A%0D%0A
request svc T3 hi
request svc T3 hi
deadline 4
piece MSG%20_INBOX.MUX1.T3%200%202%0D%0Aok%0D%0A
write 52
lost
up 1048576
=link 1 lost
out SUB%20_INBOX.MUX1.*%200%0D%0APUB%20svc%20_INBOX.MUX1.T1%202%0D%0Ahi%0D%0AP
left UB%20svc%20_INBOX.MUX1.T2%202%0D%0Ahi%0D%0APUB%20svc%20_INBOX.MUX1.T3%202%0D%0Ahi%0D%0A\
PUB%20svc%20_INBOX.MUX1.T3%202%0D%0Ahi%0D%0A
link 2 up
out %
left SUB%20_INBOX.MUX1.*%200%0D%0A
event 1 connected
event 12 disconnected
event 13 connected
call 2 numbered 1
call 5 numbered 2
call 7 numbered 3
call 8 numbered 4
ticket 1 3 replied _INBOX.MUX1.T1 ~ ok ~ ~ 16 ~
ticket 2 6 no-responders
ticket 3 8 dropped
ticket 4 9 timed-out
|config 2048 65536 check _INBOX MUX1
request svc T1 hi
deadline 1
up 1048576
deadline 1
=link 1 up
out %
left SUB%20_INBOX.MUX1.*%200%0D%0APUB%20svc%20_INBOX.MUX1.T1%202%0D%0Ahi%0D%0A
event 3 connected
call 1 numbered 1
ticket 1 2 timed-out
|config 2048 65536 skip a%20b M1
up 1048576
request svc T1 hi
=link 1 up
out %
left %
event 1 connected
call 2 invalid-subject
|config 2048 65536 check _INBOX MUX1
flush
deadline 1
=turn 2 may not come there\
|config 2048 65536 check _INBOX MUX1
up 1048576
up 1048576
=turn 2 may not come there";

/// What `replay` prints where `transcript` tells this: it says in words of its own why a script is not played.
fn printed_for(alloc: Global, told: &str) -> Result<String, NoMemory> {
    if let Some(turn) = told.strip_suffix(" may not come there") {
        return Ok(format!(in alloc; "{turn} out of turn\n")?);
    }
    if told.strip_prefix("line ").is_some() {
        return Ok(format!(in alloc; "script {told}\n")?);
    }
    Ok(String::from_str(alloc, told)?)
}

fn is_replayed<R: Threads + Wait + Sync>(
    rt: &R,
    alloc: Global,
    out: &mut Vec<u8>,
    script: &str,
    told: &str,
) -> Result<bool, NoMemory> {
    let want = printed_for(alloc, told)?;
    let answer = printed(rt, alloc, script)?;
    agrees(out, script, answer.as_slice(), want.as_bytes())
}

fn is_played<R: Threads + Wait + Sync>(
    rt: &R,
    alloc: Global,
    out: &mut Vec<u8>,
    row: &str,
) -> Result<bool, NoMemory> {
    let (script, want) = row.split_once('=').unwrap_or((row, ""));
    let answer = transcript(alloc, script)?;
    let holds = agrees(out, script, answer.as_slice(), want.as_bytes())?;
    Ok(is_replayed(rt, alloc, out, script, want)? && holds)
}

/// Whether lists of turns are played to their transcripts, by `run` and by `replay`.
pub fn are_played<R: Threads + Wait + Sync>(
    rt: &R,
    alloc: Global,
    out: &mut Vec<u8>,
) -> Result<bool, NoMemory> {
    let mut holds = true;
    for row in LISTS.split('|') {
        holds = is_played(rt, alloc, out, row)? && holds;
    }
    Ok(holds)
}
