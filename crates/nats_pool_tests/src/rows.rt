//! The rows: what is asked, and the answer.
use crate::{asked, options, pool};
use nats_rows::Bad;
use std::alloc::Global;
use std::test::Fail;

/// Calls of a pool with their answers: its addresses, its options, and the calls in order.
const POOLS: [(&str, &str); 15] = [
    (
        "a default fails,a fails,a servers discover,nats://b,http://c,nats://a servers",
        "failed failed a=2; told!http://c a=2;b=0; ",
    ),
    (
        "a,b default fails,b discover servers",
        "failed told a=0;b=1; ",
    ),
    (
        "a,b,c order fails,a begin next next next next",
        "failed default/default a/0 b/2 c/4 over ",
    ),
    (
        "a,b,c order fails,a fails,a begin next next next next",
        "failed failed default/default a/0 b/2 c/4 over ",
    ),
    (
        "a,b,c default fails,a fails,a begin any any next next set, set,ws://a,nats://b set,a,d servers discover,d \
servers discover,e servers",
        "failed failed default/default one one a/4 over server%20pool%20cannot%20be%20empty \
cannot%20mix%20websocket%20and%20non-websocket%20URLs%20in%20server%20pool set a=2;d=0; told a=2;d=0; \
told a=2;d=0;e=0; ",
    ),
    (
        "a,b,c two begin any any next",
        "default/default one one most ",
    ),
    (
        "a,b,c two fails,a fails,a begin any any next next",
        "failed failed default/default one one most most ",
    ),
    (
        "a,b,c ~ fails,a fails,a set,",
        "failed failed server%20pool%20cannot%20be%20empty ",
    ),
    (
        "a,b,c ~ fails,a fails,a set,ws://a,nats://b",
        "failed failed cannot%20mix%20websocket%20and%20non-websocket%20URLs%20in%20server%20pool ",
    ),
    (
        "a,b,c ~ fails,a fails,a set,a,d servers",
        "failed failed set a=2;d=0; ",
    ),
    (
        "a,b,c ~ fails,a fails,a begin any any next next",
        "failed failed default/default one one a/4 over ",
    ),
    ("a,b,c last begin next next", "callback/callback c/2 over "),
    (
        "a,b,c choice begin next next",
        "callback/callback c/0 over ",
    ),
    (
        "a,b,c other begin next next",
        "not-in-pool/not-in-pool a/0 b/2 ",
    ),
    (
        "a,b,c other begin next next next next",
        "not-in-pool/not-in-pool a/0 b/2 c/4 over ",
    ),
];

/// What options tell that were built call by call.
const BUILT: &str =
    "n no-token hidden token=secret kept kept kept me _MINE a-password 1 false 1 2 3 1 on on on on on on";

/// How often callbacks were asked, and whether a secret is shown.
const ASKED: &str = "begun delays=1 choices=1 offered signs=1 asks=1 hidden";

/// Whether what was appended is what is wanted.
fn is_as_wanted(appended: Result<(), Bad>, out: &String, wanted: &str) -> bool {
    appended.is_ok() && out.as_str() == wanted
}

fn pool_answers(alloc: Global, calls: &str, wanted: &str) -> bool {
    let mut out = String::new(alloc);
    let appended = pool::push_pool(alloc, calls, &mut out);
    is_as_wanted(appended, &out, wanted)
}

fn options_tell(alloc: Global) -> bool {
    let mut out = String::new(alloc);
    let appended = options::push_all(alloc, &mut out);
    is_as_wanted(appended, &out, BUILT)
}

fn callbacks_are_asked(alloc: Global) -> bool {
    let mut out = String::new(alloc);
    let appended = asked::push_all(alloc, &mut out);
    is_as_wanted(appended, &out, ASKED)
}

#[test]
fn what_holds_callbacks(rt: HostRuntime) {
    for (calls, wanted) in POOLS {
        assert!(rt; pool_answers(rt.alloc(), calls, wanted));
    }
    assert!(rt; options_tell(rt.alloc()));
    assert!(rt; callbacks_are_asked(rt.alloc()));
}
