//! The handshake of a link, as a machine that is fed what the server sends and says what is to be written.
ghost use Rattle.std.specs.Prelude.{◌≡◌, ◌≤◌, [], length, take, drop, option_map, IfOk, OnOk, OnErr};
ghost use Rattle.nats_pool.specs.Auths.{auth_value};
ghost use Rattle.nats_handshake.specs.declared.error.ConnectErrorKind.TheVariants as kind;
ghost use Rattle.nats_handshake.specs.Course.{greeting_at, greeted_within, course, behind_out};
ghost use Rattle.nats_handshake.specs.Credentials.{SignerAnswers, AuthAnswers, Offers};
ghost use Rattle.nats_handshake.specs.Shaking.{IsNew, Opens, Welcomes, opening, Shakes, Took, WentOn, Entered, Hears, operations_most, Heeds, Settles, FedOpen, Feeds, Expires, ExpiresOpen, advanced, closed, is_late, is_wanting, end_cause, finished, by_content, left_at, left_by, refused_of, with_bytes};
ghost use Rattle.nats_handshake.specs.Following.{Followed};
ghost use Rattle.nats_lines.specs.Operations.{front};

use crate::course::{
    Course, Greeting, HANDSHAKE_OPERATIONS, Verdict, begun, behind, read_course, read_greeting,
};
use crate::error::{ConnectError, ConnectErrorKind, Refusal};
use crate::greeting::connect_info;
use crate::offer::credentials;
use crate::stage::{Shake, Stage, staged};
use nats_connect::connect_text;
use nats_names::{NoMemory, Text};
use nats_pool::{Auth, ConnectOptions, ServerAddr, ServerList};
use nats_wire::ServerInfo;
use std::alloc::Global;
use std::marker::Model;
use std::mem;

/// What asks for the PONG that ends a handshake.
const PING: &[u8] = b"PING\r\n";

/// The handshake of a link: it is fed what the server sends and says what is to be written. It reads and writes
/// nothing itself. Own type of this library: the crate does these steps on its socket.
#[derive(Drop)]
pub struct Handshake {
    stage: Stage,
    unread: Vec<u8>,
    out: Vec<u8>,
    start: u64,
    timeout: u64,
    is_tls: bool,
    skipped: Vec<Text>,
}

impl Model for Handshake {
    ghost use Rattle.nats_handshake.specs.Shaking.{Talk};

    ghost Value = { Talk };

    ghost view = { λ h. record {
      stage = h.stage;
      unread = h.unread.items;
      out = h.out.items;
      start = h.start;
      timeout = h.timeout;
      is_tls = h.is_tls;
      skipped = h.skipped.items;
    } };
}

// What is read no longer stands in the text.
fn drop_front(text: &mut Vec<u8>, len: usize)
    requires { len ≤ length text.old.items }
    ensures { text.new.items ≡ drop len text.old.items }
{
    let left = text.len() - len;
    text.rotate_left(len);
    text.truncate(left);
}

// The text of a client that takes part.
#[tactic(auto, unfolding(crate::specs::Shaking::opening))]
fn opening(alloc: Global, options: &ConnectOptions, auth: &Auth) -> Result<Vec<u8>, NoMemory>
    ensures { IfOk result (λ out. out.items ≡ opening options.now.name options.now.no_echo (auth_value auth.now)) }
{
    let info = connect_info(alloc, options, auth)?;
    let mut out = connect_text(alloc, &info)?;
    out.extend_from_slice(PING)?;
    Ok(out)
}

// What a client writes for an INFO's nonce, or why its signer or its callback refused.
fn offer_opening(
    alloc: Global,
    info: &ServerInfo,
    options: &ConnectOptions,
) -> Result<Vec<u8>, Refusal>
    ensures { Opens (Offers SignerAnswers AuthAnswers options.now.signer options.now.auth_callback
        (auth_value options.now.auth))
        options.now.name options.now.no_echo info.now.nonce result }
{
    match credentials(alloc, options, info.nonce.as_str().as_bytes()) {
        Ok(auth) => Ok(opening(alloc, options, &auth)?),
        Err(refusal) => Err(refusal),
    }
}

// What a client writes for an INFO, with the texts that the pool skipped, or why it ends the handshake.
fn welcome<P: ServerList>(
    alloc: Global,
    info: &ServerInfo,
    is_tls: bool,
    options: &ConnectOptions,
    pool: &mut P,
) -> Result<(Vec<u8>, Vec<Text>), Refusal>
    ensures { Welcomes (P.Takes pool.old pool.new) (pool.new ≡ pool.old)
        (Offers SignerAnswers AuthAnswers options.now.signer options.now.auth_callback (auth_value options.now.auth))
        options.now.tls_required options.now.name options.now.no_echo is_tls info.now result }
{
    if options.tls_required || is_tls || info.tls_required {
        return Err(Refusal::new(ConnectErrorKind::Tls));
    }
    match pool.take_in(alloc, info.connect_urls.as_slice()) {
        Ok(skipped) => match offer_opening(alloc, info, options) {
            Ok(out) => Ok((out, skipped)),
            Err(refusal) => Err(refusal),
        },
        Err(NoMemory) => Err(Refusal::new(ConnectErrorKind::NoMemory)),
    }
}

fn is_wanting(kind: ConnectErrorKind) -> bool
    ensures { result ≡ is_wanting kind }
{
    match kind {
        ConnectErrorKind::NoMemory => true,
        ConnectErrorKind::ServerParse
        | ConnectErrorKind::Dns
        | ConnectErrorKind::Authentication
        | ConnectErrorKind::AuthorizationViolation
        | ConnectErrorKind::TimedOut
        | ConnectErrorKind::Tls
        | ConnectErrorKind::Io
        | ConnectErrorKind::MaxReconnects => false,
    }
}

impl Verdict {
    // The answer, or the refusal.
    fn shake(self) -> Result<Shake, Refusal>
        ensures { Shakes self result }
    {
        match self {
            Verdict::Waits => Ok(Shake::More),
            Verdict::Succeeds => Ok(Shake::Done),
            Verdict::Refuses(refusal) => Err(refusal),
        }
    }
}

impl Handshake {
    /// The handshake of a link to this address, which began at `start` and may take the options' time, both in
    /// milliseconds. It takes no memory.
    ///
    /// # Errors
    ///
    /// `ServerParse` exactly where the address is of `ws` or `wss`, which this library has not.
    pub fn new(
        alloc: Global,
        addr: &ServerAddr,
        options: &ConnectOptions,
        start: u64,
    ) -> Result<Handshake, ConnectError>
        ensures { IsNew addr.now options.now.connection_timeout start result }
    {
        if addr.is_websocket() {
            return Err(ConnectError::new(ConnectErrorKind::ServerParse));
        }
        Ok(Handshake {
            stage: Stage::Greets,
            unread: Vec::new(alloc),
            out: Vec::new(alloc),
            start,
            timeout: options.connection_timeout,
            is_tls: addr.tls_required(),
            skipped: Vec::new(alloc),
        })
    }

    // What a course comes to: its bytes are read and its answers wait. A refusal changes nothing.
    fn take(&mut self, course: Course) -> Result<Shake, Refusal>
        requires { course.taken ≤ length self.old.unread }
        ensures { Took course self.old result self.new }
    {
        let Course {
            verdict,
            taken,
            left: _,
            out,
        } = course;
        let shake = verdict.shake()?;
        self.out.extend_from_slice(out.as_slice())?;
        drop_front(&mut self.unread, taken);
        Ok(shake)
    }

    // One that knows the INFO is further.
    fn advance(&mut self, left: usize, shake: Shake)
        ensures { self.new ≡ record self.old { stage = advanced self.old.stage left shake } }
    {
        self.stage.advance(left, shake);
    }

    // The answer of one that knows the INFO, with so many operations to come.
    fn go_on(&mut self, alloc: Global, left: usize) -> Result<Shake, Refusal>
        ensures { WentOn left self.old result self.new }
    {
        let course = read_course(alloc, self.unread.as_slice(), left, Vec::new(alloc))?;
        let left = course.left;
        let shake = self.take(course)?;
        self.advance(left, shake);
        Ok(shake)
    }

    // What the text behind an INFO of `len` bytes comes to, where `out` is what opens: with how many operations to
    // come. A refusal changes nothing.
    fn follow(&mut self, alloc: Global, len: usize, out: Vec<u8>) -> Result<(usize, Shake), Refusal>
        requires { len ≤ length self.old.unread }
        ensures { Followed (behind_out out.items (course operations_most (drop len self.old.unread)))
            self.old result self.new }
    {
        let text = behind(self.unread.as_slice(), len);
        let course = read_course(alloc, text, HANDSHAKE_OPERATIONS, out)?;
        let left = course.left;
        let shake = self.take(begun(len, course))?;
        Ok((left, shake))
    }

    // The INFO is known from now on, and which of its texts were skipped.
    fn know(&mut self, stage: Stage, skipped: Vec<Text>)
        ensures { self.new ≡ record self.old { stage = stage; skipped = skipped.items } }
    {
        self.stage.put(stage);
        self.skipped = skipped;
    }

    // What the text behind an INFO of `len` bytes comes to, which is known from now on. A refusal changes nothing.
    fn enter(
        &mut self,
        alloc: Global,
        info: ServerInfo,
        len: usize,
        out: Vec<u8>,
        skipped: Vec<Text>,
    ) -> Result<Shake, Refusal>
        requires { len ≤ length self.old.unread }
        ensures { Entered info (behind_out out.items (course operations_most (drop len self.old.unread)))
            skipped.items self.old result self.new }
    {
        let (left, shake) = self.follow(alloc, len, out)?;
        self.know(staged(info, left, shake), skipped);
        Ok(shake)
    }

    // The first thing that the server says.
    fn greeting(&self, alloc: Global) -> Result<Greeting, NoMemory>
        ensures says { IfOk result (λ g. g ≡ greeting_at (front self.now.unread)) }
        ensures fits { IfOk result (λ g. greeted_within g ≤ length self.now.unread) }
    {
        read_greeting(alloc, self.unread.as_slice())
    }

    // Whether the address wants TLS.
    fn wants_tls(&self) -> bool
        ensures { result ≡ self.now.is_tls }
    {
        self.is_tls
    }

    // What comes of the first thing that the server says.
    fn greet<P: ServerList>(
        &mut self,
        alloc: Global,
        options: &ConnectOptions,
        pool: &mut P,
    ) -> Result<Shake, Refusal>
        ensures { Hears (P.Takes pool.old pool.new) (pool.new ≡ pool.old)
            (Offers SignerAnswers AuthAnswers options.now.signer options.now.auth_callback
            (auth_value options.now.auth))
            options.now.tls_required options.now.name options.now.no_echo
            (greeting_at (front self.old.unread)) self.old result self.new }
    {
        match self.greeting(alloc) {
            Ok(Greeting::Waits) => Ok(Shake::More),
            Ok(Greeting::Refuses(refusal)) => Err(refusal),
            Ok(Greeting::Greets(info, len)) => {
                match welcome(alloc, &info, self.wants_tls(), options, pool) {
                    Ok((out, skipped)) => self.enter(alloc, info, len, out, skipped),
                    Err(refusal) => Err(refusal),
                }
            }
            Err(NoMemory) => Err(Refusal::new(ConnectErrorKind::NoMemory)),
        }
    }

    // What comes of the bytes that are there. A refusal changes nothing.
    fn heed<P: ServerList>(
        &mut self,
        alloc: Global,
        options: &ConnectOptions,
        pool: &mut P,
    ) -> Result<Shake, Refusal>
        ensures { Heeds (P.Takes pool.old pool.new) (pool.new ≡ pool.old)
            (Offers SignerAnswers AuthAnswers options.now.signer options.now.auth_callback
            (auth_value options.now.auth))
            options.now.tls_required options.now.name options.now.no_echo
            self.old.stage self.old result self.new }
    {
        match &self.stage {
            Stage::Greets => self.greet(alloc, options, pool),
            Stage::Asks { info: _, left } => {
                let left = *left;
                self.go_on(alloc, left)
            }
            Stage::Linked { info: _ } => Ok(Shake::Done),
            Stage::Refused(kind) => Err(Refusal::new(*kind)),
        }
    }

    // A refusal is kept, but for want of memory, after which the handshake is as it was before the bytes behind the
    // first `before` came.
    fn leave(&mut self, kind: ConnectErrorKind, before: usize)
        ensures { self.new ≡ left_by kind (record self.old { unread = take before self.old.unread }) self.old }
    {
        if is_wanting(kind) {
            self.unread.truncate(before);
        } else {
            self.stage.put(Stage::Refused(kind));
        }
    }

    /// Takes what the server sent, cut anywhere, and answers whether more is due. `out` then has what is to be written.
    ///
    /// The server's first operation is its INFO. Then CONNECT and PING are to be written, and the server's
    /// operations are read until its PONG comes, 16 at most: `+OK` and a further INFO are skipped, a PING is
    /// answered. What comes behind the PONG is the rest. The addresses that the INFO tells of are put into the
    /// pool, as `Pool::discover` does; `skipped` has those of its texts that spell no address.
    ///
    /// # Errors
    ///
    /// `Io` where the first operation is another, where a message or what is no operation comes, where the server
    /// sends an error, or no PONG; the cause says which. `AuthorizationViolation` where the server says so. `Tls`
    /// where TLS is wanted by an option, the scheme of the address or the INFO. `Authentication` where the signer or
    /// the authentication callback refuses. After each of these the handshake refuses with the same kind. `NoMemory`
    /// leaves the handshake as it was; the pool may have the INFO's addresses.
    pub fn feed<P: ServerList>(
        &mut self,
        alloc: Global,
        bytes: &[u8],
        options: &ConnectOptions,
        pool: &mut P,
    ) -> Result<Shake, ConnectError>
        ensures { Feeds (P.Takes pool.old pool.new) (pool.new ≡ pool.old)
            (Offers SignerAnswers AuthAnswers options.now.signer options.now.auth_callback
            (auth_value options.now.auth))
            options.now.tls_required options.now.name options.now.no_echo
            self.old bytes.now result self.new }
    {
        match self.refused() {
            Some(kind) => Err(ConnectError::new(kind)),
            None => self.feed_open(alloc, bytes, options, pool),
        }
    }

    // The kind by which it was refused.
    fn refused(&self) -> Option<ConnectErrorKind>
        ensures { result ≡ refused_of self.now.stage }
    {
        self.stage.refused()
    }

    // How many bytes no operation took yet.
    fn unread_len(&self) -> usize
        ensures { result ≡ length self.now.unread }
    {
        self.unread.len()
    }

    // Takes bytes, whole or not at all.
    fn append(&mut self, bytes: &[u8]) -> Result<(), NoMemory>
        ensures ok { OnOk result (self.new ≡ with_bytes self.old bytes.now) }
        ensures err { OnErr result (self.new ≡ self.old) }
    {
        self.unread.extend_from_slice(bytes)?;
        Ok(())
    }

    // The same for one that was not refused.
    fn feed_open<P: ServerList>(
        &mut self,
        alloc: Global,
        bytes: &[u8],
        options: &ConnectOptions,
        pool: &mut P,
    ) -> Result<Shake, ConnectError>
        ensures { FedOpen (P.Takes pool.old pool.new) (pool.new ≡ pool.old)
            (Offers SignerAnswers AuthAnswers options.now.signer options.now.auth_callback
            (auth_value options.now.auth))
            options.now.tls_required options.now.name options.now.no_echo
            self.old.stage self.old bytes.now result self.new }
    {
        let before = self.unread_len();
        match self.append(bytes) {
            Ok(()) => self.settle(alloc, before, options, pool),
            Err(NoMemory) => Err(ConnectError::new(ConnectErrorKind::NoMemory)),
        }
    }

    // The same once the bytes are there, behind the first `before`.
    fn settle<P: ServerList>(
        &mut self,
        alloc: Global,
        before: usize,
        options: &ConnectOptions,
        pool: &mut P,
    ) -> Result<Shake, ConnectError>
        ensures { Settles (P.Takes pool.old pool.new) (pool.new ≡ pool.old)
            (Offers SignerAnswers AuthAnswers options.now.signer options.now.auth_callback
            (auth_value options.now.auth))
            options.now.tls_required options.now.name options.now.no_echo
            self.old.stage before self.old result self.new }
    {
        match self.heed(alloc, options, pool) {
            Ok(shake) => Ok(shake),
            Err(refusal) => {
                self.leave(refusal.kind(), before);
                Err(refusal.into_error())
            }
        }
    }

    /// The link ended: the error is of kind `Io`. A handshake that did not succeed refuses from now on.
    pub fn end(&mut self) -> ConnectError
        ensures error { result ≡ (kind.Io, Some (end_cause self.old.stage)) }
        ensures after { self.new ≡ record self.old { stage = closed self.old.stage kind.Io } }
    {
        let cause = self.stage.end_cause();
        self.close(ConnectErrorKind::Io);
        ConnectError::with_source(ConnectErrorKind::Io, cause)
    }

    fn close(&mut self, kind: ConnectErrorKind)
        ensures { self.new ≡ record self.old { stage = closed self.old.stage kind } }
    {
        self.stage.close(kind);
    }

    /// Looks at the clock: `TimedOut` exactly where `now` is the options' time past the start or later, and the
    /// handshake did not end before. It refuses with the kind that it has where it was refused. Milliseconds.
    pub fn expire(&mut self, now: u64) -> Result<(), ConnectError>
        ensures { Expires now self.old result self.new }
    {
        match &self.stage {
            Stage::Refused(kind) => Err(ConnectError::new(*kind)),
            Stage::Linked { .. } => Ok(()),
            Stage::Greets => self.expire_open(now),
            Stage::Asks { .. } => self.expire_open(now),
        }
    }

    // The same of one that is still open.
    fn expire_open(&mut self, now: u64) -> Result<(), ConnectError>
        ensures { ExpiresOpen (is_late self.old now) self.old result self.new }
    {
        if !self.is_late(now) {
            return Ok(());
        }
        self.stage.put(Stage::Refused(ConnectErrorKind::TimedOut));
        Err(ConnectError::new(ConnectErrorKind::TimedOut))
    }

    fn is_late(&self, now: u64) -> bool
        ensures { result ≡ is_late self.now now }
    {
        now >= self.start && now - self.start >= self.timeout
    }

    /// How many milliseconds are left at `now` of the time that it may take; none where that is over.
    pub fn left(&self, now: u64) -> u64
        ensures { result ≡ left_at self.now now }
    {
        self.timeout.saturating_sub(now.saturating_sub(self.start))
    }

    /// What is to be written.
    pub fn out(&self) -> &[u8]
        ensures { result.now ≡ self.now.out }
    {
        self.out.as_slice()
    }

    /// The first `n` bytes of `out` were written.
    pub fn sent(&mut self, n: usize)
        requires { n ≤ length self.old.out }
        ensures { self.new ≡ record self.old { out = drop n self.old.out } }
    {
        drop_front(&mut self.out, n);
    }

    /// Those of the INFO's texts of addresses that spell none, in order; none before the INFO.
    pub fn skipped(&self) -> &[Text]
        ensures { result.now ≡ self.now.skipped }
    {
        self.skipped.as_slice()
    }

    /// Gives away what `skipped` tells of, which tells of none from now on. Own call of this library.
    pub fn take_skipped(&mut self, alloc: Global) -> Vec<Text>
        ensures given { result.items ≡ self.old.skipped }
        ensures after { self.new ≡ record self.old { skipped = [] } }
    {
        mem::replace(&mut self.skipped, Vec::new(alloc))
    }

    /// The INFO, and the bytes that came behind the PONG; none exactly where the handshake has not succeeded.
    pub fn finish(self) -> Option<(ServerInfo, Vec<u8>)>
        ensures { option_map by_content result ≡ finished self.stage self.unread }
    {
        let Handshake { stage, unread, .. } = self;
        match stage {
            Stage::Linked { info } => Some((info, unread)),
            Stage::Greets | Stage::Asks { .. } | Stage::Refused(_) => None,
        }
    }
}
