//! Status codes: the number in the first line of a message's headers.
ghost use Rattle.std.specs.Prelude.{◌≡◌, ◌↔◌, ◌≤◌, ◌&&◌, IfOk, IsOk, Some, codes, nat_le};
ghost use Rattle.std.specs.Result.{result_ok};
ghost use Rattle.std.specs.Fmt.{decimal};
ghost use Rattle.nats_names.specs.Status.{status_of};

use std::error::Error;
use std::fmt;
use std::marker::Model;

/// The least status code. The crate's rule.
const LEAST_STATUS: u16 = 100;

/// The greatest status code. The crate's rule.
const GREATEST_STATUS: u16 = 999;

/// A status code, 100 to 999, as a server sends it in place of a message. Contracts see it as its number, by which
/// codes are compared, ordered and hashed. The crate's `StatusCode`.
#[derive(Clone, Copy, PartialEq, Eq, PartialOrd, Ord, Hash)]
pub struct StatusCode {
    number: u16,
}

impl Model for StatusCode {
    ghost use Rattle.std.specs.Prelude.{ℕ, ◌≤◌};

    ghost Value = { ℕ };

    ghost view = { λ s. s.number };

    ghost invariant = { λ s. (100 ≤ s.number) × (s.number ≤ 999) };

    ghost inverse = { λ number. record { number = number } };
}

/// A number or a text that is no status code. The crate's `InvalidStatusCode`.
#[derive(Clone, Copy, Debug, PartialEq, Eq)]
pub struct InvalidStatusCode;

impl fmt::Display for InvalidStatusCode {
    ghost output = { λ _. Some (codes "invalid status code") };

    fn fmt<W: fmt::Write>(&self, f: &mut fmt::Formatter<W>) -> fmt::Result {
        write!(f, "invalid status code")
    }
}

impl Error for InvalidStatusCode {}

impl StatusCode {
    /// 100: a server is idle, and says so. The crate's constant, as each of the following.
    pub const IDLE_HEARTBEAT: StatusCode = StatusCode { number: 100 };

    /// 200: all is well.
    pub const OK: StatusCode = StatusCode { number: 200 };

    /// 404: what was asked for is not there.
    pub const NOT_FOUND: StatusCode = StatusCode { number: 404 };

    /// 408: the request ran out of time.
    pub const TIMEOUT: StatusCode = StatusCode { number: 408 };

    /// 409: the request was ended by the server.
    pub const REQUEST_TERMINATED: StatusCode = StatusCode { number: 409 };

    /// 423: the request names another pin than the consumer has.
    pub const PIN_ID_MISMATCH: StatusCode = StatusCode { number: 423 };

    /// 503: nobody listens to the subject of the request.
    pub const NO_RESPONDERS: StatusCode = StatusCode { number: 503 };

    /// The code of this number: `Err` exactly outside 100 to 999. The crate's call.
    pub fn from_u16(src: u16) -> Result<StatusCode, InvalidStatusCode>
        ensures ok { IfOk result (λ s. s ≡ src) }
        ensures exact { IsOk result ↔ ((100 ≤ src) × (src ≤ 999)) }
    {
        if (LEAST_STATUS..=GREATEST_STATUS).contains(&src) {
            Ok(StatusCode { number: src })
        } else {
            Err(InvalidStatusCode)
        }
    }

    /// The code that a text spells: `Ok` exactly on three ASCII digits, the first not `0`. The crate's call.
    pub fn from_bytes(src: &[u8]) -> Result<StatusCode, InvalidStatusCode>
        ensures { result_ok result ≡ status_of src.now }
    {
        match src {
            [
                first @ b'1'..=b'9',
                second @ b'0'..=b'9',
                third @ b'0'..=b'9',
            ] => Ok(StatusCode {
                number: 100 * u16::from(*first - b'0')
                    + 10 * u16::from(*second - b'0')
                    + u16::from(*third - b'0'),
            }),
            _ => Err(InvalidStatusCode),
        }
    }

    /// The number.
    pub fn as_u16(&self) -> u16
        ensures number { result ≡ self.now }
        ensures least { 100 ≤ result }
        ensures greatest { result ≤ 999 }
    {
        self.number
    }

    /// Whether it is 100 to 199.
    pub fn is_informational(&self) -> bool
        ensures { result ≡ (nat_le 100 self.now && nat_le self.now 199) }
    {
        (100..=199).contains(&self.number)
    }

    /// Whether it is 200 to 299.
    pub fn is_success(&self) -> bool
        ensures { result ≡ (nat_le 200 self.now && nat_le self.now 299) }
    {
        (200..=299).contains(&self.number)
    }

    /// Whether it is 300 to 399.
    pub fn is_redirection(&self) -> bool
        ensures { result ≡ (nat_le 300 self.now && nat_le self.now 399) }
    {
        (300..=399).contains(&self.number)
    }

    /// Whether it is 400 to 499.
    pub fn is_client_error(&self) -> bool
        ensures { result ≡ (nat_le 400 self.now && nat_le self.now 499) }
    {
        (400..=499).contains(&self.number)
    }

    /// Whether it is 500 to 599.
    pub fn is_server_error(&self) -> bool
        ensures { result ≡ (nat_le 500 self.now && nat_le self.now 599) }
    {
        (500..=599).contains(&self.number)
    }
}

/// The code OK. The crate's `Default`.
impl Default for StatusCode {
    ghost is_default = { λ s. s ≡ 200 };

    fn default() -> StatusCode {
        StatusCode::OK
    }
}

/// Prints the number. The crate's `Display`.
impl fmt::Display for StatusCode {
    ghost output = { λ s. Some (decimal s) };

    fn fmt<W: fmt::Write>(&self, f: &mut fmt::Formatter<W>) -> fmt::Result {
        fmt::Display::fmt(&self.number, f)
    }
}

/// Prints the number. The crate's `Debug`.
impl fmt::Debug for StatusCode {
    fn fmt<W: fmt::Write>(&self, f: &mut fmt::Formatter<W>) -> fmt::Result {
        fmt::Display::fmt(&self.number, f)
    }
}
