//! Versions of a server: the numbers that its text begins with, and whether they reach others.
#![tactic(auto)]

ghost use Rattle.std.specs.Prelude.{◌≡◌, ◌<◌, true, take, drop, length, IfSome};
ghost use Rattle.std.specs.Char.{is_ascii_digit};
ghost use Rattle.std.specs.List.{list_all, position};
ghost use Rattle.nats_versions.specs.Versions.{behind_letter, is_other, digits_len, number, numbered, version_in, or_behind, reaches, is_compatible};

/// The numbers of a version.
#[derive(Clone, Copy, Debug, PartialEq, Eq)]
pub struct Version {
    /// The first number.
    pub major: i64,
    /// The second one.
    pub minor: i64,
    /// The third one.
    pub patch: i64,
}

/// The text without this byte at its front, if it stands there.
fn behind_letter(text: &[u8], letter: u8) -> &[u8]
    ensures { result.now ≡ behind_letter letter text.now }
{
    match text {
        [first, rest @ ..] if *first == letter => rest,
        _ => text,
    }
}

/// Where the first byte stands that is no digit.
fn first_other(text: &[u8]) -> Option<usize>
    ensures place { result ≡ position is_other text.now }
    ensures bound { IfSome result (λ place. place < length text.now) }
{
    text.iter().position(|b| !b.is_ascii_digit())
}

/// The digits at the front, and what stands behind them.
#[tactic(auto, using(crate::proofs::Digits::cuts))]
fn cut_digits(text: &[u8]) -> (&[u8], &[u8])
    ensures front { result.0.now ≡ take (digits_len text.now) text.now }
    ensures rest { result.1.now ≡ drop (digits_len text.now) text.now }
    ensures digits { list_all is_ascii_digit result.0.now ≡ true }
{
    match first_other(text) {
        Some(place) => text.split_at(place),
        None => text.split_at(text.len()),
    }
}

/// The number that digits spell, below 2^63.
fn number(digits: &[u8]) -> Option<i64>
    requires { list_all is_ascii_digit digits.now ≡ true }
    ensures { result ≡ number digits.now }
{
    if digits.is_empty() {
        return Some(0);
    }
    match str::from_utf8(digits) {
        Ok(text) => text.parse().ok(),
        Err(_) => unreachable!(),
    }
}

/// The number at the front, and what stands behind it and one dot.
fn next_number(text: &[u8]) -> (Option<i64>, &[u8])
    ensures number { result.0 ≡ number (take (digits_len text.now) text.now) }
    ensures rest { result.1.now ≡ behind_letter 46 (drop (digits_len text.now) text.now) }
{
    let (digits, rest) = cut_digits(text);
    (number(digits), behind_letter(rest, b'.'))
}

fn numbered(text: &[u8]) -> Option<Version>
    ensures { result ≡ numbered text.now }
{
    let (major, rest) = next_number(text);
    let (minor, rest) = next_number(rest);
    let (patch, _) = next_number(rest);
    Some(Version {
        major: major?,
        minor: minor?,
        patch: patch?,
    })
}

/// The version that a text begins with: an optional `v`, digits, and up to twice an optional dot and digits. A number
/// that is missing reads 0; without a first one, or with one above 2^63-1, there is none.
pub fn version_in(text: &str) -> Option<Version>
    ensures { result ≡ version_in text.now }
{
    let text = behind_letter(text.as_bytes(), b'v');
    match text {
        [first, ..] if first.is_ascii_digit() => numbered(text),
        _ => None,
    }
}

/// Whether a number is larger than another one, or equal to it and so are those behind it.
fn or_behind(number: i64, wanted: i64, behind: bool) -> bool
    ensures { result ≡ or_behind number wanted behind }
{
    wanted < number || (wanted <= number && behind)
}

impl Version {
    /// Whether these numbers reach others: the first numbers that differ decide.
    pub fn reaches(self, wanted: Version) -> bool
        ensures { result ≡ reaches self wanted }
    {
        let minor = or_behind(self.minor, wanted.minor, wanted.patch <= self.patch);
        or_behind(self.major, wanted.major, minor)
    }
}

/// Whether a server of this version has what came with the wanted one. A text that begins with no version has nothing.
/// The crate's test behind `is_server_compatible`, which panics on such a text. It takes no memory.
pub fn is_version_compatible(version: &str, major: i64, minor: i64, patch: i64) -> bool
    ensures { result ≡ is_compatible version.now (record { major = major; minor = minor; patch = patch }) }
{
    match version_in(version) {
        Some(version) => version.reaches(Version {
            major,
            minor,
            patch,
        }),
        None => false,
    }
}

#[cfg(test)]
mod tests {
    use crate::is_version_compatible;

    // The version, the wanted numbers, and whether they are reached.
    const ROWS: [(&str, i64, i64, i64, bool); 12] = [
        ("2.10.18", 2, 10, 18, true),
        ("2.10.18", 2, 9, 99, true),
        ("2.10.18", 2, 11, 0, false),
        ("v2.10.18-beta", 2, 10, 18, true),
        ("2", 2, 0, 0, true),
        ("2", 2, 0, 1, false),
        ("210", 2, 11, 0, true),
        ("3", 2, 99, 99, true),
        ("", 0, 0, 0, false),
        ("vv2", 0, 0, 0, false),
        ("2.9223372036854775808", 1, 0, 0, false),
        ("9223372036854775807", 3, 0, 0, true),
    ];

    #[test]
    fn rows_are_as_expected(rt: HostRuntime) {
        for (version, major, minor, patch, wanted) in ROWS {
            assert_eq!(rt; is_version_compatible(version, major, minor, patch), wanted);
        }
    }
}
