// Decimal figures in lent bytes. A figure has no leading zero and no plus; `-0` is none.
// Each function says what stands in front of the bytes, and gives what is behind it, or says that no
// such thing stands there.
#![tactic(auto)]

ghost use Rattle.std.specs.Prelude.{◌≡◌, ℕ, ◌-◌, ◌^◌, ◌<◌, ◌≤◌, ◌↔◌, List, ◌∷◌, length, negsuc, MatchOption, IsTrue, ◌≢◌};
ghost use Rattle.figures.specs.Figures.{Run, stop_byte, Figured, NoFigure, Pieced, NoPiece, Numbered, NoNumber, Numeric, NoDouble};

// What ends a figure: the space before the next part of its line, or the end of the line.
#[derive(Clone, Copy, PartialEq, Eq, Debug)]
pub enum Stop {
    Space = 32,
    Line = 10,
}

impl Stop {
    pub fn byte(self) -> u8
        ensures { result ≡ stop_byte self }
    {
        self as u8
    }
}

// What is behind a letter in front of `s` that has `stop` behind it, as at the beginning of a line.
pub fn lettered(s: &[u8], letter: u8, stop: Stop) -> Option<&[u8]>
    ensures { MatchOption result ((rest : List ℕ) → s.now ≢ letter ∷ (stop_byte stop ∷ rest))
        (λ rest. s.now ≡ letter ∷ (stop_byte stop ∷ rest.now)) }
{
    let [first, second, rest @ ..] = s else {
        return None;
    };
    if *first != letter || *second != stop.byte() {
        return None;
    }
    Some(rest)
}

// No 64-bit number has more digits.
const DIGITS: usize = 20;

// The run of at most 20 digits in front: the number that they write, and how many there are.
fn run(s: &[u8]) -> (u128, usize)
    ensures { Run s.now result.0 result.1 }
{
    let mut n: u128 = 0;
    for (i, b) in s.iter().enumerate() {
        if i == DIGITS || !b.is_ascii_digit() {
            return (n, i);
        }
        n = 10 * n + u128::from(*b - b'0');
    }
    (n, s.len())
}

// The figure in front of `s`, at most `most`, with `stop` behind it.
#[tactic(auto, using(crate::proofs::Steps::figure_steps))]
pub fn figure(s: &[u8], stop: Stop, most: u64) -> Option<(u64, &[u8])>
    ensures { MatchOption result (NoFigure (stop_byte stop) most s.now)
        (λ p. Figured (stop_byte stop) most s.now p.0 p.1.now) }
{
    let (n, i) = run(s);
    if i == 0 {
        return None;
    }
    if n > u128::from(most) {
        return None;
    }
    if i > 1 && s[0] == b'0' {
        return None;
    }
    let [b, rest @ ..] = &s[i..] else {
        return None;
    };
    if *b != stop.byte() {
        return None;
    }
    Some((n as u64, rest))
}

// A length from `least` to `most`, a space, so many bytes of any kind, and the line's end: the
// bytes.
#[tactic(auto, using(std::proofs::lemmas::Grind::common_steps, crate::proofs::Steps::figure_free))]
pub fn piece(s: &[u8], least: u64, most: u64) -> Option<(&[u8], &[u8])>
    ensures { MatchOption result (NoPiece least most s.now)
        (λ p. Pieced least most s.now p.0.now p.1.now) }
{
    let (n, behind) = figure(s, Stop::Space, most)?;
    if n < least {
        return None;
    }
    let (bytes, end) = behind.split_at_checked(n as usize)?;
    let [b, rest @ ..] = end else {
        return None;
    };
    if *b != Stop::Line.byte() {
        return None;
    }
    Some((bytes, rest))
}

// The magnitude of the least signed 64-bit number.
const HALF: u64 = 1 << 63;

fn negated(m: u64) -> i64
    requires some { 0 < m }
    requires fits { m ≤ 2 ^ 63 }
    ensures { result ≡ negsuc (m - 1) }
{
    -1 - ((m - 1) as i64)
}

// The signed 64-bit figure in front of `s` with `stop` behind it.
pub fn number(s: &[u8], stop: Stop) -> Option<(i64, &[u8])>
    ensures { MatchOption result (NoNumber (stop_byte stop) s.now)
        (λ p. Numbered (stop_byte stop) s.now p.0 p.1.now) }
{
    if let [b'-', digits @ ..] = s {
        let (m, rest) = figure(digits, stop, HALF)?;
        if m == 0 {
            return None;
        }
        return Some((negated(m), rest));
    }
    let (m, rest) = figure(s, stop, HALF - 1)?;
    Some((m as i64, rest))
}

// The bit pattern of infinity, above which only NaNs lie, and the bit of the sign.
const INFINITY: u64 = 0x7ff0_0000_0000_0000;

const SIGN: u64 = 1 << 63;

// Whether the bit pattern of a Double is a number's: infinities are, and only NaNs are not.
fn is_numeric(bits: u64) -> bool
    ensures { IsTrue result ↔ Numeric bits }
{
    bits % SIGN <= INFINITY
}

// The bit pattern of a number in front of `s`, and the end of the line.
#[tactic(auto, using(std::proofs::lemmas::Grind::common_steps, crate::proofs::Steps::figure_free))]
pub fn double(s: &[u8]) -> Option<(u64, &[u8])>
    ensures { MatchOption result (NoDouble s.now)
        (λ p. Figured 10 (2 ^ 64 - 1) s.now p.0 p.1.now × Numeric p.0) }
{
    let (bits, rest) = figure(s, Stop::Line, u64::MAX)?;
    if !is_numeric(bits) {
        return None;
    }
    Some((bits, rest))
}
