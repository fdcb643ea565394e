// Versions and sequence numbers: how far back a number lies on the ring 1 to M, which of two numbers is newer, and the
// number check with its verdict. Nothing above this crate compares sequence numbers in any other way.
//
// Every function is total: a number outside 1 to M is taken modulo M.
#![tactic(auto)]

ghost use Rattle.std.specs.Prelude.{◌≡◌, cond, ◌-◌, ◌%◌, ◌<◌, eqb, ltb};
ghost use Rattle.ring.specs.declared.Verdict.TheVariants.{Repeat, Next, Gap};
ghost use Rattle.ring.specs.Ring.{M as last, back as back_of, newer as is_newer, is_number};
ghost use Rattle.ring.specs.Check.{check, verdict_number, verdict_skipped, verdict_age, is_repeat, is_unchecked};

// V_SEQ: any 32-bit number.
#[repr(C)]
#[derive(Clone, Copy, PartialEq, Eq)]
pub struct Version(pub u32);

// SEQ: 1 to M, used cyclically.
#[repr(C)]
#[derive(Clone, Copy, PartialEq, Eq)]
pub struct Number(pub u32);

pub const M: u32 = 2_147_483_647;

// M is odd: of the other numbers of the ring half lie up to here on from one, and half beyond.
const HALF: u32 = 1_073_741_823;

// What the number check says of a message. A repeat is refused, so it has no verdict of its own in what is printed.
#[derive(Clone, Copy, PartialEq, Eq)]
pub enum Verdict {
    Unchecked,
    First,
    Restart,
    // how far back its number lies, 0 to N1 - 1
    Repeat(u32),
    Next,
    // how many numbers were skipped
    Gap(u32),
}

impl Number {
    // Whether it is 1 to M.
    pub fn within(self) -> bool
        ensures { result ≡ is_number self.0 }
    {
        (1..=M).contains(&self.0)
    }
}

// How far back s lies behind r, 0 to M - 1.
#[tactic(auto, unfolding(crate::specs::Ring::remainder))]
pub fn back(r: Number, s: Number) -> u32
    ensures { result ≡ back_of r s }
{
    let a = on_ring(r.0);
    let b = on_ring(s.0);
    if b <= a { a - b } else { a + (M - b) }
}

// Modulo M. What is below M, as nearly every number is, is not divided.
fn on_ring(x: u32) -> u32
    ensures { result ≡ x % last }
{
    if x < M { x } else { x % M }
}

// Whether a is newer than b: 1 to HALF on from it. Of one number, as with every piece that joins, no way is measured.
pub fn newer(a: Number, b: Number) -> bool
    ensures { result ≡ is_newer a b }
{
    if a == b {
        return false;
    }
    let d = back(a, b);
    (1..=HALF).contains(&d)
}

// What the last delivered version rv and number r make of a message with version v and number s.
pub fn number_check(n1: u16, rv: Version, r: Number, v: Version, s: Number) -> Verdict
    ensures { result ≡ check n1 rv r v s }
{
    if (v.0 == 0) & (s.0 == 1) {
        return Verdict::Unchecked;
    }
    if rv.0 == 0 {
        return Verdict::First;
    }
    if v != rv {
        return Verdict::Restart;
    }
    by_distance(n1, back(r, s))
}

// Rule 4, for a number that lies d back.
fn by_distance(n1: u16, d: u32) -> Verdict
    requires { d < last }
    ensures { result ≡ cond (ltb d n1) (Repeat d) (cond (eqb d (last - 1)) Next (Gap (last - 1 - d))) }
{
    if d < n1 as u32 {
        return Verdict::Repeat(d);
    }
    if d == M - 1 {
        return Verdict::Next;
    }
    Verdict::Gap(M - 1 - d)
}

impl Verdict {
    // The number that is printed: 0 where nothing is delivered.
    pub fn printed(self) -> u8
        ensures { result ≡ verdict_number self }
    {
        match self {
            Verdict::First => 1,
            Verdict::Next => 2,
            Verdict::Restart => 3,
            Verdict::Gap(_) => 4,
            Verdict::Unchecked => 5,
            Verdict::Repeat(_) => 0,
        }
    }

    // How many numbers were skipped.
    pub fn skipped(self) -> u32
        ensures { result ≡ verdict_skipped self }
    {
        match self {
            Verdict::Gap(k) => k,
            _ => 0,
        }
    }

    // How far back a repeat lies.
    pub fn age(self) -> u32
        ensures { result ≡ verdict_age self }
    {
        match self {
            Verdict::Repeat(d) => d,
            _ => 0,
        }
    }

    pub fn is_repeat(self) -> bool
        ensures { result ≡ is_repeat self }
    {
        matches!(self, Verdict::Repeat(_))
    }

    pub fn is_unchecked(self) -> bool
        ensures { result ≡ is_unchecked self }
    {
        matches!(self, Verdict::Unchecked)
    }
}
