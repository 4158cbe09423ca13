// Sets of slots of the table of definitions.
ghost use Rattle.std.specs.Prelude.{◌≡◌, ℕ, ◌%◌, ◌^◌, false, ◌&&◌, ◌||◌, ltb, if◌then◌else◌, ◌==◌, bit_and, bit_or, nat_lt};
ghost use Rattle.item.specs.Sets.{bit, in_set, empty_set};

const HALF: usize = 128;

// The slots 0 to 127 are bits of `low`, those from 128 to 255 bits of `high`.
#[derive(Clone, Copy, PartialEq, Debug)]
pub struct HideSet {
    pub(crate) low: u128,
    pub(crate) high: u128,
}

impl HideSet {
    // No slots.
    pub fn empty() -> HideSet
        ensures none { (k : ℕ) → in_set result k ≡ false }
        ensures same { result ≡ empty_set }
    {
        HideSet { low: 0, high: 0 }
    }

    pub fn contains(self, slot: usize) -> bool
        ensures { result ≡ in_set self slot }
    {
        if slot < HALF {
            has_bit(self.low, slot)
        } else {
            has_bit(self.high, slot - HALF)
        }
    }

    // The slot more; the same set for a slot from 256 on.
    pub fn with(self, slot: usize) -> HideSet
        ensures { (k : ℕ) → in_set result k ≡ ((k == slot && nat_lt slot 256) || in_set self k) }
    {
        if slot < HALF {
            HideSet {
                low: either_bits(self.low, single_bit(slot)),
                high: self.high,
            }
        } else {
            HideSet {
                low: self.low,
                high: either_bits(self.high, single_bit(slot - HALF)),
            }
        }
    }

    // The slots of both.
    pub fn shared(self, other: HideSet) -> HideSet
        ensures { (k : ℕ) → in_set result k ≡ (in_set self k && in_set other k) }
    {
        HideSet {
            low: both_bits(self.low, other.low),
            high: both_bits(self.high, other.high),
        }
    }

    // The slots of either.
    pub fn joined(self, other: HideSet) -> HideSet
        ensures { (k : ℕ) → in_set result k ≡ (in_set self k || in_set other k) }
    {
        HideSet {
            low: either_bits(self.low, other.low),
            high: either_bits(self.high, other.high),
        }
    }
}

fn both_bits(a: u128, b: u128) -> u128
    ensures { result ≡ bit_and a b }
{
    a & b
}

fn either_bits(a: u128, b: u128) -> u128
    ensures { result ≡ bit_or a b }
{
    a | b
}

fn has_bit(bits: u128, place: usize) -> bool
    ensures { result ≡ bit bits place }
{
    place < HALF && is_odd(bits >> place)
}

fn is_odd(n: u128) -> bool
    ensures { result ≡ (n % 2 == 1) }
{
    n % 2 == 1
}

// Nothing from place 128 on.
fn single_bit(place: usize) -> u128
    ensures { result ≡ (if ltb place 128 then 2 ^ place else 0) }
{
    if place < HALF { 1 << place } else { 0 }
}
