// Masks of sixteen jobs: their bits, and masks made from others. They know no room.
#![tactic(auto)]

ghost use Rattle.std.specs.Prelude.{◌^◌, ◌<◌, ◌≡◌, cond};
ghost use Rattle.std.specs.Int.Bits.{bit_or};
ghost use Rattle.laws.specs.Bits.{bit};
ghost use Rattle.laws.specs.Words.{Highest, Lowest, Without};

// Bit i of a mask: 1 if it has job i, else 0.
#[tactic(auto, unfolding(laws::specs::Bits::bit))]
pub fn bit(m: u16, i: usize) -> u8
    requires { i < 16 }
    ensures { result ≡ bit m i }
{
    ((m >> i) % 2) as u8
}

// The place of the lowest job of a mask.
pub fn lowest(m: u16) -> usize
    requires { 0 < m }
    ensures { (result < 16) × Lowest m result }
{
    m.trailing_zeros() as usize
}

// The place of the highest job of a mask.
pub fn highest(m: u16) -> usize
    requires { 0 < m }
    ensures { (result < 16) × Highest m result }
{
    m.ilog2() as usize
}

// The mask with job i, if it is to be added; else the mask.
pub fn with(m: u16, i: usize, add: bool) -> u16
    requires { i < 16 }
    ensures { result ≡ cond add (bit_or m (2 ^ i)) m }
{
    if add { m | power(i) } else { m }
}

// The mask of one job.
pub fn power(i: usize) -> u16
    requires { i < 16 }
    ensures { result ≡ 2 ^ i }
{
    1 << i
}

// The jobs of a that b has not.
pub fn without(a: u16, b: u16) -> u16
    ensures { Without a b result }
{
    a & !b
}
