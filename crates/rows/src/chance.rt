// Numbers that look like chance and are the same in every run: each depends on a seed and on the part
// of the thing made that it is for.
ghost use Rattle.std.specs.Prelude.{◌-◌, ◌≤◌};

// The low 32 bits of a number, mixed.
fn mixed(x: u64) -> u64 {
    let a = (x % 4294967296) as u32;
    let b = (a ^ a >> 16).wrapping_mul(0x7feb352d);
    let c = (b ^ b >> 15).wrapping_mul(0x846ca68b);
    u64::from(c ^ c >> 16)
}

// The seed of a part.
pub fn seed_of(seed: u64, part: u64) -> u64 {
    mixed(mixed(seed).wrapping_add(part))
}

// A byte for a part.
pub fn byte_of(seed: u64, part: u64) -> u8 {
    (seed_of(seed, part) / 256 % 256) as u8
}

// A mask for a part.
pub fn mask_of(seed: u64, part: u64) -> u16 {
    (seed_of(seed, part) / 256 % 65536) as u16
}

// One of the numbers below n, or 0 where n is 0.
pub fn below(n: u8, seed: u64, part: u64) -> u8
    ensures { result ≤ n - 1 }
{
    byte_of(seed, part) % n.max(1)
}
