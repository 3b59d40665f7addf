// Lowercase hexadecimal, two digits a byte, in lines closed by byte 0a: read from a text and put into a buffer.
#![tactic(auto)]

ghost use Rattle.std.specs.Prelude.{◌+◌, ◌*◌, ◌≤◌, ◌<◌, ◌≡◌, ◌↔◌, [], ◌∷◌, length, IsTrue};
ghost use Rattle.paper.specs.Text.{digit, two_digits, line, ending};
ghost use Rattle.digits.specs.Digits.{DigitValue, ByteAt, Stands, Puts};

// ---- Read from a text

// The byte whose two digits stand at a place of a text, if two digits stand there.
pub fn byte_at(text: &[u8], at: usize) -> Option<u8>
    ensures { ByteAt text.now at result }
{
    let [high, low, ..] = text.get(at..)? else {
        return None;
    };
    Some(value(*high)? * 16 + value(*low)?)
}

// The value of a lowercase hexadecimal digit, if the byte is one.
#[tactic(auto, unfolding(paper::specs::Text::digit))]
pub fn value(b: u8) -> Option<u8>
    ensures { DigitValue b result }
{
    match b {
        b'0'..=b'9' => Some(b - b'0'),
        b'a'..=b'f' => Some(b - b'a' + 10),
        _ => None,
    }
}

// Whether a line is closed at a place of a text.
pub fn closed_at(text: &[u8], at: usize) -> bool
    ensures { IsTrue result ↔ Stands text.now at (0x0a ∷ []) }
{
    stands_at(text, at, b"\n")
}

// Whether the fixed line `ff` stands at a place of a text.
pub fn ending_at(text: &[u8], at: usize) -> bool
    ensures { IsTrue result ↔ Stands text.now at ending }
{
    stands_at(text, at, b"ff\n")
}

// Whether a part stands at a place of a text.
pub fn stands_at(text: &[u8], at: usize, part: &[u8]) -> bool
    ensures { IsTrue result ↔ Stands text.now at part.now }
{
    text.get(at..).is_some_and(|rest| rest.starts_with(part))
}

// ---- Put into a buffer

// Puts the line of a frame at a place of a buffer, and gives the place after it.
pub fn put_line(buffer: &mut [u8], at: usize, frame: &[u8]) -> usize
    requires { at + (2 * length frame.now + 1) ≤ length buffer.old }
    ensures { Puts buffer.old at (line frame.now) result buffer.new }
{
    let mut next = at;
    for x in frame {
        next = put_byte(buffer, next, *x);
    }
    put(buffer, next, b"\n")
}

// Puts the two digits of a byte, and gives the place after them.
#[tactic(auto, unfolding(paper::specs::Text::two_digits))]
pub fn put_byte(buffer: &mut [u8], at: usize, x: u8) -> usize
    requires { at + 2 ≤ length buffer.old }
    ensures { Puts buffer.old at (two_digits x) result buffer.new }
{
    put(buffer, at, &[digit(x / 16), digit(x % 16)])
}

// The digit of a value below 16.
#[tactic(auto, unfolding(paper::specs::Text::digit))]
pub fn digit(d: u8) -> u8
    requires { d < 16 }
    ensures { result ≡ digit d }
{
    if d < 10 { b'0' + d } else { b'a' + (d - 10) }
}

// Puts the fixed line `ff`, and gives the place after it.
pub fn put_ending(buffer: &mut [u8], at: usize) -> usize
    requires { at + 3 ≤ length buffer.old }
    ensures { Puts buffer.old at ending result buffer.new }
{
    put(buffer, at, b"ff\n")
}

// Puts a part at a place of a buffer, and gives the place after it.
pub fn put(buffer: &mut [u8], at: usize, part: &[u8]) -> usize
    requires { at + length part.now ≤ length buffer.old }
    ensures { Puts buffer.old at part.now result buffer.new }
{
    let end = at + part.len();
    buffer[at..end].copy_from_slice(part);
    end
}
