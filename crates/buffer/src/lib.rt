// Writing text into a buffer of bytes, from a given place on. Each function answers the place behind what it wrote.
#![tactic(auto)]

ghost use Rattle.std.specs.Prelude.{◌≡◌, ◌+◌, ◌≤◌, ◌++◌, length, decimal};
ghost use Rattle.buffer.specs.Put.{put};

// Writes the bytes.
pub fn put_bytes(buffer: &mut [u8], at: usize, bytes: &[u8]) -> usize
    requires { at + length bytes.now ≤ length buffer.old }
    ensures text { buffer.new ≡ put buffer.old at bytes.now }
    ensures end { result ≡ at + length bytes.now }
{
    let end = at + bytes.len();
    buffer[at..end].copy_from_slice(bytes);
    end
}

// Writes the number in decimal.
pub fn put_number(buffer: &mut [u8], at: usize, n: u64) -> usize
    requires { at + length (decimal n) ≤ length buffer.old }
    ensures text { buffer.new ≡ put buffer.old at (decimal n) }
    ensures end { result ≡ at + length (decimal n) }
{
    // a number of one digit, as many of a sheet are, is quicker written than formatted and copied
    if n < 10 {
        buffer[at] = 48 + n as u8;
        return at + 1;
    }
    let mut digits = itoa::Buffer::new();
    put_bytes(buffer, at, digits.format(n).as_bytes())
}

// Writes the label, and behind it the number in decimal.
pub fn put_field(buffer: &mut [u8], at: usize, label: &[u8], n: u64) -> usize
    requires { at + length (label.now ++ decimal n) ≤ length buffer.old }
    ensures text { buffer.new ≡ put buffer.old at (label.now ++ decimal n) }
    ensures end { result ≡ at + length (label.now ++ decimal n) }
{
    let behind = put_bytes(buffer, at, label);
    put_number(buffer, behind, n)
}
