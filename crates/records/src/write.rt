// Writing numbers and bytes, where they fit; where they do not, nothing changes.
ghost use Rattle.std.specs.Prelude.{◌≡◌};
ghost use Rattle.records.specs.Bytes.{to_be};
ghost use Rattle.records.specs.Relations.Write.{over_fit};

use crate::bytes::has_bytes;

// Writes a u16: the lower 16 bits of v, the high byte first.
pub fn write_u16(d: &mut [u8], at: usize, v: usize)
    ensures { d.new ≡ over_fit d.old at (to_be 2 v) }
{
    if has_bytes(d.len(), at, 2) {
        d[at] = (v / 256 % 256) as u8;
        d[at + 1] = (v % 256) as u8;
    }
}

// Writes a u32: the lower 32 bits of v, the high byte first.
pub fn write_u32(d: &mut [u8], at: usize, v: usize)
    ensures { d.new ≡ over_fit d.old at (to_be 4 v) }
{
    if has_bytes(d.len(), at, 4) {
        write_u16(d, at, v / 65536);
        write_u16(d, at + 2, v % 65536);
    }
}

// Copies src into d from `at` on.
pub fn write_bytes(d: &mut [u8], at: usize, src: &[u8])
    ensures { d.new ≡ over_fit d.old at src.now }
{
    if has_bytes(d.len(), at, src.len()) {
        for i in 0..src.len() {
            d[at + i] = src[i];
        }
    }
}
