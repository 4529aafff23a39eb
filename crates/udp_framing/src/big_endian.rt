// Big-endian numbers in a slice of bytes, the high byte first.
ghost use Rattle.std.specs.Prelude.{◌≡◌, ℕ, ◌+◌, ◌≤◌, length};
ghost use Rattle.model.specs.Bytes.{big_endian_at, big_endian_bytes, part, placed};

// An unsigned number that stands in `width` bytes.
pub trait BigEndian: Copy {
    ghost width: { ℕ };

    ghost value: { Self → ℕ };

    fn read_from(packet: &[u8], at: usize) -> Self
        requires { at + width ≤ length packet.now }
        ensures { value result ≡ big_endian_at at width packet.now };

    fn write_to(self, target: &mut [u8], at: usize)
        requires { at + width ≤ length target.old }
        ensures { target.new ≡ placed at (big_endian_bytes width (value self)) target.old };
}

// The N bytes from a place on.
fn bytes_at<const N: usize>(packet: &[u8], at: usize) -> [u8; N]
    requires { at + N ≤ length packet.now }
    ensures { result ≡ part at N packet.now }
{
    *packet[at..].first_chunk().unwrap()
}

// Writes the bytes from a place on.
pub fn place_bytes(target: &mut [u8], at: usize, bytes: &[u8])
    requires { at + length bytes.now ≤ length target.old }
    ensures { target.new ≡ placed at bytes.now target.old }
{
    target[at..at + bytes.len()].copy_from_slice(bytes);
}

// An impl for each width. (One for all, by `FromBytes` and `ToBytes` of the kit's `num_traits`, had nothing to show width and value by: no law
// there says how many bytes the array has, nor that they are the number's. `byteorder` reads at a slice's front; a macro's impl is refused.)
impl BigEndian for u8 {
    ghost width = { 1 };

    ghost value = { λ n. n };

    #[tactic(auto, using(crate::proofs::BigEndian::read_1))]
    fn read_from(packet: &[u8], at: usize) -> u8 {
        u8::from_be_bytes(bytes_at(packet, at))
    }

    #[tactic(auto, using(crate::proofs::BigEndian::byte_written))]
    fn write_to(self, target: &mut [u8], at: usize) {
        place_bytes(target, at, &self.to_be_bytes());
    }
}

impl BigEndian for u16 {
    ghost width = { 2 };

    ghost value = { λ n. n };

    #[tactic(auto, using(crate::proofs::BigEndian::read_2))]
    fn read_from(packet: &[u8], at: usize) -> u16 {
        u16::from_be_bytes(bytes_at(packet, at))
    }

    #[tactic(auto, using(crate::proofs::BigEndian::written_2))]
    fn write_to(self, target: &mut [u8], at: usize) {
        place_bytes(target, at, &self.to_be_bytes());
    }
}

impl BigEndian for u32 {
    ghost width = { 4 };

    ghost value = { λ n. n };

    #[tactic(auto, using(crate::proofs::BigEndian::read_4))]
    fn read_from(packet: &[u8], at: usize) -> u32 {
        u32::from_be_bytes(bytes_at(packet, at))
    }

    #[tactic(auto, using(crate::proofs::BigEndian::written_4))]
    fn write_to(self, target: &mut [u8], at: usize) {
        place_bytes(target, at, &self.to_be_bytes());
    }
}

impl BigEndian for u64 {
    ghost width = { 8 };

    ghost value = { λ n. n };

    #[tactic(auto, using(crate::proofs::BigEndian::read_8))]
    fn read_from(packet: &[u8], at: usize) -> u64 {
        u64::from_be_bytes(bytes_at(packet, at))
    }

    #[tactic(auto, using(crate::proofs::BigEndian::written_8))]
    fn write_to(self, target: &mut [u8], at: usize) {
        place_bytes(target, at, &self.to_be_bytes());
    }
}
