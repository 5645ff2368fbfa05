// Copying octets to the start of a slice, and zeroing a slice.
ghost use Rattle.std.specs.Prelude.{◌≡◌, ◌≤◌, length, replicate};
ghost use Rattle.octets.specs.Room.{overlay};

// Copies src to the start of dst.
pub fn copy_in(dst: &mut [u8], src: &[u8])
    requires { length src.now ≤ length dst.old }
    ensures { dst.new ≡ overlay src.now dst.old }
{
    for i in 0..src.len() {
        dst[i] = src[i];
    }
}

// Sets every octet to 0.
pub fn zero(dst: &mut [u8])
    ensures { dst.new ≡ replicate (length dst.old) 0 }
{
    dst.fill(0);
}
