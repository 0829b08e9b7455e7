// Bytes copied from one slice to another.
ghost use Rattle.std.specs.Prelude.{◌≡◌};
ghost use Rattle.wire.specs.Copy.{copied};

// The bytes of a slice put to the start of another, as many as there is room for. (A loop, of which the compiler does many bytes at a
// time. The library's `copy_from_slice` calls C's `memmove`, which a controller without a C library would have to have beside `memcpy`
// and `memset`.)
pub fn copy(from: &[u8], into: &mut [u8])
    ensures { into.new ≡ copied from.now into.old }
{
    for i in 0..from.len().min(into.len()) {
        into[i] = from[i];
    }
}
