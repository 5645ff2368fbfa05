// An input fed to the reader of chunks, in chunks of one length.
ghost use Rattle.std.specs.Prelude.{◌≡◌, ◌<◌, ◌≤◌, length};
ghost use Rattle.numbers.specs.Limits as limit;
ghost use Rattle.watch.specs.State.{Reached};

use numbers::limit;
use watch::{Arrived, Watch};

// Where the chunk that starts at `at` ends, in an input of n octets: after `size` octets, or at the input's end; a size of 0 counts as 1.
fn chunk_end(at: usize, size: usize, n: usize) -> usize
    requires { at < n }
    ensures { (at < result) × (result ≤ n) }
{
    if size == 0 {
        return at + 1;
    }
    if n - at < size {
        return n;
    }
    at + size
}

// Feeds an input to a fresh watch in chunks of `size` octets, and answers its last state.
pub fn feed(input: &[u8], size: usize, buffer: &mut [u8]) -> Watch
    requires { length buffer.old ≡ limit.octets }
    ensures { Reached result buffer.new input.now }
{
    let mut w = Watch::new();
    let mut at = 0;
    while at < input.len() {
        let end = chunk_end(at, size, input.len());
        let a = w.chunk(buffer, &input[at..end]);
        let Arrived::Next(v) = a else {
            return w;
        };
        w = v;
        at = end;
    }
    w
}
