ghost use Rattle.std.specs.Prelude.{◌≡◌, length, map};
ghost use Rattle.poly_code.specs.Polynomial.{IsBytes};
ghost use Rattle.member_shares.specs.Shares.{longest, AreBytes};

use scr_base::Bytes;

/// The greatest length of the streams.
pub fn longest_stream(streams: &Vec<Bytes>) -> usize
    ensures longest { result ≡ longest (map length streams.now.items) }
    ensures bytes { AreBytes streams.now.items }
{
    let mut most = 0;
    for i in 0..streams.len() {
        most = most.max(len_of(streams[i].list()));
    }
    most
}

/// How many bytes these are.
fn len_of(stream: &[u8]) -> usize
    ensures count { result ≡ length stream.now }
    ensures bytes { IsBytes stream.now }
{
    stream.len()
}

/// The greatest of some lengths.
pub fn longest_of(lengths: &Vec<u32>) -> usize
    ensures { result ≡ longest lengths.now.items }
{
    let mut most = 0;
    for i in 0..lengths.len() {
        most = most.max(lengths[i] as usize);
    }
    most
}
