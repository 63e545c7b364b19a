// Words in bytes, little-endian.
#![tactic(auto)]

ghost use Rattle.std.specs.Prelude.{◌≡◌, ◌+◌, ◌*◌, ◌<◌, ◌≤◌, length};
ghost use Rattle.words.specs.Words.{tab};
ghost use Rattle.octets.specs.Octets.{word_in};

// Word k. A program that has read so many bytes meets the requires, here and below.
pub fn word_in(bytes: &[u8], k: usize) -> u32
    requires { 4 * k + 3 < length bytes.now }
    ensures { result ≡ word_in bytes.now k }
{
    let at = 4 * k;
    u32::from_le_bytes([bytes[at], bytes[at + 1], bytes[at + 2], bytes[at + 3]])
}

// Fills a slice with the words from word `first` on.
pub fn read_words(bytes: &[u8], first: usize, into: &mut [u32])
    requires { 4 * (first + length into.old) ≤ length bytes.now }
    ensures { into.new ≡ tab (length into.old) (λ k. word_in bytes.now (first + k)) }
{
    for (k, word) in into.iter_mut().enumerate() {
        *word = word_in(bytes, first + k);
    }
}
