// Total access to lent words, and the range test that the layers above share.
#![tactic(auto)]

ghost use Rattle.std.specs.Prelude.{◌≡◌, set};
ghost use Rattle.words.specs.Words.{word};
ghost use Rattle.words.specs.Tests.{between};

// Word k, and 0 past the end.
pub fn get(s: &[u32], k: usize) -> u32
    ensures { result ≡ word s.now k }
{
    if k < s.len() { s[k] } else { 0 }
}

// Stores word k; past the end nothing is stored.
pub fn put(s: &mut [u32], k: usize, v: u32)
    ensures { s.new ≡ set s.old k v }
{
    if k < s.len() {
        s[k] = v;
    }
}

// low <= x <= high
pub fn is_between(low: u32, high: u32, x: u32) -> bool
    ensures { result ≡ between low high x }
{
    (low..=high).contains(&x)
}
