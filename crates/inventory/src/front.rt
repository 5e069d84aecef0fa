// The longest front of bytes that pass a test, and the test that tells words apart.
ghost use Rattle.std.specs.Prelude.{◌≡◌, ℕ, ◌≤◌, Bool, length};
ghost use Rattle.std.specs.List.{prefix_len, take_while};
ghost use Rattle.inventory.specs.Lines.{Computes, gap, past_front};

// Space, tab and carriage return, which stand between words.
pub fn is_gap(byte: u8) -> bool
    ensures { result ≡ gap byte }
{
    matches!(byte, b' ' | b'\t' | b'\r')
}

// How many bytes stand before the first that fails.
pub fn front_length<F: Fn(u8) -> bool>(bytes: &[u8], test: F) -> usize
    requires { F.IsAlwaysCallable test }
    ensures within { result ≤ length bytes.now }
    ensures longest { (p : ℕ → Bool) → Computes (F.post test) p → result ≡ prefix_len p bytes.now }
{
    bytes
        .iter()
        .position(|byte| !test(*byte))
        .unwrap_or(bytes.len())
}

// The bytes before the first that fails, and those from there on.
pub fn split_front<F: Fn(u8) -> bool>(bytes: &[u8], test: F) -> (&[u8], &[u8])
    requires { F.IsAlwaysCallable test }
    ensures front { (p : ℕ → Bool) → Computes (F.post test) p → result.0.now ≡ take_while p bytes.now }
    ensures rest { (p : ℕ → Bool) → Computes (F.post test) p → result.1.now ≡ past_front p bytes.now }
{
    bytes.split_at(front_length(bytes, test))
}
