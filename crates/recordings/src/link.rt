// The link over which halves are fetched: 2 Mbit in a second, which is 250 bytes in a millisecond.
ghost use Rattle.std.specs.Prelude.{◌≡◌, ◌+◌, ◌/◌};

// How many milliseconds the link takes for that many bytes, rounded up.
pub fn link_ms(bytes: u32) -> u32
    ensures { result ≡ (bytes + 249) / 250 }
{
    ((bytes as u64 + 249) / 250) as u32
}
