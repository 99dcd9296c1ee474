// Finding a byte.
ghost use Rattle.std.specs.Prelude.{◌≡◌, true, MatchOption};
ghost use Rattle.xr_device.specs.FirstByte.{is_free_of, IsFirstAt};

/// The place of the first of these bytes that is this one.
pub(crate) fn place_of(byte: u8, bytes: &[u8]) -> Option<usize>
    ensures { MatchOption result (is_free_of byte bytes.now ≡ true) (λ place. IsFirstAt byte bytes.now place) }
{
    for (place, b) in bytes.iter().enumerate() {
        if *b == byte {
            return Some(place);
        }
    }
    None
}
