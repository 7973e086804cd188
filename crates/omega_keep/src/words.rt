//! Words of a line.
ghost use Rattle.std.specs.Prelude.{◌≡◌, ◌≤◌, length};
ghost use Rattle.std.specs.List.{position_or_len};
ghost use Rattle.omega_keep.specs.Reading.{is_space, word_at, rest_at};

/// The place of the first space, or the length where there is none.
fn space_place(text: &[u8]) -> usize
    ensures place { result ≡ position_or_len is_space text.now }
    ensures bound { result ≤ length text.now }
{
    for (place, byte) in text.iter().enumerate() {
        if *byte == b' ' {
            return place;
        }
    }
    text.len()
}

/// The first word, and what stands behind it and its space.
#[tactic(auto, unfolding(crate::specs::Reading::word_at, crate::specs::Reading::rest_at))]
pub fn cut(text: &[u8]) -> (&[u8], &[u8])
    ensures word { result.0.now ≡ word_at text.now }
    ensures rest { result.1.now ≡ rest_at text.now }
{
    let place = space_place(text);
    (&text[..place], text.get(place + 1..).unwrap_or(&[]))
}
