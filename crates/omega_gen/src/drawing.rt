//! Words, drawn one after the other.
ghost use Rattle.std.specs.Prelude.{◌≡◌, ◌<◌, ◌%◌};
ghost use Rattle.omega_gen.specs.Words.{left_after, word_of};

use rand_core::Rng;

/// The next word of a generator, modulo a bound.
pub(crate) fn draw<R: Rng>(words: &mut R, bound: u32) -> u32
    requires { 0 < bound }
    ensures drawn { result ≡ word_of (R.stream words.old) 0 % bound }
    ensures left { R.stream words.new ≡ left_after 1 (R.stream words.old) }
{
    words.next_u32() % bound
}
