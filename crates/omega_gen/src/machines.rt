//! The rows of machines.
ghost use Rattle.std.specs.Prelude.{◌≡◌, ◌++◌, IfOk, OnOk};
ghost use Rattle.std.specs.List.{flat_map, range_with_len};
ghost use Rattle.std.specs.String.{string_bytes};
ghost use Rattle.omega_model.specs.Generated.{capacity_text, machine_text};
ghost use Rattle.omega_gen.specs.Words.{left_after, word_of};

use omega_model::{Bytes, NoMemory, Seq};
use rand_core::Rng;
use std::alloc::Global;

/// The rows that add so many machines, with a word for each.
pub(crate) fn machine_events<R: Rng>(
    alloc: Global,
    words: &mut R,
    machines: u32,
) -> Result<Bytes, NoMemory>
    ensures rows { IfOk result (λ bytes. bytes ≡ flat_map (machine_text (word_of (R.stream words.old))) (range_with_len 0 machines)) }
    ensures left { OnOk result (R.stream words.new ≡ left_after machines (R.stream words.old)) }
{
    let mut out = String::new(alloc);
    for place in 0..machines {
        let word = words.next_u32();
        push_machine(&mut out, word, place)?;
    }
    Ok(Seq::of(out.into_bytes()))
}

/// The row of the machine at a place, from 0, with the capacity that the word gives it.
fn push_machine(out: &mut String, word: u32, place: u32) -> Result<(), NoMemory>
    ensures { OnOk result (string_bytes out.new ≡ string_bytes out.old ++ machine_text (λ _. word) place) }
{
    let number = u64::from(place) + 1;
    let capacity = capacity_text(word);
    writeln!(out, "0,{number},0,g,{capacity},{capacity}")?;
    Ok(())
}

/// The capacity that a word gives a machine.
fn capacity_text(word: u32) -> &'static str
    ensures { result.now ≡ capacity_text word }
{
    match word % 3 {
        0 => "0.5",
        1 => "0.75",
        _ => "1",
    }
}
