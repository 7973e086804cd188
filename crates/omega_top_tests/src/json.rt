//! The JSON of lines that are given as text, which no command asks for.

use omega_model::NoMemory;
use omega_report::json_of;

const LINES: &str = "wait 1 2 105000\nbusy 0 18446744073709551615 18446744073709551616\n";

const JSON: &str =
    "[[\"wait\",1,2,105000],[\"busy\",0,18446744073709551615,\"18446744073709551616\"]]\n";

#[test]
fn a_number_of_more_than_64_bits_is_a_string(rt: HostRuntime) -> Result<(), NoMemory> {
    let json = json_of(rt.alloc(), LINES.as_bytes())?;
    assert!(rt; json.as_slice() == JSON.as_bytes());
    Ok(())
}
