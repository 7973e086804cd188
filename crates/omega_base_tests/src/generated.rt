//! The tables of a generator and of a seed.
use omega_gen::{tables_of, tables_of_seed};
use omega_io::{SteadyTables, Tables};
use omega_model::Table;
use rand_pcg::Lcg64Xsh32;
use std::test::Fail;

/// Four machines of seed 0.
const MACHINES: &str = "\
0,1,0,g,0.75,0.75
0,2,0,g,0.75,0.75
0,3,0,g,0.75,0.75
0,4,0,g,0.5,0.5
";

/// Three jobs of seed 0, behind four machines.
const TASKS: &str = "\
610000000,,1,0,,0,g,2,1,0.027,0.036,,0
610000000,,1,1,,0,g,2,1,0.027,0.036,,0
610000000,,1,2,,0,g,2,1,0.027,0.036,,0
610000000,,1,3,,0,g,2,1,0.027,0.036,,0
610000000,,1,4,,0,g,2,1,0.027,0.036,,0
2410000000,,1,0,,4,g,2,1,0.027,0.036,,0
2410000000,,1,1,,4,g,2,1,0.027,0.036,,0
2410000000,,1,2,,4,g,2,1,0.027,0.036,,0
2410000000,,1,3,,4,g,2,1,0.027,0.036,,0
2410000000,,1,4,,4,g,2,1,0.027,0.036,,0
620000000,,2,0,,0,g,3,0,0.025,0.020,,0
620000000,,2,1,,0,g,3,0,0.025,0.020,,0
4520000000,,2,0,,4,g,3,0,0.025,0.020,,0
4520000000,,2,1,,4,g,3,0,0.025,0.020,,0
630000000,,3,0,,0,g,3,9,0.049,0.004,,0
630000000,,3,1,,0,g,3,9,0.049,0.004,,0
2130000000,,3,0,,4,g,3,9,0.049,0.004,,0
2130000000,,3,1,,4,g,3,9,0.049,0.004,,0
";

/// Whether a table has these bytes, fewer than 1,024.
fn has(tables: &mut SteadyTables, table: Table, expected: &str) -> bool {
    let mut piece = [0; 1_024];
    match tables.read(table, &mut piece) {
        Ok(count) => &piece[..count] == expected.as_bytes(),
        Err(_) => false,
    }
}

/// Whether the tables are those of seed 0.
fn are_of_seed_0(tables: &mut SteadyTables) -> bool {
    has(tables, Table::MachineEvents, MACHINES)
        && has(tables, Table::MachineAttributes, "")
        && has(tables, Table::TaskEvents, TASKS)
        && has(tables, Table::TaskConstraints, "")
        && has(tables, Table::MapreduceJobs, "")
        && has(tables, Table::MachineDisk, "")
}

#[test]
fn tables_of_a_generator(rt: HostRuntime) -> Result<(), Fail> {
    let mut words = Lcg64Xsh32::new(0, 0);
    let mut tables = tables_of(rt.alloc(), &mut words, 4, 3)?;
    assert!(rt; are_of_seed_0(&mut tables));
    Ok(())
}

#[test]
fn tables_of_a_seed(rt: HostRuntime) -> Result<(), Fail> {
    let mut tables = tables_of_seed(rt.alloc(), 0, 4, 3)?;
    assert!(rt; are_of_seed_0(&mut tables));
    Ok(())
}
