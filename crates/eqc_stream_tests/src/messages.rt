//! What stops and faults of runs, and the rules of options, say.

use eqc_check::{OptionRule, RunFault};
use eqc_tree::Stop;
use std::test::Fail;

#[test]
fn stops_faults_and_rules_say_what_happened(rt: HostRuntime) -> Result<(), Fail> {
    let text = format!(in rt.alloc();
        "{}; {}; {}; {}; {}",
        Stop::NodeLimit,
        RunFault::Read,
        RunFault::Write.code(),
        OptionRule::Nodes,
        OptionRule::Cells.code()
    )?;
    assert_eq!(rt;
        text.as_str(),
        "the store of diagrams is full; a file could not be opened, or a read failed; 92; nodes are from 1 to 1048574; 83"
    );
    Ok(())
}
