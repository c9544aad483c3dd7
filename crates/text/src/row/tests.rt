// A row as text.
use super::*;
use std::test::Fail;

#[test]
fn numbers_and_spaces(rt: HostRuntime) -> Result<(), Fail> {
    let row = Row {
        numbers: [0, 1100, u64::MAX],
    };
    let text = format!(in rt.alloc(); "{row}")?;
    assert_eq!(rt; text.as_str(), "0 1100 18446744073709551615");
    Ok(())
}
