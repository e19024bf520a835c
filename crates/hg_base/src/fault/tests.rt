use super::{FaultKind, InputFault};
use std::test::Fail;

#[test]
fn faults_as_text(rt: HostRuntime) -> Result<(), Fail> {
    let fault = InputFault {
        kind: FaultKind::TooLarge,
        at: 17,
        value: 4_294_967_296,
    };
    let text = format!(in rt.alloc(); "{fault}")?;
    assert_eq!(&rt; text.as_str(), "input 3 TooLarge at 17 value 4294967296");
    Ok(())
}
