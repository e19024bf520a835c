use super::number_keys;
use std::test::Fail;

#[test]
fn labels_by_least_number(rt: HostRuntime) -> Result<(), Fail> {
    let keys = [Some(5), None, Some(2), Some(5), Some(0), Some(2)];
    let numbering = number_keys(rt.alloc(), &keys, 6)?;
    assert_eq!(rt; numbering.labels.as_slice(), [1, 0, 2, 1, 3, 2].as_slice());
    assert_eq!(rt; numbering.count, 3);
    Ok(())
}
