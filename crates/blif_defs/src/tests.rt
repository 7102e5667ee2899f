use super::BlifError;
use std::test::Fail;

#[test]
fn faults_have_messages(rt: HostRuntime) -> Result<(), Fail> {
    let alloc = rt.alloc();
    let line = 7;
    let cases = [
        (BlifError::TooLong, "too-long"),
        (BlifError::Syntax { line }, "syntax 7"),
        (BlifError::Unsupported { line }, "unsupported 7"),
        (BlifError::Mixed { line }, "mixed 7"),
        (BlifError::DoubleDriven { line }, "double-driven 7"),
        (BlifError::RepeatedOutput { line }, "repeated-output 7"),
        (BlifError::Limit { line }, "limit 7"),
        (BlifError::NoOutputs, "no-outputs"),
        (BlifError::NoMemory, "no-memory"),
    ];
    for (error, want) in cases {
        let found = error.to_string(alloc)?;
        assert_eq!(rt; found.as_str(), want);
    }
    Ok(())
}
