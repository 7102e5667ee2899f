use super::ScriptError;
use std::test::Fail;

#[test]
fn faults_have_messages(rt: HostRuntime) -> Result<(), Fail> {
    let alloc = rt.alloc();
    let cases = [
        (ScriptError::TooLong, "too-long"),
        (ScriptError::Line { line: 7 }, "7"),
        (ScriptError::NoMemory, "no-memory"),
    ];
    for (error, want) in cases {
        let found = error.to_string(alloc)?;
        assert_eq!(rt; found.as_str(), want);
    }
    Ok(())
}
