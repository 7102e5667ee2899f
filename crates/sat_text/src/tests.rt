use super::*;
use std::alloc::{AllocError, Global};
use std::test::Fail;

fn trace_answer(alloc: Global, text: &str) -> Result<String, AllocError> {
    match read_trace(alloc, text.as_bytes()) {
        Ok(trace) => {
            let clauses = trace.len();
            format!(in alloc; "{clauses} clauses")
        }
        Err(error) => format!(in alloc; "{error}"),
    }
}

fn cnf_answer(alloc: Global, text: &str) -> Result<String, AllocError> {
    match read_cnf(alloc, text.as_bytes()) {
        Ok(cnf) => {
            let clauses = cnf.clauses.len();
            format!(in alloc; "{clauses} clauses")
        }
        Err(error) => format!(in alloc; "{error}"),
    }
}

/// Every message of the two errors, as the program's lines have them.
#[test]
fn messages(rt: HostRuntime) -> Result<(), Fail> {
    let traces = [
        ("1 1 0 x", "syntax 6"),
        ("1 1 0 0 1 -1 0 0", "repeated 1"),
        ("1 1 0 0\n2 0 1 9 0", "unknown 2 9"),
    ];
    for (text, answer) in traces {
        assert_eq!(rt; trace_answer(rt.alloc(), text)?.as_str(), answer);
    }
    let cnfs = [
        ("p cnf\n1 1\n", "syntax 6"),
        ("p cnf 1 1\n2 0", "var-range 10"),
        ("p cnf 1 2\n1 0", "count 2 1"),
    ];
    for (text, answer) in cnfs {
        assert_eq!(rt; cnf_answer(rt.alloc(), text)?.as_str(), answer);
    }
    let alloc = rt.alloc();
    let too_long = TraceError::TooLong;
    assert_eq!(rt; format!(in alloc; "{too_long}")?.as_str(), "too-long");
    let no_memory = TraceError::NoMemory;
    assert_eq!(rt; format!(in alloc; "{no_memory}")?.as_str(), "no-memory");
    let too_long = CnfError::TooLong;
    assert_eq!(rt; format!(in alloc; "{too_long}")?.as_str(), "too-long");
    let no_memory = CnfError::NoMemory;
    assert_eq!(rt; format!(in alloc; "{no_memory}")?.as_str(), "no-memory");
    Ok(())
}

/// Each reader and printer once, with ample memory.
#[test]
fn printed_texts_are_read_again(rt: HostRuntime) -> Result<(), Fail> {
    let trace = "1 -1 0 0\n2 -2 0 0\n3 1 2 0 0\n4 * 3 1 0\n5 0 4 2 0\n";
    let read = read_compact(rt.alloc(), trace.as_bytes())?;
    let printed = print_trace(rt.alloc(), &read).ok().ok_or("memory")?;
    assert_eq!(rt; printed.as_slice(), trace.as_bytes());

    let cnf = print_cnf(
        rt.alloc(),
        &read_cnf(rt.alloc(), b"c\np cnf 2 3\n2 -1 2\n0 0\n1\t-2 0")?,
    )
    .ok()
    .ok_or("memory")?;
    assert_eq!(rt;
        cnf.as_slice(),
        b"p cnf 2 3\n-1 2 0\n0\n1 -2 0\n".as_slice()
    );
    Ok(())
}
