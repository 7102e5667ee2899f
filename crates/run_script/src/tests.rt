use super::*;
use std::test::Fail;
use std::thread;

/// Two lanes, of which the second has no commands; a file that is used as both kinds; comments.
const TEXT: &[u8] = b"fabric 1 1 1 1 1 # device\r\nslots 2\nlimit 3\n\nworkers 4\nlane\n\
agree 1 a\ndeliver 0 a#\n cycle\t0 10 0\nsweep 1 18446744073709551615 2\nlane\n";

#[test]
fn a_script_is_read_and_moves_to_a_thread(rt: HostRuntime) -> Result<(), Fail> {
    let alloc = rt.alloc();
    let script = read_script(alloc, TEXT)?;
    assert_eq!(rt; script.files.as_slice().len(), 2);
    assert_eq!(rt; script.lanes.as_slice()[0].as_slice().len(), 4);
    let there = thread::spawn(&rt, move || script.lanes.as_slice().len())?;
    assert_eq!(rt; there.join(&rt), 2);
    Ok(())
}

#[test]
fn a_transcript_is_printed(rt: HostRuntime) -> Result<(), Fail> {
    let alloc = rt.alloc();
    let mut journal = Items::new(alloc);
    journal.push(Line {
        kind: EntryKind::Agreed,
        lane: 0,
        turn: 1,
        slot: 2,
    })?;
    let mut replies = Items::new(alloc);
    replies.push(Reply::Vacant { at: 0 })?;
    replies.push(Reply::Agreed { at: 1 })?;
    let mut lanes = Items::new(alloc);
    lanes.push(replies)?;
    let printed = print_transcript(alloc, &Transcript { journal, lanes })?;
    let want = b"journal 1\n1 agreed 0 1 2\nlane 0\n0 vacant @0\n1 agreed @1\n";
    assert_eq!(rt; printed.as_slice(), want.as_slice());
    Ok(())
}
