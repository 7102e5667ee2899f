//! What a transcript is of a script and its files, as definitions that other crates speak of.
//!
//! `specs/Files` says what the files of a session hold, `specs/Meant` which journal the lines of a
//! transcript mean, `specs/Points` that the points of a lane never fall, `specs/Replies` which reply a
//! command may have, and `specs/Transcripts` all of it together (`TranscriptOf`). All is said of a
//! finished transcript: no lane that runs, no lock and no thread is named.
#![tactic(auto)]
