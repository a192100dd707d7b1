// 02, A7: the public SIMH magtape format, read from any bytes and written: words, items, the reader, and what a whole file is found to hold.
#![tactic(auto)]

pub mod items; // items.rt: what stands at a place of a file
pub mod judging; // judging.rt: a whole file, judged before anything of it is used
pub mod reader; // reader.rt: the file's bytes and its place, together as one thing to pass around
pub mod writing; // writing.rt: a record, and the words that are no record's length
