// What both packet devices share: what a packet asks, what is judged before the work, and what an answer is made of.
#![tactic(auto)]

pub mod answers; // answers.rt: refused, ended before the work, ended by the work
pub mod replies; // replies.rt: the bytes that 03h, 12h and 1Ah give, and the copying of a reply
pub mod requests; // requests.rt: the fields of one packet
pub mod shell; // shell.rt: any packet device, and the one order of its answers
pub mod verdicts; // verdicts.rt: what is judged before the work, in 01's order, the lock after the fields
