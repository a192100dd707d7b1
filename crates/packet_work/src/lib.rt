// The work that both packet devices share.
#![tactic(auto)]

pub mod moving; // moving.rt: how a run over the tape ends a packet
pub mod replies; // replies.rt: the replies of 03h, 12h and 1Ah
pub mod settings; // settings.rt: the speed that 15h sets, 1Bh and 1Eh
