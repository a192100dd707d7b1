// The theorems on any packet device: what is refused, when a packet begins, how the speed is told and set, how marked blocks are
// counted, what the lock does. All of it is in specs/ and proofs/.
#![tactic(auto)]
