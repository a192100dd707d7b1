// The cartridge image: the medium under every device.
#![tactic(auto)]

pub mod header; // header.rt: the header, read and judged (refusal 2)
pub mod elements; // elements.rt: the kind of an element, and the two stores
