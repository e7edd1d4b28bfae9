// Carry: a layer over any source, by which a security's sheet holds for some days more.
#![tactic(auto)]

pub mod layer;
