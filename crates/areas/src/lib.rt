// Scopes are made. (Crates `entry`, `exit` and `removal` have how one is entered, left and removed.)
#![tactic(auto)]

pub mod make; // make.rt: op 03
