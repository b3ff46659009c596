// What holds of a host that calls the core, whatever it calls: the third demand, said of what the host
// holds. There is no code here.
#![tactic(auto)]
