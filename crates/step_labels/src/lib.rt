//! Which label of the machine a step of the code is: a definition alone.
#![tactic(auto)]
