//! Runs, as definitions and laws: a machine's moves in list order, whatever the machine is. No
//! code.
#![tactic(auto)]
