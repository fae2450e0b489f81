//! Every run of the four slots gets a placing: statements in specs/, their proofs in proofs/.
#![tactic(auto)]
