// Clear at every length: two trees over one sentence as pairs of nodes. Nothing here runs: specs/
// has the definitions, proofs/ the laws about them.
#![tactic(auto)]
