// The worked examples P1 to P9 of the specification. Nothing here runs: specs/ has the claims as
// one table, proofs/ the theorem that every claim holds.
#![tactic(auto)]
