// Tables of spans and nonterminals, and what stands over a span by them. Nothing here runs: specs/
// has the definitions, proofs/ the laws about them.
#![tactic(auto)]
