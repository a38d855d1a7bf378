// Span sheets of half-known sentences: what those who fill them promise.
#![tactic(auto)]
