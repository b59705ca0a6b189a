// Small inputs through the entries' definitions, each by computation: no code.
#![tactic(auto)]
