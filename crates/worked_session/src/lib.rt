// A whole session of set 0 with an accepted signing and a yes, from the definitions by computation, SHA-512 included. No code.
#![tactic(auto)]
