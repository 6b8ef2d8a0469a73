// What document 01 says of a session file: definitions, and theorems over whole lists of plays. No code: crate session plays by these rules.
#![tactic(auto)]
