// Mathematics that knows no room: definitions in specs/, their laws in proofs/. No functions.
#![tactic(auto)]
