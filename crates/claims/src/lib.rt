// What follows from the promises: theorems about the calls' relations alone, in specs/. Nothing here looks at code.
#![tactic(auto)]
