// Theorems about runs, in specs/ and proofs/: a task that the equations find on time misses no job in any log that the replay accepts. There is no code here.
#![tactic(auto)]
